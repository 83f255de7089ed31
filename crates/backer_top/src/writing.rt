ghost use Rattle.std.specs.Prelude.{◌≤◌, OnOk, OnErr};
ghost use Rattle.outside.specs.Device.{Rose};
ghost use Rattle.backer_top.specs.Output.{IsCutShort, IsWritten};

use outside::{Failed, Sink};

/// How many bytes are put at once.
const PIECE: usize = 4096;

/// Puts the bytes on the sink in pieces of 4,096 bytes, the last one shorter, and stops at the first failure.
pub(crate) fn write_all<S: Sink>(sink: &mut S, bytes: &[u8]) -> Result<(), Failed>
    ensures faults { S.faults sink.old ≤ S.faults sink.new }
    ensures cause { OnErr result (Rose (S.faults sink.old) (S.faults sink.new)) }
    ensures cut_short { OnErr result (IsCutShort S.held S.took S.failed sink.old sink.new bytes.now) }
    ensures written { OnOk result (IsWritten S.held S.took sink.old sink.new bytes.now) }
{
    let mut rest = bytes;
    while rest.len() > PIECE {
        let (piece, later) = rest.split_at(PIECE);
        sink.put(piece)?;
        rest = later;
    }
    if !rest.is_empty() {
        sink.put(rest)?;
    }
    Ok(())
}
