ghost use Rattle.std.specs.Prelude.{◌≡◌, ◌≢◌, ℕ, ◌<◌, ◌≤◌, length, take, IfOk, IfErr, OnErr};
ghost use Rattle.std.specs.Io.KnownBytes.{Appends, Consumes, IsAtEnd, Keeps};
ghost use Rattle.std.specs.IoError.{error_kind};

use std::io::{Error, ErrorKind, Read, Result, Write};

// How often a call that a signal interrupts is made.
const TRIES: u32 = 1000;

/// One read, made again where a signal interrupts it.
pub fn read_some<R: Read>(reader: &mut R, into: &mut [u8]) -> Result<usize>
    ensures within { IfOk result (λ count. count ≤ length into.old) }
    ensures given { IfOk result (λ count. Consumes (R.remaining reader.old) (R.remaining reader.new) (take count into.new)) }
    ensures ended { IfOk result (λ count. count ≡ 0 → 0 < length into.old → IsAtEnd (R.remaining reader.new)) }
    ensures none { OnErr result (Keeps (R.remaining reader.old) (R.remaining reader.new)) }
    ensures retried { IfErr result (λ error. error_kind error ≢ ErrorKind.Interrupted) }
{
    for _ in 0..TRIES {
        match reader.read(into) {
            Ok(count) => return Ok(count),
            Err(error) => {
                if error.kind() != ErrorKind::Interrupted {
                    return Err(error);
                }
            }
        }
    }
    Err(Error::from(ErrorKind::TimedOut))
}

/// One write, made again where a signal interrupts it.
pub fn write_some<W: Write>(writer: &mut W, piece: &[u8]) -> Result<usize>
    ensures within { IfOk result (λ count. count ≤ length piece.now) }
    ensures front { IfOk result (λ count. Appends (W.contents writer.old) (W.contents writer.new) (take count piece.now)) }
    ensures none { OnErr result (Keeps (W.contents writer.old) (W.contents writer.new)) }
    ensures retried { IfErr result (λ error. error_kind error ≢ ErrorKind.Interrupted) }
{
    for _ in 0..TRIES {
        match writer.write(piece) {
            Ok(count) => return Ok(count),
            Err(error) => {
                if error.kind() != ErrorKind::Interrupted {
                    return Err(error);
                }
            }
        }
    }
    Err(Error::from(ErrorKind::TimedOut))
}
