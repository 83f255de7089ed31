ghost use Rattle.std.specs.Prelude.{◌≡◌, ℕ, ◌≤◌, ◌++◌, List, Some, length, take, if◌then◌else◌, is_ok, OnOk, OnErr, IfSome};
ghost use Rattle.std.specs.Io.KnownBytes.{Appends};
ghost use Rattle.outside.specs.Device.{Rose, one_more};

use crate::Failed;
use crate::retrying::write_some;
use crate::sink::Sink;
use std::io::{Error, ErrorKind, Result as IoResult, Write};

/// Puts bytes into a writer, and flushes it after each piece. It tells what it holds only as far as the
/// writer does.
#[derive(Drop)]
pub struct RealSink<W> {
    writer: W,
    faults: u64,
}

impl<W: Write> RealSink<W> {
    /// A sink over this writer.
    pub fn new(writer: W) -> RealSink<W>
        ensures writer { result.writer ≡ writer }
        ensures no_faults { result.faults ≡ 0 }
    {
        RealSink { writer, faults: 0 }
    }
}

impl<W: Write> Sink for RealSink<W> {
    ghost held = { λ s. W.contents s.writer };

    ghost faults = { λ s. s.faults };

    fn put(&mut self, piece: &[u8]) -> Result<(), Failed>
        ensures faults { self.old.faults ≤ self.new.faults }
        ensures cause { OnErr result (Rose self.old.faults self.new.faults) }
        ensures whole { OnOk result (IfSome (W.contents self.old.writer) (λ before. W.contents self.new.writer ≡ Some (before ++ piece.now))) }
        ensures part { OnErr result (IfSome (W.contents self.old.writer) (λ before.
            (kept : ℕ) × (W.contents self.new.writer ≡ Some (before ++ take kept piece.now)))) }

        // A put that fails is one fault.
        ensures counted { self.new.faults ≡ (if is_ok result then self.old.faults else one_more self.old.faults) }
    {
        match write_whole(&mut self.writer, piece) {
            Ok(()) => Ok(()),
            Err(_) => {
                self.faults = self.faults.saturating_add(1);
                Err(Failed)
            }
        }
    }
}

// Writes a piece and flushes. A write that takes nothing of it is an error.
fn write_whole<W: Write>(writer: &mut W, piece: &[u8]) -> IoResult<()>
    ensures whole { OnOk result (Appends (W.contents writer.old) (W.contents writer.new) piece.now) }
    ensures part { OnErr result ((kept : ℕ) × Appends (W.contents writer.old) (W.contents writer.new) (take kept piece.now)) }
{
    let mut rest = piece;
    while !rest.is_empty() {
        let count = write_some(writer, rest)?;
        if count == 0 {
            return Err(Error::from(ErrorKind::WriteZero));
        }
        rest = &rest[count..];
    }
    writer.flush()
}
