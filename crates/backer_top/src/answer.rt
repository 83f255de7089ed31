ghost use Rattle.std.specs.Prelude.{◌≡◌, ◌⊎◌};
ghost use Rattle.backer_top.specs.Status.{error_line, HasFixedLine};
ghost use Rattle.backer_top.specs.Lines.{IsLineOf, line_bytes};
ghost use Rattle.cilk_tree.specs.declared.tree.Program.{Program};

use crate::lines::{breach_line, refusal_line};
use crate::status::{SourceRefusal, Status};
use cilk_reader::read_program;
use cilk_tree::CheckPlace;
use std::alloc::Global;

/// A line for `err`, with its end.
#[derive(Debug, Drop)]
pub(crate) enum Line {
    /// one that takes no memory
    Fixed(&'static [u8]),
    Made(Vec<u8>),
}

impl Line {
    pub(crate) fn bytes(&self) -> &[u8]
        ensures { result.now ≡ line_bytes self.now }
    {
        match self {
            Line::Fixed(bytes) => *bytes,
            Line::Made(bytes) => bytes.as_slice(),
        }
    }
}

/// How a command ended, and the line that tells it.
#[derive(Debug, Drop)]
pub(crate) struct Answer {
    pub(crate) status: Status,
    pub(crate) line: Line,
}

impl Answer {
    /// A status whose line is the same each time.
    pub(crate) fn of(status: Status) -> Self
        requires { HasFixedLine status }
        ensures status { result.status ≡ status }
        ensures line { (program : Program) → line_bytes result.line ≡ error_line program status }
    {
        Answer {
            status,
            line: Line::Fixed(status.fixed_line()),
        }
    }

    /// A source that spells no program, for a reason of this number that shows at this offset.
    pub(crate) fn unread(alloc: Global, kind: u16, offset: u64) -> Self
        ensures status { (result.status ≡ Status.Source (SourceRefusal.Read kind offset)) ⊎ (result.status ≡ Status.Memory) }
        ensures line { (program : Program) → line_bytes result.line ≡ error_line program result.status }
    {
        match refusal_line(alloc, kind, offset) {
            Ok(line) => Answer {
                status: Status::Source(SourceRefusal::Read { kind, offset }),
                line: Line::Made(line),
            },
            Err(_) => Answer::of(Status::Memory),
        }
    }

    /// A source whose program breaks the rule of this number at this place. The checker drops a program that it refuses,
    /// so its text is parsed once more for the name in the line.
    pub(crate) fn unlawful(alloc: Global, text: &[u8], kind: u16, place: CheckPlace) -> Self
        ensures status { (result.status ≡ Status.Source (SourceRefusal.Check kind place)) ⊎ (result.status ≡ Status.Memory) }
        ensures line { IsLineOf text.now result.status (line_bytes result.line) }
    {
        let Ok(program) = read_program(alloc, text) else {
            return Answer::of(Status::Memory);
        };
        match breach_line(alloc, &program, kind, place) {
            Ok(line) => Answer {
                status: Status::Source(SourceRefusal::Check { kind, place }),
                line: Line::Made(line),
            },
            Err(_) => Answer::of(Status::Memory),
        }
    }
}
