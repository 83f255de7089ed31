ghost use Rattle.std.specs.Prelude.{◌≡◌, if◌then◌else◌};
ghost use Rattle.backer_top.specs.Status.{status_number, error_line, is_shown, HasFixedLine};
ghost use Rattle.cilk_tree.specs.declared.tree.Program.{Program};

use cilk_meaning::TrapKind;
use cilk_tree::CheckPlace;
use race_check::Race;

/// Why a source is refused.
#[derive(Clone, Copy, Debug, PartialEq, Eq)]
pub enum SourceRefusal {
    /// It has more than 1,048,576 bytes.
    TooLong,
    /// It spells no program, for a reason of this number that shows at the byte of this offset.
    Read { kind: u16, offset: u64 },
    /// It spells a program whose first breach is of the rule of this number, at this place.
    Check { kind: u16, place: CheckPlace },
}

/// How a command ended.
#[derive(Clone, Copy, Debug, PartialEq, Eq)]
pub enum Status {
    Done,
    /// The words are none that the program takes.
    Words,
    Source(SourceRefusal),
    /// The file was not read.
    ReadFault,
    /// The output was not written.
    WriteFault,
    /// The run trapped on this node.
    Trap { kind: TrapKind, node: u32 },
    /// The run wanted one tick more than its budget on this node.
    Budget { node: u32 },
    /// The history of the serial elision has this race, which is its first.
    Race(Race),
    Memory,
}

impl Status {
    /// The status' number.
    pub fn number(&self) -> u8
        ensures { result ≡ status_number self.now }
    {
        match self {
            Status::Done => 0,
            Status::Words => 1,
            Status::Source(_) => 2,
            Status::ReadFault => 3,
            Status::WriteFault => 4,
            Status::Trap { kind: _, node: _ } => 5,
            Status::Budget { node: _ } => 6,
            Status::Race(_) => 7,
            Status::Memory => 8,
        }
    }

    /// Whether what was asked for is shown on `out`, and nothing is told on `err`.
    pub(crate) fn is_shown(&self) -> bool
        ensures { result ≡ is_shown self.now }
    {
        match self {
            Status::Done => true,
            Status::Words => false,
            Status::Source(_) => false,
            Status::ReadFault => false,
            Status::WriteFault => false,
            Status::Trap { kind: _, node: _ } => false,
            Status::Budget { node: _ } => false,
            Status::Race(_) => true,
            Status::Memory => false,
        }
    }

    /// The line of a status that has the same one each time.
    pub(crate) fn fixed_line(&self) -> &'static [u8]
        requires { HasFixedLine self.now }
        ensures { (program : Program) → result.now ≡ error_line program self.now }
    {
        match self {
            Status::Done => b"",
            Status::Words => b"backer: words refused\n",
            Status::Source(SourceRefusal::TooLong) => b"backer: source refused: too long\n",
            Status::Source(SourceRefusal::Read { .. } | SourceRefusal::Check { .. }) => b"",
            Status::ReadFault => b"backer: read failed\n",
            Status::WriteFault => b"backer: write failed\n",
            Status::Trap { kind, node: _ } => trap_line(*kind),
            Status::Budget { node: _ } => b"backer: budget spent on node 0\n",
            Status::Race(_) => b"",
            Status::Memory => b"backer: out of memory\n",
        }
    }
}

/// The line of a trap on node 0.
fn trap_line(kind: TrapKind) -> &'static [u8]
    ensures { (program : Program) → result.now ≡ error_line program (Status.Trap kind 0) }
{
    match kind {
        TrapKind::DivideByZero => b"backer: trap DivideByZero on node 0\n",
        TrapKind::IndexOutOfRange => b"backer: trap IndexOutOfRange on node 0\n",
        TrapKind::Overflow => b"backer: trap Overflow on node 0\n",
        TrapKind::TooDeep => b"backer: trap TooDeep on node 0\n",
    }
}

/// What a call of the program leaves.
#[derive(Clone, Copy, Debug, PartialEq, Eq)]
pub struct Ended {
    pub status: Status,
    /// Whether the put on `err` failed.
    pub mute: bool,
}

impl Ended {
    /// The number that the program ends with: that of the status, or 4 where its line could not be put on `err`.
    pub fn number(&self) -> u8
        ensures { result ≡ (if self.now.mute then 4 else status_number self.now.status) }
    {
        if self.mute { 4 } else { self.status.number() }
    }
}
