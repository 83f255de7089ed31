ghost use Rattle.cilk_meaning.specs.Ends.{trap_number};
ghost use Rattle.std.specs.Prelude.{◌≡◌};

/// Why an instance traps.
#[derive(Clone, Copy, Debug, PartialEq, Eq)]
pub enum TrapKind {
    /// a divisor is 0
    DivideByZero,
    /// an index is below 0, or not below the number of the array's words
    IndexOutOfRange,
    /// the exact result of an operation is no `i64`
    Overflow,
    /// too many plain calls are open, or a spawn would make an instance too deep
    TooDeep,
}

impl TrapKind {
    /// The kind's number, from 1 to 4.
    pub fn number(self) -> u8
        ensures { result ≡ trap_number self }
    {
        match self {
            TrapKind::DivideByZero => 1,
            TrapKind::IndexOutOfRange => 2,
            TrapKind::Overflow => 3,
            TrapKind::TooDeep => 4,
        }
    }
}

/// How a run ends.
#[derive(Clone, Copy, Debug, PartialEq, Eq)]
pub enum NodeEnd {
    /// `main` has returned.
    Finished,
    /// An instance trapped.
    Trapped(TrapKind),
    /// One tick more was wanted than there were.
    Budget,
}
