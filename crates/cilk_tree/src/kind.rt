ghost use Rattle.cilk_tree.specs.Kind.{kind_number};
ghost use Rattle.std.specs.Prelude.{◌≡◌};

/// Why a text is refused.
#[derive(Clone, Copy, Debug, PartialEq, Eq)]
pub enum Kind {
    /// a byte that begins no token
    BadByte,
    /// a run that begins with a digit and is no number
    BadNumber,
    /// a token that no program has there, or the end of a text that is no program yet
    Unexpected,
    /// a level above 64
    TooDeep,
    /// a count above its limit, or a name of more than 63 bytes
    TooMany,
}

impl Kind {
    /// The number that is shown.
    pub fn number(self) -> u16
        ensures { result ≡ kind_number self }
    {
        match self {
            Kind::BadByte => 101,
            Kind::BadNumber => 102,
            Kind::Unexpected => 103,
            Kind::TooDeep => 104,
            Kind::TooMany => 105,
        }
    }
}
