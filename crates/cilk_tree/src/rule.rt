ghost use Rattle.cilk_tree.specs.Rule.{rule_number};
ghost use Rattle.std.specs.Prelude.{◌≡◌};

/// The rules that a lawful program keeps, each by the breach of it.
#[derive(Clone, Copy, Debug, PartialEq, Eq)]
pub enum Rule {
    /// two things in scope share a name
    DuplicateName,
    /// a name is none in scope
    UnknownName,
    /// a name stands for the wrong kind of thing
    WrongKind,
    /// the number of arguments is not that of the parameters
    WrongArity,
    /// a value is wanted of a `void` function, or given by one
    NoValue,
    /// a spawn or sync in a plain function
    SpawnInPlain,
    /// a plain call of a `cilk` procedure
    CallOfCilk,
    /// a spawn of a plain function
    SpawnOfPlain,
    /// a spawn's target is used before a sync
    UsedBeforeSync,
    /// no function `main` without parameters
    NoMain,
    /// more words than the arrays of a program may have together
    TooManyWords,
}

impl Rule {
    /// The number that is shown.
    pub fn number(self) -> u16
        ensures { result ≡ rule_number self }
    {
        match self {
            Rule::DuplicateName => 201,
            Rule::UnknownName => 202,
            Rule::WrongKind => 203,
            Rule::WrongArity => 204,
            Rule::NoValue => 205,
            Rule::SpawnInPlain => 206,
            Rule::CallOfCilk => 207,
            Rule::SpawnOfPlain => 208,
            Rule::UsedBeforeSync => 209,
            Rule::NoMain => 210,
            Rule::TooManyWords => 211,
        }
    }
}
