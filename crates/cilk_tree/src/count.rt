/// What is counted along a source.
#[derive(Clone, Copy, Debug, PartialEq, Eq)]
pub enum Counted {
    /// the operators of one expression
    Operators,
    /// the parameters of one function
    Parameters,
    /// the arguments of one call
    Arguments,
    /// the parameters and locals of one function
    Variables,
    /// the arrays of the program
    Arrays,
    /// the functions of the program
    Functions,
}

/// What a token means for a count.
#[derive(Clone, Copy, Debug, PartialEq, Eq)]
pub enum Count {
    /// it begins anew
    Anew(Counted),
    /// there is one more
    OneMore(Counted),
}
