use crate::kind::Kind;

/// Where the tokens of a text end.
#[derive(Clone, Copy, Debug, PartialEq, Eq)]
pub enum Ending {
    /// at the text's end
    Reached,
    /// before something that is no token, which is refused for this reason and at this offset
    Stopped(Kind, u64),
}
