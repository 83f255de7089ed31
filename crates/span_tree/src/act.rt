/// A place of a history: the number of a row, and the index of an act in it.
#[derive(Clone, Copy, Debug, PartialEq, Eq)]
pub struct Place {
    pub row: u32,
    pub act: u32,
}

/// An act of an instance, with what it was answered.
#[derive(Clone, Copy, Debug, PartialEq, Eq)]
pub enum Act {
    /// A shared word was read, and had this value.
    Read { word: u32, value: i64 },
    Write { word: u32, value: i64 },
    /// An atomic add to a shared word, which had the value `old` before.
    Add { word: u32, old: i64, addend: i64 },
    Print { value: i64 },
    /// The child's row.
    Spawn { row: u32 },
    Sync,
}
