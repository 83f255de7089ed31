use cilk_meaning::TrapKind;

/// What a frame wants next. The first eight are requests: a node answers them, and each costs one tick. `Frame::args` has the
/// arguments of a `Spawn`. The last two end the instance.
#[derive(Clone, Copy, Debug, PartialEq, Eq)]
pub enum Want {
    Read { word: u32 },
    Write { word: u32, value: i64 },
    Add { word: u32, addend: i64 },
    Print { value: i64 },
    Spawn { proc: u32, target: Option<u32> },
    Sync,
    Call,
    LoopTurn,
    Return { value: i64 },
    Trap(TrapKind),
}

/// An answer to a request: the value of the word at a `Read`, its old value at an `Add`, and `Done` at each other. At a `Sync` the
/// values of the children came before, by `Frame::deposit`.
#[derive(Clone, Copy, Debug, PartialEq, Eq)]
pub enum Answer {
    Value(i64),
    Done,
}
