use backer_top::{Ended, backer};
use outside::{MemShelf, MemSink};
use std::alloc::{AllocError, Global};

/// What a call of the program left.
#[derive(Drop)]
pub struct Left {
    pub ended: Ended,
    pub out: MemSink,
    pub err: MemSink,
    pub calls: u64,
}

impl Left {
    /// Whether the call ended so, and this stands on `out` and on `err`.
    pub fn is(&self, ended: Ended, out: &[u8], err: &str) -> bool {
        self.ended == ended && self.out.held() == out && self.err.held() == err.as_bytes()
    }

    /// Whether the call ended with this number, put this line on `err`, and nothing on `out`.
    pub fn tells(&self, number: u8, line: &str) -> bool {
        self.err.held() == line.as_bytes() && self.ended.number() == number && self.out.puts() == 0
    }
}

/// The call of the shelf that fails, and how many bytes the sinks' failing calls keep, each with its number.
#[derive(Clone, Copy)]
pub struct Failing {
    pub read: Option<u64>,
    pub out: Option<(u64, usize)>,
    pub err: Option<(u64, usize)>,
}

/// No call fails.
pub const NOTHING: Failing = Failing {
    read: None,
    out: None,
    err: None,
};

/// Calls the program on a shelf that holds `text` as the file `f`.
pub fn run(
    alloc: Global,
    words: &[&str],
    text: Vec<u8>,
    failing: Failing,
) -> Result<Left, AllocError> {
    let mut list = Vec::new(alloc);
    for word in words {
        list.push(String::from_str(alloc, word)?)?;
    }
    let texts = vec![in alloc; (String::from_str(alloc, "f")?, text)]?;
    let mut shelf = MemShelf::new(alloc, texts, failing.read.into_iter().collect(alloc)?)?;
    let mut out = MemSink::new(alloc, 100_000, failing.out.into_iter().collect(alloc)?)?;
    let mut err = MemSink::new(alloc, 1_000, failing.err.into_iter().collect(alloc)?)?;
    let ended = backer(alloc, list.as_slice(), &mut shelf, &mut out, &mut err);
    let calls = shelf.calls();
    Ok(Left {
        ended,
        out,
        err,
        calls,
    })
}

/// `serial` of the source.
pub fn run_source(alloc: Global, source: &str, failing: Failing) -> Result<Left, AllocError> {
    run(
        alloc,
        &["serial", "f"],
        source.as_bytes().to_vec(alloc)?,
        failing,
    )
}
