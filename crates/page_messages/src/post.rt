ghost use Rattle.std.specs.Prelude.{◌≡◌, IfOk};

use crate::closure::{FrameId, JoinId};
use crate::parts::Parts;
use outside::Words;
use std::alloc::{AllocError, Global};

/// What the log keeps of a message: to whom it was sent, and what it says.
#[derive(Debug, Drop)]
pub struct Post {
    pub receiver: u32,
    pub note: Note,
}

/// What a message says, with the name of a frame in the place of its closure.
#[derive(Debug, Drop)]
pub enum Note {
    Fetch {
        page: u32,
    },
    Page {
        page: u32,
        words: Words,
    },
    Reconcile {
        parts: Parts,
    },
    Ack,
    Ask,
    Grant {
        frame: FrameId,
    },
    Refuse,
    Done {
        join: JoinId,
        index: u32,
        value: i64,
    },
    Park {
        join: JoinId,
        frame: FrameId,
    },
    Add {
        frame: FrameId,
        index: u32,
        word: u32,
        addend: i64,
    },
    Added {
        old: i64,
    },
}

/// A list of these values.
pub(crate) fn copied(alloc: Global, values: &[i64]) -> Result<Words, AllocError>
    ensures { IfOk result (λ words. words ≡ values.now) }
{
    let mut words = Words::new(alloc);
    for value in values {
        words.push(*value)?;
    }
    Ok(words)
}
