ghost use Rattle.std.specs.Prelude.{◌≡◌, IfOk};
ghost use Rattle.page_messages.specs.Posts.{note_of, post_of};

use crate::closure::{Closure, FrameId, JoinId};
use crate::parts::{Parts, copied_parts};
use crate::post::{Note, Post, copied};
use outside::Words;
use std::alloc::{AllocError, Global};

/// A message from one node to another or to itself.
#[derive(Debug, Drop)]
pub struct Msg {
    pub sender: u32,
    pub receiver: u32,
    pub body: Body,
}

/// What a message says.
#[derive(Debug, Drop)]
pub enum Body {
    /// A node asks the home of a page for it.
    Fetch {
        page: u32,
    },
    /// The home answers a Fetch with the words that the page had as the Fetch was taken.
    Page {
        page: u32,
        words: Words,
    },
    /// A node hands the marked words of pages to their home, another node.
    Reconcile {
        parts: Parts,
    },
    /// The home answers a Reconcile: all its parts are merged.
    Ack,
    /// A node without work asks another one for a frame.
    Ask,
    /// The other one answers with the oldest frame of its deque.
    Grant {
        closure: Closure,
    },
    /// Or it answers that there is none.
    Refuse,
    /// A child that was separated from its parent has returned with this value: what it is in the parent, for the parent's join.
    Done {
        join: JoinId,
        index: u32,
        value: i64,
    },
    /// A stolen frame waits at its sync, at its join.
    Park {
        join: JoinId,
        closure: Closure,
    },
    /// A frame wants an add, as its act of this index, of a word of which the receiver is the home.
    Add {
        frame: FrameId,
        index: u32,
        word: u32,
        addend: i64,
    },
    /// The home answers an Add: it was done, and the word had this value before.
    Added {
        old: i64,
    },
}

impl Body {
    fn note(&self, alloc: Global) -> Result<Note, AllocError>
        ensures { IfOk result (λ note. note ≡ note_of self.now) }
    {
        Ok(match self {
            Body::Fetch { page } => Note::Fetch { page: *page },
            Body::Page { page, words } => Note::Page {
                page: *page,
                words: copied(alloc, words.items())?,
            },
            Body::Reconcile { parts } => Note::Reconcile {
                parts: copied_parts(alloc, parts.items())?,
            },
            Body::Ack => Note::Ack,
            Body::Ask => Note::Ask,
            Body::Grant { closure } => Note::Grant { frame: closure.id },
            Body::Refuse => Note::Refuse,
            Body::Done { join, index, value } => Note::Done {
                join: *join,
                index: *index,
                value: *value,
            },
            Body::Park { join, closure } => Note::Park {
                join: *join,
                frame: closure.id,
            },
            Body::Add {
                frame,
                index,
                word,
                addend,
            } => Note::Add {
                frame: *frame,
                index: *index,
                word: *word,
                addend: *addend,
            },
            Body::Added { old } => Note::Added { old: *old },
        })
    }
}

impl Msg {
    /// What the log keeps of the message. It fails only where memory is refused.
    pub fn post(&self, alloc: Global) -> Result<Post, AllocError>
        ensures { IfOk result (λ post. post ≡ post_of self.now) }
    {
        Ok(Post {
            receiver: self.receiver,
            note: self.body.note(alloc)?,
        })
    }
}
