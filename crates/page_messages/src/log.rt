use crate::closure::FrameId;
use crate::message::Msg;
use crate::parts::Part;
use crate::post::Post;
use cilk_meaning::NodeEnd;
use outside::Words;
use sqlite_items::Items;

/// An act of a frame, but for adds, with what it was answered.
#[derive(Debug, Drop)]
pub enum LoggedAct {
    /// A shared word was read in the cache, and had this value.
    Read {
        word: u32,
        value: i64,
    },
    Write {
        word: u32,
        value: i64,
    },
    Print {
        value: i64,
    },
    /// The child, its procedure and its arguments.
    Spawn {
        child: FrameId,
        proc: u32,
        args: Words,
    },
    Sync,
}

/// What a node does in a turn, beside its messages.
#[derive(Debug, Drop)]
pub enum Item {
    /// A frame makes its act of this index.
    Act {
        frame: FrameId,
        index: u32,
        act: LoggedAct,
    },
    /// A frame makes a plain call or tests a loop.
    Tick {
        frame: FrameId,
    },
    /// A page leaves the cache.
    Drop {
        page: u32,
    },
    /// A frame of the ready list becomes the node's only one.
    TakeUp {
        frame: FrameId,
    },
    /// A page comes into the cache from the node's own home, with these words.
    OwnFetch {
        page: u32,
        words: Words,
    },
    /// The marked words of a page go from the cache to the node's own home.
    OwnReconcile {
        part: Part,
    },
    /// The home of a word does an add, as the act of this index of a frame. The word had the value `old` before.
    Served {
        frame: FrameId,
        index: u32,
        word: u32,
        old: i64,
        addend: i64,
    },
}

/// The place of a post in a log: its turn, and its index among the posts of that turn. It names a message.
#[derive(Clone, Copy, Debug, PartialEq, Eq)]
pub struct PostAt {
    pub turn: u64,
    pub index: u32,
}

/// A turn of a node: what it did, then what it posted, then the message that it took, then its end.
#[derive(Debug, Drop)]
pub struct Turn {
    pub node: u32,
    pub items: Items<Item>,
    pub posts: Items<Post>,
    pub took: Option<PostAt>,
    pub end: Option<NodeEnd>,
}

/// The turns of a run, in order.
#[derive(Debug, Drop)]
pub struct Log {
    pub turns: Items<Turn>,
}

/// What a node does by itself in a turn: what it did, the messages that it posts, and its end.
#[derive(Debug, Drop)]
pub struct Step {
    pub items: Items<Item>,
    pub posts: Items<Msg>,
    pub end: Option<NodeEnd>,
}
