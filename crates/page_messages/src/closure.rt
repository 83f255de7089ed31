use plain_machine::Frame;
use sqlite_items::Items;

/// The name of a frame: the node that started it, and its number among the frames of that node. That of `main` is 0 of node 0.
#[derive(Clone, Copy, Debug, PartialEq, Eq)]
pub struct FrameId {
    pub node: u32,
    pub number: u32,
}

/// The name of a join, at which a stolen frame and the children that were separated from it come together: the node that
/// started it, where it is, and its number among the joins of that node.
#[derive(Clone, Copy, Debug, PartialEq, Eq)]
pub struct JoinId {
    pub node: u32,
    pub number: u32,
}

/// A child in its parent: the index of the act that spawned it, and the local that its value is for.
#[derive(Clone, Copy, Debug, PartialEq, Eq)]
pub struct Child {
    pub index: u32,
    pub target: Option<u32>,
}

/// Where a frame's value goes when it returns.
#[derive(Clone, Copy, Debug, PartialEq, Eq)]
pub enum Link {
    /// Nowhere: the frame is that of `main`.
    Root,
    /// To the parent, which is on the same node.
    Here,
    /// By a message, to the join of the parent, from which this child was separated.
    Away { join: JoinId },
}

/// A frame with all that a node has to know of it. It travels so between nodes.
#[derive(Debug, Drop)]
pub struct Closure {
    pub id: FrameId,
    pub frame: Frame,
    /// How many acts it has made.
    pub acts: u32,
    pub link: Link,
    /// What it is in its parent. For `main` it says nothing.
    pub spawned: Child,
    /// Its join, where it was stolen since its last sync and the join is not complete.
    pub join: Option<JoinId>,
    /// The children that were spawned since its last sync and separated from it, in the order of separation.
    pub away: Items<Child>,
}
