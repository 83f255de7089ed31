//! What runs depth first on one node to an end is the elision, races or not.
#![tactic(auto)]

ghost use Rattle.one_node.specs.Alone.{AloneSerial};

/// A law, nothing is done: a run depth first, in which each word is accessed by one node alone, is the elision, with races too. It ends in the
/// same way, behind as many ticks, with the same history and memory.
pub fn alone_serial()
    ensures { AloneSerial }
{}
