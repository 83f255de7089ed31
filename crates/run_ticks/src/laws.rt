//! Laws of the ticks of a run, each the contract of a function that does nothing.

ghost use Rattle.run_ticks.specs.Laws.{ReturnedTicks, RunTicks, SpentTicks};

/// An Add costs its node a tick where it is posted, and stands in the trace where its home serves it. So the ticks that a log counts for the nodes
/// are together the items of the trace, and the Adds that were posted and not served.
pub fn run_ticks()
    ensures { RunTicks }
{}

/// Where `main` has returned, no Add is under way, and the ticks are as many as the items.
pub fn returned_ticks()
    ensures { ReturnedTicks }
{}

/// Where a run ended with a spent budget, there are at least as many items: the node that ended has made all its ticks, and waits for nothing, so each
/// of them is an item.
pub fn spent_ticks()
    ensures { SpentTicks }
{}
