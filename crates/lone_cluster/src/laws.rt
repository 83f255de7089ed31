//! Laws of runs on one node, each the contract of a function that does nothing.

ghost use Rattle.lone_cluster.specs.Laws.{OneNodeActsByItself, OneNodeEnds, OneNodeRunsDepthFirst};

/// On one node nothing is posted, nothing is taken, and no frame is taken up: node 0 does all by itself.
pub fn one_node_acts_by_itself()
    ensures { OneNodeActsByItself }
{}

/// A run on one node is an execution of its program that goes depth first, with at most the budget's ticks, and in which each word is
/// accessed by one node alone.
pub fn one_node_runs_depth_first()
    ensures { OneNodeRunsDepthFirst }
{}

/// Where its last turn has an end, the execution ends so: `main` has returned, its top traps, or it asks for one tick more than the budget.
pub fn one_node_ends()
    ensures { OneNodeEnds }
{}
