//! Logs that were worked out by hand from the rules in words: they are runs.

ghost use Rattle.cluster_rules.specs.Cases.{EmptyMain, ThreeWrites};
ghost use Rattle.cluster_rules.specs.EarlyPark.{EarlyPark};
ghost use Rattle.cluster_rules.specs.SmallCache.{SmallCache};
ghost use Rattle.cluster_rules.specs.TwoAdds.{TwoAdds};
ghost use Rattle.cluster_rules.specs.TwoWriters.{TwoWriters};

/// A `main` without statements, on one node.
pub fn empty_main()
    ensures { EmptyMain }
{}

/// A `main` that writes three words on two nodes: pages are fetched, and their words go home in one Reconcile.
pub fn three_writes()
    ensures { ThreeWrites }
{}

/// A `main` in which each page goes for the next one, on one node and on two.
pub fn small_cache()
    ensures { SmallCache }
{}

/// A `main` that is stolen from each of its two children, which write words of one page, and that waits for them at its join.
pub fn two_writers()
    ensures { TwoWriters }
{}

/// Two procedures that add to one word, on its home alone, and where one of them asks the home for its add.
pub fn two_adds()
    ensures { TwoAdds }
{}

/// A `main` that waits at its join while the child from which it was stolen still runs, with the value of its other child kept.
pub fn early_park()
    ensures { EarlyPark }
{}
