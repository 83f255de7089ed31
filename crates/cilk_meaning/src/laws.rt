//! Laws of the definitions, each the contract of a function that does nothing.

ghost use Rattle.cilk_meaning.specs.Laws.{NamesInScope, LawfulIsParted, BoundIsHidden, WantsAreKept, AlwaysWants, ReturnsSynced, ElisionIsService, MoreTicks, TicksAreCounted, BudgetWantsMore};

/// Names are resolved from the points of the rules of lawful programs, so in the same scopes.
pub fn names_in_scope()
    ensures { NamesInScope }
{}

/// The plain functions of a lawful program neither spawn nor sync, and call plain functions alone.
pub fn lawful_is_parted()
    ensures { LawfulIsParted }
{}

/// The bound that the definition of an instance's wants takes does not show.
pub fn bound_is_hidden()
    ensures { BoundIsHidden }
{}

/// A want depends on the instance's own answers before it alone.
pub fn wants_are_kept()
    ensures { WantsAreKept }
{}

/// While its answers fit, an instance always wants something.
pub fn always_wants()
    ensures { AlwaysWants }
{}

/// An instance returns only where it has spawned nothing since its last sync.
pub fn returns_synced()
    ensures { ReturnsSynced }
{}

/// The serial elision is the depth-first service of the instances.
pub fn elision_is_service()
    ensures { ElisionIsService }
{}

/// More ticks change nothing where the elision did not end for want of them.
pub fn more_ticks()
    ensures { MoreTicks }
{}

/// The elision makes no more ticks than it may, and all of them where it ends for want of one more.
pub fn ticks_are_counted()
    ensures { TicksAreCounted }
{}

/// The elision ends for want of ticks only where, with one more, it makes one more.
pub fn budget_wants_more()
    ensures { BudgetWantsMore }
{}
