//! Laws of the elision as a run depth first, each the contract of a function that does nothing.

ghost use Rattle.elision_alone.specs.Laws.{ElisionIsAlone, ElisionRunsAs};

/// The elision of a parted program is an execution depth first of items alone, of at most as many ticks as it may, and ends in its way.
pub fn elision_is_alone()
    ensures { ElisionIsAlone }
{}

/// The rows of the elision's history run what its frames run.
pub fn elision_runs_as()
    ensures { ElisionRunsAs }
{}
