//! Laws of the elision as an execution, each the contract of a function that does nothing.

ghost use Rattle.elision_trace.specs.Laws.{ElisionIsSerial, ElisionObeys, ElisionRaceFree, ElisionReads, ElisionRemembers, ElisionReturns, ElisionTicks, RunsGoAsElision, TraceIsLog};

/// The elision of a parted program is an execution of it.
pub fn elision_obeys()
    ensures { ElisionObeys }
{}

/// Each read and each add gives the word as it is in the order of positions.
pub fn elision_reads()
    ensures { ElisionReads }
{}

/// The elision leaves in each word its last value.
pub fn elision_remembers()
    ensures { ElisionRemembers }
{}

/// Where the elision finished, `main` has returned.
pub fn elision_returns()
    ensures { ElisionReturns }
{}

/// Each position of the elision is an item, and so a tick.
pub fn elision_ticks()
    ensures { ElisionTicks }
{}

/// At each position of the trace stands the event of the log that has this number.
pub fn trace_is_log()
    ensures { TraceIsLog }
{}

/// Where the elision's history has no race, its trace has none.
pub fn elision_race_free()
    ensures { ElisionRaceFree }
{}

/// An elision that finished, and whose history has no race, is a serial execution of its program.
pub fn elision_is_serial()
    ensures { ElisionIsSerial }
{}

/// Each location consistent execution of a program goes as the elision, where that finished and its history has no race: no frame traps, no
/// more ticks are spent, and a finished one has the same frames, told the same, and the same memory.
pub fn runs_go_as_elision()
    ensures { RunsGoAsElision }
{}
