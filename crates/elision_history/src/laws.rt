//! Laws of the elision's history, each the contract of a function that does nothing.

ghost use Rattle.elision_history.specs.Laws.{ActsInOrder, AnswersDetermine, CompleteIsElision, ElisionIsHistory, ElisionReadsSerially, MemoryIsLastWrites, RaceFreeIsElision};

/// The elision's history is one of the program, and complete where it finished.
pub fn elision_is_history()
    ensures { ElisionIsHistory }
{}

/// The elision makes its acts in the serial order of its history.
pub fn acts_in_order()
    ensures { ActsInOrder }
{}

/// Each read and each add of the elision is answered by the last write in serial order.
pub fn elision_reads_serially()
    ensures { ElisionReadsSerially }
{}

/// The elision leaves in each word what the last write left there.
pub fn memory_is_last_writes()
    ensures { MemoryIsLastWrites }
{}

/// A complete history whose reads and adds are answered by the last writes in serial order is the elision's.
pub fn complete_is_elision()
    ensures { CompleteIsElision }
{}

/// A complete history is determined by what its reads and adds are answered.
pub fn answers_determine()
    ensures { AnswersDetermine }
{}

/// A complete and location consistent history without races is the elision's.
pub fn race_free_is_elision()
    ensures { RaceFreeIsElision }
{}
