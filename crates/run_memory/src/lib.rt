//! What a run of the written cluster leaves in its words is what the last writes in the home orders of its history leave.
#![tactic(auto)]

ghost use Rattle.run_memory.specs.Laws.{MemoryThere, RunMemory};

/// A law, nothing is done: in whatever lawful turns, what is left in a word is what the last write in the word's home order leaves there,
/// and nothing else.
pub fn run_memory()
    ensures { RunMemory }
{}

/// A law, nothing is done: and something is left in each word.
pub fn memory_there()
    ensures { MemoryThere }
{}
