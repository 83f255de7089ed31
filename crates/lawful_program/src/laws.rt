//! Each law is the contract of a function that does nothing.

ghost use Rattle.lawful_program.specs.Laws.{LawfulIsWellFormed, LawfulKeepsValues, LawfulCode};

/// The program without names of a lawful source names what there is, calls plain functions and spawns `cilk` procedures, with as
/// many arguments as they have parameters.
pub fn lawful_is_well_formed()
    ensures { LawfulIsWellFormed }
{}

/// No statement of it reads or sets a local that may still get a child's value.
pub fn lawful_keeps_values()
    ensures { LawfulKeepsValues }
{}

/// Its code stands for it.
pub fn lawful_code()
    ensures { LawfulCode }
{}
