//! Laws of the code of a program, each the contract of a function that does nothing.

ghost use Rattle.compiled_code.specs.Laws.{CompiledIsValid, CompiledStands};

/// The code of a well formed program is well formed.
pub fn compiled_is_valid()
    ensures { CompiledIsValid }
{}

/// The code of a program stands for it.
pub fn compiled_stands()
    ensures { CompiledStands }
{}
