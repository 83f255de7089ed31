ghost use Rattle.cilk_compiler.specs.Numbering.{IsNumbering, array_names, function_names};
ghost use Rattle.cilk_meaning.specs.Resolving.{array_number, function_number};
ghost use Rattle.std.specs.Prelude.{◌≡◌, IfOk};

use crate::names::Names;
use cilk_tree::Program;
use std::alloc::{AllocError, Global};
use std::marker::Model;

/// A program with its arrays and functions by their names. Contracts see the program.
#[derive(Drop)]
pub(crate) struct Globals<'a> {
    program: &'a Program,
    arrays: Names<'a>,
    functions: Names<'a>,
}

impl<'a> Model for Globals<'a> {
    ghost use Rattle.cilk_tree.specs.declared.tree.Program.{Program};

    ghost Value = { Program };

    ghost use Rattle.cilk_tree.specs.contracts.tree.Program as tree;

    ghost coded = { tree.the_row.coded };

    ghost use Rattle.cilk_compiler.specs.Globals.{IsComplete};

    ghost view = { λ globals. globals.program.now };

    ghost invariant = { IsComplete };
}

impl<'a> Globals<'a> {
    pub(crate) fn new(alloc: Global, program: &'a Program) -> Result<Self, AllocError>
        ensures { IfOk result (λ globals. globals ≡ program.now) }
    {
        Ok(Globals {
            program,
            arrays: array_names(alloc, program)?,
            functions: function_names(alloc, program)?,
        })
    }

    pub(crate) fn program(&self) -> &'a Program
        ensures { result.now ≡ self.now }
    {
        self.program
    }

    /// The number of the array of this name.
    pub(crate) fn array(&self, name: &[u8]) -> u32
        ensures { result ≡ array_number self.now name.now }
    {
        self.arrays.number(name)
    }

    /// The number of the function of this name.
    pub(crate) fn function(&self, name: &[u8]) -> u32
        ensures { result ≡ function_number self.now name.now }
    {
        self.functions.number(name)
    }
}

fn array_names<'a>(alloc: Global, program: &'a Program) -> Result<Names<'a>, AllocError>
    ensures { IfOk result (λ names. IsNumbering names (array_names program.now)) }
{
    let mut names = Names::new(alloc);
    for array in program.shared.as_slice() {
        names.add(array.name.items())?;
    }
    Ok(names)
}

fn function_names<'a>(alloc: Global, program: &'a Program) -> Result<Names<'a>, AllocError>
    ensures { IfOk result (λ names. IsNumbering names (function_names program.now)) }
{
    let mut names = Names::new(alloc);
    for function in program.functions.as_slice() {
        names.add(function.name.items())?;
    }
    Ok(names)
}
