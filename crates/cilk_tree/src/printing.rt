ghost use Rattle.std.specs.Prelude.{◌≡◌, ◌++◌, decimal, flat_map, map, IfOk, OnOk};
ghost use Rattle.cilk_tree.specs.Canonical.{listed, array_line, cilk_text, result_text, parameter_text, function_lines, canonical_text};
ghost use Rattle.cilk_tree.specs.Spelling.{Spells};
ghost use Rattle.cilk_tree.specs.Writable.{IsWritable};

mod expressions;
mod statements;

use crate::name::Name;
use crate::tree::{Function, Program, Shared};
use statements::push_body;
use std::alloc::{AllocError, Global};

/// The canonical text of the program: its arrays, one a line, and then its functions, with two blanks of indent for
/// each level, one blank round each operator, and no parentheses but those that are needed. A program that has a text
/// is spelled by it.
pub fn print_program(alloc: Global, program: &Program) -> Result<Vec<u8>, AllocError>
    ensures canonical { IfOk result (λ text. text.items ≡ canonical_text program.now) }
    ensures spells { IsWritable program.now → IfOk result (λ text. Spells text.items program.now) }
{
    let mut text = Vec::new(alloc);
    push_arrays(alloc, &mut text, program.shared.as_slice())?;
    push_functions(alloc, &mut text, program.functions.as_slice())?;
    Ok(text)
}

fn push_arrays(alloc: Global, text: &mut Vec<u8>, arrays: &[Shared]) -> Result<(), AllocError>
    ensures { OnOk result (text.new.items ≡ text.old.items ++ flat_map array_line arrays.now) }
{
    for array in arrays {
        push_array(alloc, text, array)?;
    }
    Ok(())
}

fn push_array(alloc: Global, text: &mut Vec<u8>, array: &Shared) -> Result<(), AllocError>
    ensures { OnOk result (text.new.items ≡ text.old.items ++ array_line array.now) }
{
    text.extend_from_slice(b"int ")?;
    text.extend_from_slice(array.name.items())?;
    text.extend_from_slice(b"[")?;
    push_words(alloc, text, array.words)?;
    text.extend_from_slice(b"];\n")
}

fn push_words(alloc: Global, text: &mut Vec<u8>, words: u64) -> Result<(), AllocError>
    ensures { OnOk result (text.new.items ≡ text.old.items ++ decimal words) }
{
    let digits = format!(in alloc; "{words}")?;
    text.extend_from_slice(digits.as_bytes())
}

fn push_functions(
    alloc: Global,
    text: &mut Vec<u8>,
    functions: &[Function],
) -> Result<(), AllocError>
    ensures { OnOk result (text.new.items ≡ text.old.items ++ flat_map function_lines functions.now) }
{
    for function in functions {
        push_function(alloc, text, function)?;
    }
    Ok(())
}

fn push_function(alloc: Global, text: &mut Vec<u8>, function: &Function) -> Result<(), AllocError>
    ensures { OnOk result (text.new.items ≡ text.old.items ++ function_lines function.now) }
{
    text.extend_from_slice(cilk_word(function.cilk))?;
    text.extend_from_slice(result_word(function.gives))?;
    text.extend_from_slice(function.name.items())?;
    text.extend_from_slice(b"(")?;
    push_parameters(text, function.params.as_slice())?;
    text.extend_from_slice(b") {\n")?;
    push_body(alloc, text, 0, function.body.as_slice())?;
    text.extend_from_slice(b"}\n")
}

fn cilk_word(is_procedure: bool) -> &'static [u8]
    ensures { result.now ≡ cilk_text is_procedure }
{
    if is_procedure { b"cilk " } else { b"" }
}

fn result_word(gives: bool) -> &'static [u8]
    ensures { result.now ≡ result_text gives }
{
    if gives { b"int " } else { b"void " }
}

fn push_parameters(text: &mut Vec<u8>, parameters: &[Name]) -> Result<(), AllocError>
    ensures { OnOk result (text.new.items ≡ text.old.items ++ listed (map parameter_text parameters.now)) }
{
    let Some((first, others)) = parameters.split_first() else {
        return Ok(());
    };
    push_parameter(text, first)?;
    for parameter in others {
        text.extend_from_slice(b", ")?;
        push_parameter(text, parameter)?;
    }
    Ok(())
}

fn push_parameter(text: &mut Vec<u8>, parameter: &Name) -> Result<(), AllocError>
    ensures { OnOk result (text.new.items ≡ text.old.items ++ parameter_text parameter.now) }
{
    text.extend_from_slice(b"int ")?;
    text.extend_from_slice(parameter.items())
}
