ghost use Rattle.std.specs.Prelude.{◌≡◌, ◌++◌, codes, IfOk, OnOk};
ghost use Rattle.std.specs.Fmt.{decimal};
ghost use Rattle.backer_top.specs.Output.{line, lines};
ghost use Rattle.backer_top.specs.Status.{array_name, error_line, function_name, function_words, place_words, statement_words};
ghost use Rattle.backer_top.specs.declared.status.SourceRefusal.TheVariants as SourceRefusal;
ghost use Rattle.backer_top.specs.declared.status.Status.TheVariants as Status;

use cilk_tree::{CheckPlace, Program};
use std::alloc::{AllocError, Global};

/// Each value in decimal on a line of its own.
pub(crate) fn lines_of(alloc: Global, values: &[i64]) -> Result<Vec<u8>, AllocError>
    ensures { IfOk result (λ text. text.items ≡ lines values.now) }
{
    let mut text = Vec::new(alloc);
    for value in values {
        push_line(alloc, &mut text, *value)?;
    }
    Ok(text)
}

fn push_line(alloc: Global, text: &mut Vec<u8>, value: i64) -> Result<(), AllocError>
    ensures { OnOk result (text.new.items ≡ text.old.items ++ line value) }
{
    let line = format!(in alloc; "{value}\n")?;
    text.extend_from_slice(line.as_bytes())
}

/// The line of a source that was refused for a reason of this number at this offset.
pub(crate) fn refusal_line(alloc: Global, kind: u16, offset: u64) -> Result<Vec<u8>, AllocError>
    ensures { IfOk result (λ line. line.items ≡ codes "backer: source refused: " ++ (decimal kind ++ (codes " at byte " ++ (decimal offset ++ codes "\n")))) }
{
    let line = format!(in alloc; "backer: source refused: {kind} at byte {offset}\n")?;
    Vec::from_slice(alloc, line.as_bytes())
}

/// The line of a program that breaks the rule of this number at this place.
pub(crate) fn breach_line(
    alloc: Global,
    program: &Program,
    kind: u16,
    place: CheckPlace,
) -> Result<Vec<u8>, AllocError>
    ensures { IfOk result (λ line. line.items ≡ error_line program.now (Status.Source (SourceRefusal.Check kind place))) }
{
    let start = format!(in alloc; "backer: source refused: {kind} in ")?;
    let mut line = Vec::from_slice(alloc, start.as_bytes())?;
    push_place(alloc, &mut line, program, place)?;
    line.push(b'\n')?;
    Ok(line)
}

/// Adds the place in words.
fn push_place(
    alloc: Global,
    line: &mut Vec<u8>,
    program: &Program,
    place: CheckPlace,
) -> Result<(), AllocError>
    ensures { OnOk result (line.new.items ≡ line.old.items ++ place_words program.now place) }
{
    match place {
        CheckPlace::Shared(array) => {
            line.extend_from_slice(b"array ")?;
            line.extend_from_slice(array_name(program, array))
        }
        CheckPlace::Function(function) => push_function(line, program, function),
        CheckPlace::Statement(function, statement) => {
            push_function(line, program, function)?;
            push_statement(alloc, line, statement)
        }
        CheckPlace::Whole => line.extend_from_slice(b"program"),
    }
}

fn push_function(line: &mut Vec<u8>, program: &Program, number: u32) -> Result<(), AllocError>
    ensures { OnOk result (line.new.items ≡ line.old.items ++ function_words program.now number) }
{
    line.extend_from_slice(b"function ")?;
    line.extend_from_slice(function_name(program, number))
}

fn push_statement(alloc: Global, line: &mut Vec<u8>, number: u32) -> Result<(), AllocError>
    ensures { OnOk result (line.new.items ≡ line.old.items ++ statement_words number) }
{
    let words = format!(in alloc; " statement {number}")?;
    line.extend_from_slice(words.as_bytes())
}

/// The name of the array of this number.
fn array_name(program: &Program, number: u32) -> &[u8]
    ensures { result.now ≡ array_name program.now number }
{
    match program.shared.as_slice().get(number as usize) {
        Some(array) => array.name.items(),
        None => &[],
    }
}

/// The name of the function of this number.
fn function_name(program: &Program, number: u32) -> &[u8]
    ensures { result.now ≡ function_name program.now number }
{
    match program.functions.as_slice().get(number as usize) {
        Some(function) => function.name.items(),
        None => &[],
    }
}
