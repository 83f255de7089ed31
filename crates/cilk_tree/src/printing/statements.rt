ghost use Rattle.std.specs.Prelude.{◌≡◌, ◌+◌, ◌*◌, ◌++◌, ◌∷◌, [], codes, map, replicate, OnOk};
ghost use Rattle.cilk_tree.specs.Canonical.{expr_text, listed, target_text, call_text, addition_text, return_text, else_lines, lines_at, statement_lines, line};

use super::expressions::push_expression;
use crate::name::Name;
use crate::tree::{Expr, Stmt};
use sqlite_items::Items;
use std::alloc::{AllocError, Global};

/// Appends the lines of the statements that stand inside something of this level, so that they are one level deeper.
#[cycle(statement)]
pub(super) fn push_body(
    alloc: Global,
    text: &mut Vec<u8>,
    level: usize,
    body: &[Stmt],
) -> Result<(), AllocError>
    ensures { OnOk result (text.new.items ≡ text.old.items ++ lines_at (level + 1) (map statement_lines body.now)) }
{
    let inside = level.checked_add(1).ok_or(AllocError)?;
    for statement in body {
        push_statement(alloc, text, inside, statement)?;
    }
    Ok(())
}

/// Appends the lines of the statement.
#[cycle(statement)]
fn push_statement(
    alloc: Global,
    text: &mut Vec<u8>,
    level: usize,
    statement: &Stmt,
) -> Result<(), AllocError>
    ensures { OnOk result (text.new.items ≡ text.old.items ++ statement_lines statement.now level) }
{
    push_indent(text, level)?;
    match statement {
        Stmt::Declare(name) => push_declaration(text, name),
        Stmt::Assign(name, value) => push_assignment(alloc, text, name, value),
        Stmt::Put(name, index, value) => push_store(alloc, text, name, index, value),
        Stmt::Print(value) => push_print(alloc, text, value),
        Stmt::If(condition, taken, otherwise) => {
            push_condition(alloc, text, b"if", condition)?;
            push_body(alloc, text, level, taken.as_slice())?;
            push_else(alloc, text, level, otherwise.as_slice())
        }
        Stmt::While(condition, body) => {
            push_condition(alloc, text, b"while", condition)?;
            push_body(alloc, text, level, body.as_slice())?;
            push_end(text, level)
        }
        Stmt::Block(inside) => {
            text.extend_from_slice(b"{\n")?;
            push_body(alloc, text, level, inside.as_slice())?;
            push_end(text, level)
        }
        Stmt::Call(target, name, arguments) => {
            push_target(text, target)?;
            push_call(alloc, text, name, arguments.as_slice())
        }
        Stmt::Spawn(target, name, arguments) => push_spawn(alloc, text, target, name, arguments),
        Stmt::Add(target, name, index, addend) => {
            push_target(text, target)?;
            push_addition(alloc, text, name, index, addend)
        }
        Stmt::Sync => text.extend_from_slice(b"sync;\n"),
        Stmt::Return(value) => push_return(alloc, text, value),
    }
}

/// Appends what stands behind the lines of an `if`: an `else` where it has statements, and the last line.
#[cycle(statement)]
fn push_else(
    alloc: Global,
    text: &mut Vec<u8>,
    level: usize,
    otherwise: &[Stmt],
) -> Result<(), AllocError>
    ensures { OnOk result (text.new.items ≡ text.old.items ++ else_lines level (map statement_lines otherwise.now)) }
{
    if !otherwise.is_empty() {
        push_indent(text, level)?;
        text.extend_from_slice(b"} else {\n")?;
        push_body(alloc, text, level, otherwise)?;
    }
    push_end(text, level)
}

/// Appends the line of the brace that closes a body.
fn push_end(text: &mut Vec<u8>, level: usize) -> Result<(), AllocError>
    ensures { OnOk result (text.new.items ≡ text.old.items ++ line level (codes "}")) }
{
    push_indent(text, level)?;
    text.extend_from_slice(b"}\n")
}

/// Appends two blanks for each level.
fn push_indent(text: &mut Vec<u8>, level: usize) -> Result<(), AllocError>
    ensures { OnOk result (text.new.items ≡ text.old.items ++ replicate (2 * level) 32) }
{
    for _ in 0..level {
        text.extend_from_slice(b"  ")?;
    }
    Ok(())
}

fn push_declaration(text: &mut Vec<u8>, name: &Name) -> Result<(), AllocError>
    ensures { OnOk result (text.new.items ≡ text.old.items ++ (codes "int " ++ name.now ++ codes ";" ++ 10 ∷ [])) }
{
    text.extend_from_slice(b"int ")?;
    text.extend_from_slice(name.items())?;
    text.extend_from_slice(b";\n")
}

fn push_assignment(
    alloc: Global,
    text: &mut Vec<u8>,
    name: &Name,
    value: &Expr,
) -> Result<(), AllocError>
    ensures { OnOk result (text.new.items ≡ text.old.items ++ (name.now ++ codes " = " ++ expr_text value.now ++ codes ";" ++ 10 ∷ [])) }
{
    text.extend_from_slice(name.items())?;
    text.extend_from_slice(b" = ")?;
    push_expression(alloc, text, value)?;
    text.extend_from_slice(b";\n")
}

fn push_store(
    alloc: Global,
    text: &mut Vec<u8>,
    name: &Name,
    index: &Expr,
    value: &Expr,
) -> Result<(), AllocError>
    ensures { OnOk result (text.new.items ≡ text.old.items ++ (name.now ++ codes "[" ++ expr_text index.now ++ codes "] = " ++ expr_text value.now ++ codes ";" ++ 10 ∷ [])) }
{
    text.extend_from_slice(name.items())?;
    text.extend_from_slice(b"[")?;
    push_expression(alloc, text, index)?;
    text.extend_from_slice(b"] = ")?;
    push_expression(alloc, text, value)?;
    text.extend_from_slice(b";\n")
}

fn push_print(alloc: Global, text: &mut Vec<u8>, value: &Expr) -> Result<(), AllocError>
    ensures { OnOk result (text.new.items ≡ text.old.items ++ (codes "print(" ++ expr_text value.now ++ codes ");" ++ 10 ∷ [])) }
{
    text.extend_from_slice(b"print(")?;
    push_expression(alloc, text, value)?;
    text.extend_from_slice(b");\n")
}

/// Appends the rest of the line that begins a body: the word, and the condition in its parentheses.
fn push_condition(
    alloc: Global,
    text: &mut Vec<u8>,
    word: &[u8],
    condition: &Expr,
) -> Result<(), AllocError>
    ensures { OnOk result (text.new.items ≡ text.old.items ++ (word.now ++ codes " (" ++ expr_text condition.now ++ codes ") {" ++ 10 ∷ [])) }
{
    text.extend_from_slice(word)?;
    text.extend_from_slice(b" (")?;
    push_expression(alloc, text, condition)?;
    text.extend_from_slice(b") {\n")
}

fn push_target(text: &mut Vec<u8>, target: &Option<Name>) -> Result<(), AllocError>
    ensures { OnOk result (text.new.items ≡ text.old.items ++ target_text target.now) }
{
    let Some(name) = target else {
        return Ok(());
    };
    text.extend_from_slice(name.items())?;
    text.extend_from_slice(b" = ")
}

fn push_spawn(
    alloc: Global,
    text: &mut Vec<u8>,
    target: &Option<Name>,
    name: &Name,
    arguments: &Items<Expr>,
) -> Result<(), AllocError>
    ensures { OnOk result (text.new.items ≡ text.old.items ++ (target_text target.now ++ codes "spawn " ++ call_text name.now arguments.now ++ 10 ∷ [])) }
{
    push_target(text, target)?;
    text.extend_from_slice(b"spawn ")?;
    push_call(alloc, text, name, arguments.as_slice())
}

fn push_call(
    alloc: Global,
    text: &mut Vec<u8>,
    name: &Name,
    arguments: &[Expr],
) -> Result<(), AllocError>
    ensures { OnOk result (text.new.items ≡ text.old.items ++ (call_text name.now arguments.now ++ 10 ∷ [])) }
{
    text.extend_from_slice(name.items())?;
    text.extend_from_slice(b"(")?;
    push_arguments(alloc, text, arguments)?;
    text.extend_from_slice(b");\n")
}

fn push_arguments(alloc: Global, text: &mut Vec<u8>, arguments: &[Expr]) -> Result<(), AllocError>
    ensures { OnOk result (text.new.items ≡ text.old.items ++ listed (map expr_text arguments.now)) }
{
    let Some((first, others)) = arguments.split_first() else {
        return Ok(());
    };
    push_expression(alloc, text, first)?;
    for argument in others {
        text.extend_from_slice(b", ")?;
        push_expression(alloc, text, argument)?;
    }
    Ok(())
}

fn push_addition(
    alloc: Global,
    text: &mut Vec<u8>,
    name: &Name,
    index: &Expr,
    addend: &Expr,
) -> Result<(), AllocError>
    ensures { OnOk result (text.new.items ≡ text.old.items ++ (addition_text name.now index.now addend.now ++ 10 ∷ [])) }
{
    text.extend_from_slice(b"fetch_add(")?;
    text.extend_from_slice(name.items())?;
    text.extend_from_slice(b"[")?;
    push_expression(alloc, text, index)?;
    text.extend_from_slice(b"], ")?;
    push_expression(alloc, text, addend)?;
    text.extend_from_slice(b");\n")
}

fn push_return(alloc: Global, text: &mut Vec<u8>, value: &Option<Expr>) -> Result<(), AllocError>
    ensures { OnOk result (text.new.items ≡ text.old.items ++ (return_text value.now ++ 10 ∷ [])) }
{
    let Some(value) = value else {
        return text.extend_from_slice(b"return;\n");
    };
    text.extend_from_slice(b"return ")?;
    push_expression(alloc, text, value)?;
    text.extend_from_slice(b";\n")
}
