ghost use Rattle.cilk_checker.specs.Courses.{path_course, in_row, step_course};
ghost use Rattle.cilk_checker.specs.Judged.{first_refusal, judged_sites, Passes, Tells};
ghost use Rattle.cilk_checker.specs.Tables.{IsComplete};
ghost use Rattle.cilk_tree.specs.declared.tree.Stmt.{out-Stmt};
ghost use Rattle.cilk_tree.specs.Lawful.Flow.{At, after_list, head_of, in_order, part_of};
ghost use Rattle.std.specs.Prelude.{◌≡◌, map, IfErr, IfOk, OnOk};

use crate::around::Around;
use crate::locals::Locals;
use crate::path::{Path, Step};
use crate::refusal::CheckRefusal;
use crate::rules::least_rule;
use crate::syncs::added_by;
use crate::uses::{InScope, Uses};
use cilk_tree::{CheckPlace, Stmt};
use sqlite_items::Items;
use std::alloc::Global;

/// Goes through a list of statements, and gives the paths through them. Refused is the first statement that breaks a
/// rule. What the list declares is out of scope behind it.
#[cycle(statement)]
pub(crate) fn check_list<'a>(
    alloc: Global,
    around: Around<'_, 'a>,
    locals: &mut Locals<'a>,
    list: &'a [Stmt],
) -> Result<Items<Path>, CheckRefusal>
    requires { IsComplete around.globals.now }
    ensures ok { IfOk result (λ paths. Passes around.entry (in_order (map part_of list.now) locals.old) (in_row (map path_course paths))) }
    ensures point { OnOk result (locals.new ≡ after_list (map part_of list.now) locals.old) }
    ensures err { IfErr result (λ refusal. Tells (first_refusal (judged_sites around.entry (in_order (map part_of list.now) locals.old))) refusal) }
{
    let depth = locals.depth();
    let mut paths = Items::new(alloc);
    for statement in list {
        let path = check_statement(alloc, around, locals, statement)?;
        paths.push(path)?;
    }
    locals.leave(depth);
    Ok(paths)
}

/// Judges the statement and those that it holds, and gives the path through it.
#[cycle(statement)]
fn check_statement<'a>(
    alloc: Global,
    around: Around<'_, 'a>,
    locals: &mut Locals<'a>,
    statement: &'a Stmt,
) -> Result<Path, CheckRefusal>
    requires { IsComplete around.globals.now }
    ensures ok { IfOk result (λ path. Passes around.entry ((part_of statement.now).flow locals.old) (path_course path)) }
    ensures point { OnOk result (locals.new ≡ (part_of statement.now).after locals.old) }
    ensures err { IfErr result (λ refusal. Tells (first_refusal (judged_sites around.entry ((part_of statement.now).flow locals.old))) refusal) }
{
    let step = check_head(alloc, around, locals, statement)?;
    locals.advance()?;
    match statement {
        Stmt::Declare(name) => {
            locals.declare(name.items())?;
            Ok(Path::Alone(step))
        }
        Stmt::If(_, met, unmet) => {
            let met = check_list(alloc, around, locals, met.as_slice())?;
            let unmet = check_list(alloc, around, locals, unmet.as_slice())?;
            Ok(Path::Either(step, met, unmet))
        }
        Stmt::While(_, body) => {
            let body = check_list(alloc, around, locals, body.as_slice())?;
            let added = added_by(alloc, &step, body.as_slice())?;
            Ok(Path::Loop(step, body, added))
        }
        Stmt::Block(inside) => {
            let inside = check_list(alloc, around, locals, inside.as_slice())?;
            Ok(Path::Block(step, inside))
        }
        _ => Ok(Path::Alone(step)),
    }
}

/// Judges the statement itself.
fn check_head<'s, 'a>(
    alloc: Global,
    around: Around<'s, 'a>,
    locals: &'s Locals<'a>,
    statement: &Stmt,
) -> Result<Step, CheckRefusal>
    requires { IsComplete around.globals.now }
    ensures ok { IfOk result (λ step. Passes around.entry (At (record { point = locals.now; head = head_of (out-Stmt statement.now) })) (step_course step)) }
    ensures err { IfErr result (λ refusal. Tells (first_refusal (judged_sites around.entry (At (record { point = locals.now; head = head_of (out-Stmt statement.now) })))) refusal) }
{
    let names = InScope {
        globals: around.globals,
        locals,
    };
    let uses = Uses::of(alloc, names, statement)?;
    if let Some(rule) = least_rule(around.function, names, statement, &uses) {
        let kind = rule.number();
        let place = CheckPlace::Statement(around.number, locals.statement());
        return Err(CheckRefusal::At { kind, place });
    }
    let step = Step::of(alloc, names, statement, uses)?;
    Ok(step)
}
