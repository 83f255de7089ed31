ghost use Rattle.cilk_checker.specs.Courses.{after_effect, step_course, flow_course};
ghost use Rattle.cilk_checker.specs.Seeing.{IsSumOf};
ghost use Rattle.cilk_tree.specs.declared.tree.Stmt.{out-Stmt};
ghost use Rattle.cilk_tree.specs.Lawful.Flow.{At, head_of};
ghost use Rattle.cilk_tree.specs.Lawful.Pending.{with_local, after_head, touched};
ghost use Rattle.cilk_tree.specs.Lawful.Scope.{local_named};
ghost use Rattle.std.specs.Prelude.{◌≡◌, IfOk, option_and_then};

use crate::pending::Pending;
use crate::uses::{InScope, Uses};
use cilk_tree::{Name, Stmt};
use sqlite_items::Items;
use std::alloc::{AllocError, Global};

/// A statement as far as pending locals go, with the paths through the statements that it holds.
#[derive(Debug, Drop)]
pub(crate) enum Path {
    Alone(Step),
    Block(Step, Items<Path>),
    /// one of two lists
    Either(Step, Items<Path>, Items<Path>),
    /// a list that may be run any number of times, and the locals that a turn leaves pending
    Loop(Step, Items<Path>, Pending),
}

/// What a statement itself does with pending locals.
#[derive(Debug, Drop)]
pub(crate) struct Step {
    /// its number in the function
    pub(crate) statement: u32,
    /// the locals that may not be pending there, by their numbers
    pub(crate) touched: Items<usize>,
    pub(crate) effect: Effect,
}

/// How a statement changes the set of pending locals.
#[derive(Clone, Copy, Debug)]
pub(crate) enum Effect {
    Keeps,
    Adds(usize),
    Empties,
}

impl Step {
    /// That of the statement, where `uses` is what its names stand for.
    pub(crate) fn of(
        alloc: Global,
        names: InScope,
        statement: &Stmt,
        uses: Uses,
    ) -> Result<Step, AllocError>
        requires { IsSumOf uses names (head_of (out-Stmt statement.now)) }
        ensures { IfOk result (λ step. step_course step ≡ flow_course (At (record { point = names.entry.locals.now; head = head_of (out-Stmt statement.now) }))) }
    {
        Ok(Step {
            statement: names.locals.statement(),
            touched: touched_by(alloc, names, statement, uses)?,
            effect: effect_of(names, statement),
        })
    }
}

/// The locals that the statement declares, sets or reads while a spawn may still set them.
fn touched_by(
    alloc: Global,
    names: InScope,
    statement: &Stmt,
    uses: Uses,
) -> Result<Items<usize>, AllocError>
    requires { IsSumOf uses names (head_of (out-Stmt statement.now)) }
    ensures { IfOk result (λ locals. locals ≡ touched names.entry.locals.now (head_of (out-Stmt statement.now))) }
{
    let mut touched = Items::new(alloc);
    match statement {
        Stmt::Declare(_) => touched.push(names.locals.next_local())?,
        Stmt::Return(_) => {}
        _ => touched.append(uses.touched)?,
    }
    Ok(touched)
}

fn effect_of(names: InScope, statement: &Stmt) -> Effect
    ensures { after_effect result ≡ after_head names.entry.locals.now.scope (head_of (out-Stmt statement.now)) }
{
    match statement {
        Stmt::Spawn(target, _, _) => spawn_effect(names, target),
        Stmt::Sync | Stmt::Return(_) => Effect::Empties,
        _ => Effect::Keeps,
    }
}

fn spawn_effect(names: InScope, target: &Option<Name>) -> Effect
    ensures { after_effect result ≡ with_local (option_and_then (local_named names.entry.locals.now.scope) target.now) }
{
    let Some(name) = target else {
        return Effect::Keeps;
    };
    match names.locals.number(name.items()) {
        Some(number) => Effect::Adds(number),
        None => Effect::Keeps,
    }
}
