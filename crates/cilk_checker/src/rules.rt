ghost use Rattle.cilk_checker.specs.Kinds.{call_kind, shape_kind, spawn_kind};
ghost use Rattle.cilk_checker.specs.Meanings.{seen};
ghost use Rattle.cilk_checker.specs.Seeing.{IsSumOf};
ghost use Rattle.cilk_checker.specs.Tables.{IsComplete};
ghost use Rattle.cilk_tree.specs.declared.tree.Stmt.{out-Stmt};
ghost use Rattle.cilk_tree.specs.Lawful.Flow.{head_of};
ghost use Rattle.cilk_tree.specs.Lawful.Rules.{statement_kinds};
ghost use Rattle.cilk_tree.specs.Rule.{rule_number};
ghost use Rattle.std.specs.Prelude.{◌≡◌, option_map, slice_get};

use crate::meaning::Meaning;
use crate::uses::{InScope, Uses};
use cilk_tree::{Expr, Function, Name, Rule, Stmt};

/// The rule of the least number that the statement itself breaks. `uses` is what its names stand for.
pub(crate) fn least_rule(
    function: &Function,
    names: InScope,
    statement: &Stmt,
    uses: &Uses,
) -> Option<Rule>
    requires complete { IsComplete names.globals.now }
    requires uses { IsSumOf uses.now names (head_of (out-Stmt statement.now)) }
    ensures { option_map rule_number result ≡ slice_get (statement_kinds names.entry.globals.now.program.now function.now (record { point = names.entry.locals.now; head = head_of (out-Stmt statement.now) })) 0 }
{
    // A declaration, which alone may break the rule before these, uses no name.
    if uses.unknown {
        return Some(Rule::UnknownName);
    }
    if uses.wrong {
        return Some(Rule::WrongKind);
    }
    match statement {
        Stmt::Declare(name) if names.meaning(name).is_known() => Some(Rule::DuplicateName),
        Stmt::Call(target, name, arguments) => {
            call_kind(names.meaning(name), target, arguments.as_slice())
        }
        Stmt::Spawn(target, name, arguments) => {
            spawn_kind(function, names.meaning(name), target, arguments.as_slice())
        }
        Stmt::Sync if !function.cilk => Some(Rule::SpawnInPlain),
        Stmt::Return(Some(_)) if !function.gives => Some(Rule::NoValue),
        _ => None,
    }
}

/// The rule of the least number that a call breaks whose names stand for what they have to.
fn call_kind(callee: Meaning, target: &Option<Name>, arguments: &[Expr]) -> Option<Rule>
    ensures { result ≡ call_kind (seen callee.entry) target.now arguments.now }
{
    let Meaning::Procedure(callee) = callee else {
        return None;
    };
    match shape_kind(callee, target, arguments) {
        None if callee.cilk => Some(Rule::CallOfCilk),
        broken => broken,
    }
}

/// The rule of the least number that a spawn in this function breaks whose names stand for what they have to.
fn spawn_kind(
    function: &Function,
    callee: Meaning,
    target: &Option<Name>,
    arguments: &[Expr],
) -> Option<Rule>
    ensures { result ≡ spawn_kind function.now (seen callee.entry) target.now arguments.now }
{
    let in_plain = if function.cilk {
        None
    } else {
        Some(Rule::SpawnInPlain)
    };
    let Meaning::Procedure(callee) = callee else {
        return in_plain;
    };
    match shape_kind(callee, target, arguments).or(in_plain) {
        None if !callee.cilk => Some(Rule::SpawnOfPlain),
        broken => broken,
    }
}

/// The rule that is broken where a call or spawn does not fit what the function takes and gives.
fn shape_kind(callee: &Function, target: &Option<Name>, arguments: &[Expr]) -> Option<Rule>
    ensures { result ≡ shape_kind callee.now target.now arguments.now }
{
    if callee.params.len() != arguments.len() {
        return Some(Rule::WrongArity);
    }
    if target.is_some() && !callee.gives {
        return Some(Rule::NoValue);
    }
    None
}
