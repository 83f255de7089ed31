ghost use Rattle.cilk_checker.specs.Judged.{due, Tells};
ghost use Rattle.cilk_checker.specs.Sound.{IsRefusal, largest_checked};
ghost use Rattle.cilk_checker.specs.Tables.{IsComplete};
ghost use Rattle.cilk_tree.specs.Lawful.Lawful.{IsCheckRefusal, IsLawful};
ghost use Rattle.cilk_tree.specs.Lawful.Rules.{lacks_main};
ghost use Rattle.cilk_tree.specs.Size.{program_size};
ghost use Rattle.cilk_tree.specs.Writable.{IsWritable};
ghost use Rattle.std.specs.Prelude.{◌≡◌, ◌⊎◌, ◌≤◌, ℕ, None, IfErr, IfOk, IsErrAnd, MatchResult, OnOk};
ghost use Rattle.cilk_tree.specs.declared.place.CheckPlace.{CheckPlace};

use crate::functions::check_functions;
use crate::globals::{Globals, collect_globals};
use crate::meaning::Meaning;
use crate::refusal::CheckRefusal;
use cilk_tree::{CheckPlace, Program, Rule};
use std::alloc::Global;
use std::marker::Model;

/// A lawful program. Contracts see the program.
#[derive(Debug, Drop)]
pub struct Checked {
    program: Program,
}

impl Model for Checked {
    ghost use Rattle.cilk_tree.specs.declared.tree.Program.{Program};

    ghost Value = { Program };

    ghost use Rattle.cilk_tree.specs.contracts.tree.Program as tree;

    ghost coded = { tree.the_row.coded };

    ghost use Rattle.cilk_checker.specs.Sound.{IsSound};

    ghost view = { λ checked. checked.program };

    ghost invariant = { λ checked. IsSound checked.program };
}

impl Checked {
    /// The program, which is lawful, has a text, and is no larger than the checker takes.
    pub fn program(&self) -> &Program
        ensures same { result.now ≡ self.now }
        ensures lawful { IsLawful self.now }
        ensures writable { IsWritable self.now }
        ensures small { program_size self.now ≤ largest_checked }
    {
        &self.program
    }
}

/// Accepts a lawful program, which has a text and at most 2,097,152 arrays, functions, statements and expressions
/// together. Another one is refused at the first place that breaks a rule, with the least kind there; where only the rule
/// on syncs is broken, at the first use of a local that a spawn may still set. A program that is refused is dropped.
pub fn check_program(alloc: Global, program: Program) -> Result<Checked, CheckRefusal>
    requires writable { IsWritable program }
    requires small { program_size program ≤ largest_checked }
    ensures lawful { IfOk result (λ checked. (checked ≡ program) × IsLawful program) }
    ensures accepted { IsLawful program → MatchResult result (λ checked. checked ≡ program) (λ refusal. refusal ≡ CheckRefusal.Memory) }
    ensures refused { IfErr result (IsRefusal program) }
    ensures exact { (kind : ℕ) (place : CheckPlace) → IsCheckRefusal program kind place → IsErrAnd result (λ refusal. (refusal ≡ CheckRefusal.At kind place) ⊎ (refusal ≡ CheckRefusal.Memory)) }
{
    check_rules(alloc, &program)?;
    Ok(Checked { program })
}

/// Judges the program by all rules.
fn check_rules(alloc: Global, program: &Program) -> Result<(), CheckRefusal>
    requires { program_size program.now ≤ largest_checked }
    ensures ok { OnOk result (due program.now ≡ None) }
    ensures err { IfErr result (λ refusal. Tells (due program.now) refusal) }
{
    let globals = collect_globals(alloc, program)?;
    let used = check_functions(alloc, &globals)?;
    if lacks_main(&globals) {
        let place = CheckPlace::Whole;
        return Err(CheckRefusal::At {
            kind: Rule::NoMain.number(),
            place,
        });
    }
    match used {
        Some(place) => Err(CheckRefusal::At {
            kind: Rule::UsedBeforeSync.number(),
            place,
        }),
        None => Ok(()),
    }
}

/// Whether the name `main` stands for no function, or for one with parameters.
fn lacks_main(globals: &Globals) -> bool
    requires { IsComplete globals.now }
    ensures { result ≡ lacks_main globals.now.program.now }
{
    match globals.main() {
        Meaning::Procedure(function) => function.params.len() != 0,
        _ => true,
    }
}
