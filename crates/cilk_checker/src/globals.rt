ghost use Rattle.cilk_checker.specs.Judged.{first_refusal, judged_arrays, Tells};
ghost use Rattle.cilk_checker.specs.Meanings.{seen, entry_meaning, global_meaning};
ghost use Rattle.cilk_checker.specs.Names.{value_at};
ghost use Rattle.cilk_checker.specs.Sound.{largest_checked};
ghost use Rattle.cilk_checker.specs.Tables.{IsComplete};
ghost use Rattle.cilk_tree.specs.Lawful.Scope.{meaning};
ghost use Rattle.std.specs.Prelude.{◌≡◌, ◌≤◌, ℕ, List, [], codes, None, IfOk, IfErr, OnOk, length, MatchResult};

use crate::meaning::Meaning;
use crate::name_map::NameMap;
use crate::refusal::CheckRefusal;
use cilk_tree::{CheckPlace, Function, Name, Program, Rule, Shared};
use std::alloc::{AllocError, Global};

/// How many words the arrays of a program have together at most.
const MOST_WORDS: u64 = 1 << 22;

/// The arrays and functions of a program, by their names. Of several that share a name the first one has it, and
/// arrays stand before functions.
#[derive(Drop)]
pub(crate) struct Globals<'a> {
    pub(crate) program: &'a Program,
    names: NameMap<'a, Meaning<'a>>,
}

impl<'a> Globals<'a> {
    /// What the name stands for where no parameter or local has it.
    pub(crate) fn meaning(&self, name: &Name) -> Meaning<'a>
        requires { IsComplete self.now }
        ensures { seen result ≡ meaning self.now.program.now [] name.now }
    {
        global_named(&self.names, name)
    }

    /// What the name `main` stands for.
    pub(crate) fn main(&self) -> Meaning<'a>
        requires { IsComplete self.now }
        ensures { seen result ≡ meaning self.now.program.now [] (codes "main") }
    {
        self.names.get(b"main").unwrap_or(Meaning::Unknown)
    }
}

/// Collects the program's arrays and functions. Refused are arrays that share a name, and too many words.
pub(crate) fn collect_globals<'a>(
    alloc: Global,
    program: &'a Program,
) -> Result<Globals<'a>, CheckRefusal>
    requires { length program.now.shared ≤ largest_checked }
    ensures complete { IfOk result (λ globals. IsComplete globals) }
    ensures of { IfOk result (λ globals. globals.program.now ≡ program.now) }
    ensures ok { OnOk result (first_refusal (judged_arrays program.now 0 program.now.shared) ≡ None) }
    ensures err { IfErr result (λ refusal. Tells (first_refusal (judged_arrays program.now 0 program.now.shared)) refusal) }
{
    let mut names = NameMap::new(alloc);
    add_arrays(&mut names, program)?;
    add_functions(&mut names, program)?;
    Ok(Globals { program, names })
}

fn global_named<'a>(names: &NameMap<'a, Meaning<'a>>, name: &Name) -> Meaning<'a>
    ensures { seen result ≡ entry_meaning (value_at names.now.values name.now) }
{
    names.get(name.items()).unwrap_or(Meaning::Unknown)
}

fn add_arrays<'a>(
    names: &mut NameMap<'a, Meaning<'a>>,
    program: &'a Program,
) -> Result<(), CheckRefusal>
    requires empty { (name : List ℕ) → value_at names.old.values name ≡ None }
    requires few { length program.now.shared ≤ largest_checked }
    ensures names { OnOk result ((name : List ℕ) → entry_meaning (value_at names.new.values name) ≡ global_meaning program.now.shared [] name) }
    ensures answer { MatchResult result (λ _. first_refusal (judged_arrays program.now 0 program.now.shared) ≡ None) (λ refusal. Tells (first_refusal (judged_arrays program.now 0 program.now.shared)) refusal) }
{
    let mut words = 0;
    for (number, array) in program.shared.as_slice().iter().enumerate() {
        let place = CheckPlace::Shared(number as u32);
        if global_named(names, &array.name).is_known() {
            return Err(CheckRefusal::At {
                kind: Rule::DuplicateName.number(),
                place,
            });
        }
        if array.words > MOST_WORDS - words {
            return Err(CheckRefusal::At {
                kind: Rule::TooManyWords.number(),
                place,
            });
        }
        words += array.words;
        names.insert(array.name.items(), Meaning::Array)?;
    }
    Ok(())
}

fn add_functions<'a>(
    names: &mut NameMap<'a, Meaning<'a>>,
    program: &'a Program,
) -> Result<(), AllocError>
    requires { (name : List ℕ) → entry_meaning (value_at names.old.values name) ≡ global_meaning program.now.shared [] name }
    ensures { OnOk result ((name : List ℕ) → entry_meaning (value_at names.new.values name) ≡ global_meaning program.now.shared program.now.functions name) }
{
    for function in program.functions.as_slice() {
        if !global_named(names, &function.name).is_known() {
            names.insert(function.name.items(), Meaning::Procedure(function))?;
        }
    }
    Ok(())
}
