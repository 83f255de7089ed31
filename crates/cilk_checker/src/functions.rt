ghost use Rattle.cilk_checker.specs.Judged.{first_refusal, first_use, judged_function, judged_functions, Tells};
ghost use Rattle.cilk_checker.specs.Names.{value_at};
ghost use Rattle.cilk_checker.specs.Sound.{largest_checked};
ghost use Rattle.cilk_checker.specs.Tables.{IsComplete};
ghost use Rattle.cilk_tree.specs.declared.place.CheckPlace.TheVariants.{Statement};
ghost use Rattle.cilk_tree.specs.Lawful.Flow.{flow_of};
ghost use Rattle.cilk_tree.specs.Lawful.Pending.{none};
ghost use Rattle.cilk_checker.specs.Computed.{uses_pending};
ghost use Rattle.cilk_tree.specs.Lawful.Rules.{is_among, repeats};
ghost use Rattle.cilk_tree.specs.Lawful.Scope.{entry, is_global};
ghost use Rattle.std.specs.List.{list_any};
ghost use Rattle.std.specs.Option.{option_map, option_or};
ghost use Rattle.std.specs.Prelude.{◌≡◌, ◌≤◌, ◌||◌, [], false, is_some, length, map, take, slice_get, IfErr, IfOk, OnOk};

use crate::around::Around;
use crate::globals::Globals;
use crate::locals::Locals;
use crate::name_map::NameMap;
use crate::pending::Pending;
use crate::refusal::CheckRefusal;
use crate::syncs::find_use;
use crate::walk::check_list;
use cilk_tree::{CheckPlace, Name, Rule};
use std::alloc::{AllocError, Global};

/// Checks the program's functions. Where they break no other rule, the answer is the first place where a local is used
/// that a spawn may still set.
pub(crate) fn check_functions(
    alloc: Global,
    globals: &Globals,
) -> Result<Option<CheckPlace>, CheckRefusal>
    requires complete { IsComplete globals.now }
    requires few { length globals.now.program.now.functions ≤ largest_checked }
    ensures ok { OnOk result (first_refusal (judged_functions globals.now.program.now 0 globals.now.program.now.functions) ≡ None) }
    ensures found { IfOk result (λ found. found ≡ first_use 0 globals.now.program.now.functions) }
    ensures err { IfErr result (λ refusal. Tells (first_refusal (judged_functions globals.now.program.now 0 globals.now.program.now.functions)) refusal) }
{
    let mut earlier = NameMap::new(alloc);
    let mut first = None;
    for (index, function) in globals.program.functions.as_slice().iter().enumerate() {
        let number = index as u32;
        let around = Around {
            globals,
            function,
            number,
        };
        let is_taken = is_taken(globals, &earlier, &function.name);
        let found = check_function(alloc, around, is_taken)?;
        first = earlier_place(first, number, found);
        earlier.insert(function.name.items(), ())?;
    }
    Ok(first)
}

/// Whether an array has the name, or one of the earlier functions.
fn is_taken(globals: &Globals, earlier: &NameMap<()>, name: &Name) -> bool
    requires { IsComplete globals.now }
    ensures { result ≡ (is_among (map (λ array. array.name) globals.now.program.now.shared) name.now || is_some (value_at earlier.now.values name.now)) }
{
    globals.meaning(name).is_array() || earlier.get(name.items()).is_some()
}

fn earlier_place(first: Option<CheckPlace>, number: u32, found: Option<u32>) -> Option<CheckPlace>
    ensures { result ≡ option_or first (option_map (Statement number) found) }
{
    match (first, found) {
        (None, Some(statement)) => Some(CheckPlace::Statement(number, statement)),
        _ => first,
    }
}

/// Checks a function, of which it is known whether its name is taken, and its statements. The answer is the first
/// statement that uses a local that a spawn may still set.
fn check_function(
    alloc: Global,
    around: Around,
    is_taken: bool,
) -> Result<Option<u32>, CheckRefusal>
    requires complete { IsComplete around.globals.now }
    requires taken { is_taken ≡ (is_among (map (λ array. array.name) around.globals.now.program.now.shared) around.function.now.name || is_among (map (λ other. other.name) (take around.number around.globals.now.program.now.functions)) around.function.now.name) }
    ensures ok { OnOk result (first_refusal (judged_function around.entry.globals.now.program.now around.entry.number around.entry.function.now) ≡ None) }
    ensures found { IfOk result (λ found. found ≡ slice_get (uses_pending (flow_of around.entry.function.now) none) 0) }
    ensures err { IfErr result (λ refusal. Tells (first_refusal (judged_function around.entry.globals.now.program.now around.entry.number around.entry.function.now)) refusal) }
{
    let mut locals = Locals::new(alloc);
    if is_taken || declare_parameters(around, &mut locals)? {
        let place = CheckPlace::Function(around.number);
        return Err(CheckRefusal::At {
            kind: Rule::DuplicateName.number(),
            place,
        });
    }
    let paths = check_list(alloc, around, &mut locals, around.function.body.as_slice())?;
    let mut pending = Pending::new(alloc);
    let found = find_use(alloc, paths.as_slice(), &mut pending)?;
    Ok(found)
}

/// Brings the parameters into scope, and says whether the name of one of them is taken.
fn declare_parameters<'a>(
    around: Around<'_, 'a>,
    locals: &mut Locals<'a>,
) -> Result<bool, AllocError>
    requires complete { IsComplete around.globals.now }
    requires start { locals.old ≡ record { statement = 0; local = 0; scope = [] } }
    ensures again { IfOk result (λ again. again ≡ (list_any (is_global around.entry.globals.now.program.now) around.entry.function.now.params || repeats around.entry.function.now.params)) }
    ensures entry { IfOk result (λ again. again ≡ false → locals.new ≡ entry around.entry.function.now) }
{
    for parameter in around.function.params.as_slice() {
        if around.globals.meaning(parameter).is_known()
            || locals.number(parameter.items()).is_some()
        {
            return Ok(true);
        }
        locals.declare(parameter.items())?;
    }
    Ok(false)
}
