ghost use Rattle.std.specs.Prelude.{◌≡◌, ◌<◌, ◌≤◌, ℕ, ℤ, List, IfOk, OnOk};
ghost use Rattle.machine_code.specs.Machine.{wants};
ghost use Rattle.machine_code.specs.StandsFor.{start_words_of};
ghost use Rattle.machine_rows.specs.Running.{IsRunOf, RunsOn};
ghost use Rattle.machine_rows.specs.Saying.{gets};
ghost use Rattle.plain_machine.specs.Standing.{StandsIn};

use super::code::code;
use machine_code::Code;
use outside::Words;
use plain_machine::{Answer, Frame, Want, has_run_stands};
use std::alloc::Global;
use std::process::Abort;
use std::test::Fail;

// A procedure, its arguments, what it wants first and how that is answered, and what it wants then.
pub(crate) type Row = (u32, &'static [i64], &'static [(Want, Answer)], Want);

pub(crate) fn assert_each(rt: &impl Abort, alloc: Global, rows: &[Row]) -> Result<(), Fail> {
    let code = code(alloc)?;
    for &(proc, args, script, want) in rows {
        assert_row(rt, alloc, &code, proc, args, script, want)?;
    }
    Ok(())
}

fn assert_row(
    rt: &impl Abort,
    alloc: Global,
    code: &Code,
    proc: u32,
    args: &[i64],
    script: &[(Want, Answer)],
    want: Want,
) -> Result<(), Fail> {
    let mut frame = started(alloc, code, proc, args, 0)?;
    play(rt, code, &mut frame, script)?;
    assert_wants(rt, code, &mut frame, want);
    Ok(())
}

// What is wanted by an instance that is so deep, where so many plain calls are open in it.
pub(crate) fn assert_deep(
    rt: &impl Abort,
    alloc: Global,
    code: &Code,
    proc: u32,
    depth: u32,
    calls: u32,
    want: Want,
) -> Result<(), Fail> {
    let mut frame = started(alloc, code, proc, &[], depth)?;
    open(rt, code, &mut frame, calls)?;
    assert_wants(rt, code, &mut frame, want);
    Ok(())
}

// The procedure wants this spawn first, whose child has these arguments, which the frame gives until it is answered.
pub(crate) fn assert_gives(
    rt: &impl Abort,
    alloc: Global,
    code: &Code,
    proc: u32,
    args: &[i64],
    spawn: Want,
    given: &[i64],
) -> Result<(), Fail> {
    let mut frame = started(alloc, code, proc, args, 0)?;
    assert_wants(rt, code, &mut frame, spawn);
    assert_eq!(rt; frame.args(), given);
    play(rt, code, &mut frame, &[(spawn, Answer::Done)])?;
    assert_eq!(rt; frame.args().len(), 0);
    Ok(())
}

// The procedure is played up to a place where a child's value comes for its local 0, and from there on, and returns 0.
pub(crate) fn assert_early(
    rt: &impl Abort,
    alloc: Global,
    code: &Code,
    proc: u32,
    before: &[(Want, Answer)],
    value: i64,
    behind: &[(Want, Answer)],
) -> Result<(), Fail> {
    let mut frame = started(alloc, code, proc, &[], 0)?;
    play(rt, code, &mut frame, before)?;
    deposit(code, proc, &mut frame, 0, value)?;
    play(rt, code, &mut frame, behind)?;
    assert_wants(rt, code, &mut frame, Want::Return { value: 0 });
    Ok(())
}

// The procedure reads this word, which starts with this value.
pub(crate) fn assert_started(
    rt: &impl Abort,
    alloc: Global,
    code: &Code,
    proc: u32,
    index: i64,
    word: u32,
    value: i64,
) -> Result<(), Fail> {
    let read = (Want::Read { word }, Answer::Value(start_word(code, word)));
    assert_row(
        rt,
        alloc,
        code,
        proc,
        &[index],
        &[read],
        Want::Return { value },
    )
}

// A frame at the start of a procedure.
fn started(alloc: Global, code: &Code, proc: u32, args: &[i64], depth: u32) -> Result<Frame, Fail>
    ensures stands { IfOk result (λ f. StandsIn code.now f.frame) }
    ensures runs { IfOk result (λ f. IsRunOf code.now depth proc args.now f.frame) }
{
    if proc as usize >= code.procs.len() {
        return Err("no such procedure")?;
    }
    if args.len() != code.proc(proc).params as usize {
        return Err("another number of arguments")?;
    }
    if depth > 4096 {
        return Err("too deep")?;
    }
    Ok(Frame::start(alloc, code, proc, args, depth)?)
}

// The frame wants these, one after another, and is answered. It is asked twice for each.
fn play(
    rt: &impl Abort,
    code: &Code,
    frame: &mut Frame,
    script: &[(Want, Answer)],
) -> Result<(), Fail>
    requires { StandsIn code.now frame.old.frame }
    ensures stands { OnOk result (StandsIn code.now frame.new.frame) }
    ensures runs { OnOk result (RunsOn code.now frame.old.frame frame.new.frame) }
{
    for &(want, answer) in script {
        serve(rt, code, frame, want, answer)?;
    }
    Ok(())
}

// The frame wants so many plain calls, and makes them.
fn open(rt: &impl Abort, code: &Code, frame: &mut Frame, calls: u32) -> Result<(), Fail>
    requires { StandsIn code.now frame.old.frame }
    ensures { OnOk result (StandsIn code.now frame.new.frame) }
{
    for _ in 0..calls {
        serve(rt, code, frame, Want::Call, Answer::Done)?;
    }
    Ok(())
}

fn serve(
    rt: &impl Abort,
    code: &Code,
    frame: &mut Frame,
    want: Want,
    answer: Answer,
) -> Result<(), Fail>
    requires { StandsIn code.now frame.old.frame }
    ensures stands { OnOk result (StandsIn code.now frame.new.frame) }
    ensures runs { OnOk result (RunsOn code.now frame.old.frame frame.new.frame) }
{
    let said = frame.want(code);
    assert_eq!(rt; said, want);
    assert_wants(rt, code, frame, want);
    if !gets(said, answer) {
        return Err("no answer to this want")?;
    }
    frame.answer(code, answer)?;
    Ok(())
}

// The frame wants this next.
fn assert_wants(rt: &impl Abort, code: &Code, frame: &mut Frame, want: Want)
    requires { StandsIn code.now frame.old.frame }
    ensures same { wants code.now frame.new.frame ≡ wants code.now frame.old.frame }
    ensures stands { StandsIn code.now frame.new.frame }
    ensures runs { RunsOn code.now frame.old.frame frame.new.frame }
{
    assert_eq!(rt; frame.want(code), want);
}

// Whether the want gets such an answer.
fn gets(want: Want, answer: Answer) -> bool
    ensures { result ≡ gets want answer }
{
    match (want, answer) {
        (Want::Read { .. } | Want::Add { .. }, Answer::Value(_)) => true,
        (
            Want::Write { .. }
            | Want::Print { .. }
            | Want::Spawn { .. }
            | Want::Sync
            | Want::Call
            | Want::LoopTurn,
            Answer::Done,
        ) => true,
        _ => false,
    }
}

// Gives a child's value to a local of the frame's own function, which is this procedure.
fn deposit(code: &Code, proc: u32, frame: &mut Frame, target: u32, value: i64) -> Result<(), Fail>
    requires { (depth : ℕ) × (arguments : List ℤ) × IsRunOf code.now depth proc arguments frame.old.frame }
    ensures { OnOk result (StandsIn code.now frame.new.frame) }
{
    if proc as usize >= code.procs.len() {
        return Err("no such procedure")?;
    }
    if target >= code.proc(proc).locals {
        return Err("no such local")?;
    }
    has_run_stands();
    frame.deposit(target, value);
    Ok(())
}

// The code, where the words from `base` on start with these numbers.
pub(crate) fn with_input(mut code: Code, base: u32, numbers: Words) -> Result<Code, Fail> {
    if base as usize + numbers.items().len() > code.words() as usize {
        return Err("too many numbers")?;
    }
    code.set_input(base, numbers);
    Ok(code)
}

// With which value a shared word of the code starts.
fn start_word(code: &Code, word: u32) -> i64
    ensures { result ≡ start_words_of code.now word }
{
    if word < code.input_base {
        return 0;
    }
    match code.input.items().get((word - code.input_base) as usize) {
        Some(value) => *value,
        None => 0,
    }
}
