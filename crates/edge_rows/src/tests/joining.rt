ghost use Rattle.std.specs.Prelude.{◌≡◌, ◌<◌, IfOk, OnOk, IsTrue};
ghost use Rattle.edge_rule.specs.Joins.{HasTargets, StandsThere, is_waiting};
ghost use Rattle.edge_rows.specs.Standing.{AllStand};
ghost use Rattle.plain_machine.specs.Standing.{StandsIn};

use super::closures::closure;
use super::code::code;
use edge_rule::Joins;
use machine_code::Code;
use page_messages::{Child, Closure, JoinId};
use plain_machine::{Answer, Frame, Want};
use std::alloc::Global;
use std::process::Abort;
use std::test::Fail;

// Takes what may move between threads, and nothing else.
fn may_move<T: Send>(_value: &T) {}

// What comes to a join of this number.
#[derive(Clone, Copy)]
enum Comes {
    Done(u32, u32, i64),
    Park(u32, &'static [Child]),
}

// What comes, and what the locals of the frame then are that is given back, if one is.
type Row = &'static [(Comes, Option<(i64, i64)>)];

const NODE: u32 = 3;

fn join_of(number: u32) -> JoinId
    ensures { result ≡ record { node = 3; number = number } }
{
    JoinId { node: NODE, number }
}

// Both joins of the node are started, and then this comes.
fn assert_row(rt: &impl Abort, alloc: Global, code: &Code, row: Row) -> Result<(), Fail> {
    let mut joins = none_started(alloc, code);
    start(rt, code, &mut joins, 0)?;
    start(rt, code, &mut joins, 1)?;
    for &(comes, shown) in row {
        let given = come(rt, alloc, code, &mut joins, comes)?;
        assert_shows(rt, code, given, shown)?;
    }
    Ok(())
}

// The joins of the node before any is started.
fn none_started(alloc: Global, code: &Code) -> Joins
    ensures { AllStand code.now result }
{
    Joins::new(alloc, NODE)
}

// The next join has this number.
fn start(rt: &impl Abort, code: &Code, joins: &mut Joins, number: u32) -> Result<(), Fail>
    requires number { number < 4294967295 }
    requires joins { AllStand code.now joins.old }
    ensures { OnOk result (AllStand code.now joins.new) }
{
    if joins.started() != number {
        return Err("another number was started")?;
    }
    assert_eq!(rt; joins.start()?, join_of(number));
    Ok(())
}

// The join is over where it gives a closure back.
fn come(
    rt: &impl Abort,
    alloc: Global,
    code: &Code,
    joins: &mut Joins,
    comes: Comes,
) -> Result<Option<Closure>, Fail>
    requires { AllStand code.now joins.old }
    ensures joins { OnOk result (AllStand code.now joins.new) }
    ensures given { IfOk result (StandsThere code.now) }
{
    let (join, given) = match comes {
        Comes::Done(number, index, value) => {
            (
                join_of(number),
                done(code, joins, join_of(number), index, value)?,
            )
        }
        Comes::Park(number, away) => {
            let closure = closure(alloc, code, 9, away)?;
            (
                join_of(number),
                park(code, joins, join_of(number), closure)?,
            )
        }
    };
    assert_eq!(rt; joins.waits(join), given.is_none());
    Ok(given)
}

fn done(
    code: &Code,
    joins: &mut Joins,
    join: JoinId,
    index: u32,
    value: i64,
) -> Result<Option<Closure>, Fail>
    requires { AllStand code.now joins.old }
    ensures joins { OnOk result (AllStand code.now joins.new) }
    ensures given { IfOk result (StandsThere code.now) }
{
    if !joins.waits(join) {
        return Err("it does not wait")?;
    }
    Ok(joins.done(join, index, value)?)
}

fn park(
    code: &Code,
    joins: &mut Joins,
    join: JoinId,
    closure: Closure,
) -> Result<Option<Closure>, Fail>
    requires joins { AllStand code.now joins.old }
    requires closure { StandsIn code.now closure.frame.frame }
    requires targets { HasTargets closure }
    ensures joins { OnOk result (AllStand code.now joins.new) }
    ensures given { IfOk result (StandsThere code.now) }
{
    if !joins.waits(join) {
        return Err("it does not wait")?;
    }
    Ok(joins.park(join, closure)?)
}

// A closure is given back where one is wanted, is at no join and shows these values.
fn assert_shows(
    rt: &impl Abort,
    code: &Code,
    given: Option<Closure>,
    shown: Option<(i64, i64)>,
) -> Result<(), Fail>
    requires { StandsThere code.now given }
{
    match (given, shown) {
        (None, None) => Ok(()),
        (Some(closure), Some((first, second))) => assert_given(rt, code, closure, first, second),
        _ => Err("given back otherwise")?,
    }
}

fn assert_given(
    rt: &impl Abort,
    code: &Code,
    closure: Closure,
    first: i64,
    second: i64,
) -> Result<(), Fail>
    requires { StandsIn code.now closure.frame.frame }
{
    assert_eq!(rt; closure.id.number, 9);
    assert_eq!(rt; closure.join, None);
    assert!(rt; closure.away.is_empty());
    let Closure { mut frame, .. } = closure;
    prints(rt, code, &mut frame, first)?;
    prints(rt, code, &mut frame, second)
}

// The frame prints this next.
fn prints(rt: &impl Abort, code: &Code, frame: &mut Frame, value: i64) -> Result<(), Fail>
    requires { StandsIn code.now frame.old.frame }
    ensures { OnOk result (StandsIn code.now frame.new.frame) }
{
    match frame.want(code) {
        Want::Print { value: printed } => assert_eq!(rt; printed, value),
        _ => return Err("it prints nothing")?,
    }
    frame.answer(code, Answer::Done)?;
    Ok(())
}

// The children that acts 4 and 6 spawned, for the locals 0 and 1.
const TWO: &[Child] = &[
    Child {
        index: 4,
        target: Some(0),
    },
    Child {
        index: 6,
        target: Some(1),
    },
];

// A child whose value goes nowhere.
const UNTARGETED: &[Child] = &[Child {
    index: 4,
    target: None,
}];

// The later of two children with one target.
const SAME: &[Child] = &[
    Child {
        index: 6,
        target: Some(1),
    },
    Child {
        index: 4,
        target: Some(1),
    },
];

#[test]
fn joins_give_back_once_all_have_come(rt: HostRuntime) -> Result<(), Fail> {
    static ROWS: [Row; 9] = [
        // no child is left
        &[(Comes::Park(0, &[]), Some((-1, -2)))],
        // the frame comes first
        &[
            (Comes::Park(0, TWO), None),
            (Comes::Done(0, 4, 40), None),
            (Comes::Done(0, 6, 60), Some((40, 60))),
        ],
        // the frame comes last
        &[
            (Comes::Done(0, 4, 40), None),
            (Comes::Done(0, 6, 60), None),
            (Comes::Park(0, TWO), Some((40, 60))),
        ],
        // the frame comes between its children
        &[
            (Comes::Done(0, 4, 40), None),
            (Comes::Park(0, TWO), None),
            (Comes::Done(0, 6, 60), Some((40, 60))),
        ],
        // the children come in the other order
        &[
            (Comes::Park(0, TWO), None),
            (Comes::Done(0, 6, 60), None),
            (Comes::Done(0, 4, 40), Some((40, 60))),
        ],
        &[
            (Comes::Done(0, 6, 60), None),
            (Comes::Done(0, 4, 40), None),
            (Comes::Park(0, TWO), Some((40, 60))),
        ],
        // a value without a target
        &[
            (Comes::Park(0, UNTARGETED), None),
            (Comes::Done(0, 4, 40), Some((-1, -2))),
        ],
        // the order is that of the separation
        &[
            (Comes::Done(0, 4, 40), None),
            (Comes::Park(0, SAME), None),
            (Comes::Done(0, 6, 60), Some((-1, 40))),
        ],
        // two joins at once
        &[
            (Comes::Park(1, TWO), None),
            (Comes::Done(0, 4, 1), None),
            (Comes::Done(1, 4, 40), None),
            (Comes::Park(0, UNTARGETED), Some((-1, -2))),
            (Comes::Done(1, 6, 60), Some((40, 60))),
        ],
    ];
    let code = code(rt.alloc())?;
    for row in &ROWS {
        assert_row(&rt, rt.alloc(), &code, row)?;
    }
    Ok(())
}

#[test]
fn a_join_waits_until_it_is_over(rt: HostRuntime) -> Result<(), Fail> {
    let code = code(rt.alloc())?;
    let mut joins = none_started(rt.alloc(), &code);
    may_move(&joins);
    assert!(rt; !joins.waits(join_of(0)));
    start(&rt, &code, &mut joins, 0)?;
    assert!(rt; joins.waits(join_of(0)));
    assert!(rt; !joins.waits(join_of(1)));
    let elsewhere = JoinId { node: 2, number: 0 };
    assert!(rt; !joins.waits(elsewhere));
    let given = come(&rt, rt.alloc(), &code, &mut joins, Comes::Park(0, &[]))?;
    assert!(rt; given.is_some());
    assert!(rt; !joins.waits(join_of(0)));
    assert_eq!(rt; joins.started(), 1);
    Ok(())
}
