ghost use Rattle.std.specs.Prelude.{◌≡◌, [], ◌∷◌, true, IfOk};

use crate::{Body, Child, Closure, FrameId, JoinId, Link, Log, Msg, Part, Parts, Step};
use machine_code::{Code, Instr, Proc};
use outside::Words;
use plain_machine::Frame;
use sqlite_items::Items;
use std::alloc::{AllocError, Global};
use std::process::Abort;
use std::test::Fail;

const FRAME: FrameId = FrameId { node: 1, number: 2 };

const JOIN: JoinId = JoinId { node: 6, number: 4 };

// Takes what may move between threads, and nothing else.
fn may_move<T: Send>(_value: &T) {}

fn words(alloc: Global, values: &[i64]) -> Result<Words, AllocError> {
    let mut words = Words::new(alloc);
    for value in values {
        words.push(*value)?;
    }
    Ok(words)
}

// A procedure that gives 0.
static PROCS: [Proc; 1] = [Proc {
    cilk: true,
    start: 0,
    params: 0,
    locals: 0,
    operands: 1,
}];

static INSTRS: [Instr; 3] = [Instr::SyncAll, Instr::Const(0), Instr::Return];

fn code(alloc: Global) -> Result<Code, AllocError>
    ensures { IfOk result (λ code. code.procs ≡ record { «cilk» = true; start = 0; params = 0; locals = 0; operands = 1 } ∷ []) }
{
    Ok(Code {
        procs: Vec::from_slice(alloc, &PROCS)?,
        instrs: Vec::from_slice(alloc, &INSTRS)?,
        shared: Vec::new(alloc),
        main: 0,
        input_base: 0,
        input: Words::new(alloc),
    })
}

fn closure(alloc: Global) -> Result<Closure, AllocError> {
    let code = code(alloc)?;
    Ok(Closure {
        id: FRAME,
        frame: Frame::start(alloc, &code, 0, &[], 0)?,
        acts: 3,
        link: Link::Root,
        spawned: Child {
            index: 0,
            target: None,
        },
        join: Some(JOIN),
        away: Items::new(alloc),
    })
}

// The log keeps this of such a message from node 3 to node 5.
fn assert_kept(rt: &impl Abort, alloc: Global, body: Body, note: &str) -> Result<(), Fail> {
    let message = Msg {
        sender: 3,
        receiver: 5,
        body,
    };
    may_move(&message);
    let post = message.post(alloc)?;
    assert_eq!(rt; post.receiver, 5);
    let kept = format!(in alloc; "{:?}", post.note)?;
    assert_eq!(rt; kept.as_str(), note);
    Ok(())
}

#[test]
fn words_are_kept(rt: HostRuntime) -> Result<(), Fail> {
    let alloc = rt.alloc();
    let page = Body::Page {
        page: 7,
        words: words(alloc, &[1, -2])?,
    };
    assert_kept(
        &rt,
        alloc,
        page,
        "Page { page: 7, words: Words { values: [1, -2] } }",
    )?;
    let mut parts = Parts::new(alloc);
    for (page, mask) in [(8, 1), (9, 3)] {
        parts.push(Part {
            page,
            mask,
            words: words(alloc, &[5, 6])?,
        })?;
    }
    let reconcile = Body::Reconcile { parts };
    assert_kept(
        &rt,
        alloc,
        reconcile,
        "Reconcile { parts: Parts { parts: Items { items: [Part { page: 8, mask: 1, words: Words { values: [5, 6] } }, Part { page: 9, mask: 3, words: Words { values: [5, 6] } }] } } }",
    )
}

#[test]
fn a_closure_is_named_by_its_frame(rt: HostRuntime) -> Result<(), Fail> {
    let alloc = rt.alloc();
    let grant = Body::Grant {
        closure: closure(alloc)?,
    };
    assert_kept(
        &rt,
        alloc,
        grant,
        "Grant { frame: FrameId { node: 1, number: 2 } }",
    )?;
    let park = Body::Park {
        join: JOIN,
        closure: closure(alloc)?,
    };
    assert_kept(
        &rt,
        alloc,
        park,
        "Park { join: JoinId { node: 6, number: 4 }, frame: FrameId { node: 1, number: 2 } }",
    )
}

#[test]
fn all_else_is_kept(rt: HostRuntime) -> Result<(), Fail> {
    let alloc = rt.alloc();
    assert_kept(&rt, alloc, Body::Fetch { page: 7 }, "Fetch { page: 7 }")?;
    assert_kept(&rt, alloc, Body::Ack, "Ack")?;
    assert_kept(&rt, alloc, Body::Ask, "Ask")?;
    assert_kept(&rt, alloc, Body::Refuse, "Refuse")?;
    let done = Body::Done {
        join: JOIN,
        index: 3,
        value: -9,
    };
    assert_kept(
        &rt,
        alloc,
        done,
        "Done { join: JoinId { node: 6, number: 4 }, index: 3, value: -9 }",
    )?;
    let add = Body::Add {
        frame: FRAME,
        index: 3,
        word: 11,
        addend: 4,
    };
    assert_kept(
        &rt,
        alloc,
        add,
        "Add { frame: FrameId { node: 1, number: 2 }, index: 3, word: 11, addend: 4 }",
    )?;
    assert_kept(&rt, alloc, Body::Added { old: -1 }, "Added { old: -1 }")
}

#[test]
fn steps_and_logs_may_move(rt: HostRuntime) {
    let alloc = rt.alloc();
    may_move(&Log {
        turns: Items::new(alloc),
    });
    may_move(&Step {
        items: Items::new(alloc),
        posts: Items::new(alloc),
        end: None,
    });
}
