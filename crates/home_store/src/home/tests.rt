ghost use Rattle.std.specs.Prelude.{◌≡◌, ◌≤◌, ◌↔◌, IfOk, IsTrue, length};
ghost use Rattle.std.specs.List.{All};
ghost use Rattle.page_messages.specs.Fitting.{PartsFit};
ghost use Rattle.home_store.specs.Home.{HasPage};

use crate::Home;
use machine_code::{Code, Extent, Instr, Proc};
use outside::Words;
use page_messages::{Body, Msg, Part, Parts};
use page_words::Config;
use std::alloc::{AllocError, Global};
use std::test::Fail;

// Takes what may move between threads, and nothing else.
fn may_move<T: Send>(_value: &T) {}

// These numbers as words.
fn words(alloc: Global, numbers: &[i64]) -> Result<Words, AllocError>
    ensures { IfOk result (λ words. words ≡ numbers.now) }
{
    let mut words = Words::new(alloc);
    for number in numbers {
        words.push(*number)?;
    }
    Ok(words)
}

static PROCS: [Proc; 1] = [Proc {
    cilk: false,
    start: 0,
    params: 0,
    locals: 0,
    operands: 1,
}];

static INSTRS: [Instr; 2] = [Instr::Const(0), Instr::Return];

static SHARED: [Extent; 1] = [Extent { base: 0, words: 18 }];

static INPUT: [i64; 18] = [
    1, 2, 3, 4, 5, 6, 7, 8, 9, 10, 11, 12, 13, 14, 15, 16, 17, 18,
];

// A `main` that does nothing, over 18 shared words, which start with 1 to 18. They are five pages of four words, with two places behind
// the last word.
fn code(alloc: Global) -> Result<Code, AllocError> {
    Ok(Code {
        procs: Vec::from_slice(alloc, &PROCS)?,
        instrs: Vec::from_slice(alloc, &INSTRS)?,
        shared: Vec::from_slice(alloc, &SHARED)?,
        main: 0,
        input_base: 0,
        input: words(alloc, &INPUT)?,
    })
}

// The home at a node of so many, with pages of four words.
fn home(alloc: Global, nodes: u32, node: u32) -> Result<Home, Fail>
    ensures { IfOk result (λ home. home.config.page_words ≡ 4) }
{
    let config = Config::new(nodes, 4, 1, 1).ok_or("no configuration")?;
    Ok(Home::new(alloc, node, &config, &code(alloc)?)?)
}

#[test]
fn every_page_is_at_one_home(rt: HostRuntime) -> Result<(), Fail> {
    // How many nodes there are, a node, the pages at its home, and for how many words it takes memory.
    static ROWS: [(u32, u32, &[u32], usize); 21] = [
        (1, 0, &[0, 1, 2, 3, 4], 20),
        (4, 0, &[0, 4], 8),
        (4, 1, &[1], 4),
        (4, 2, &[2], 4),
        (4, 3, &[3], 4),
        (16, 0, &[0], 4),
        (16, 1, &[1], 4),
        (16, 2, &[2], 4),
        (16, 3, &[3], 4),
        (16, 4, &[4], 4),
        (16, 5, &[], 0),
        (16, 6, &[], 0),
        (16, 7, &[], 0),
        (16, 8, &[], 0),
        (16, 9, &[], 0),
        (16, 10, &[], 0),
        (16, 11, &[], 0),
        (16, 12, &[], 0),
        (16, 13, &[], 0),
        (16, 14, &[], 0),
        (16, 15, &[], 0),
    ];
    let alloc = rt.alloc();
    for &(nodes, node, pages, places) in &ROWS {
        let home = home(alloc, nodes, node)?;
        may_move(&home);
        for page in 0..6 {
            assert_eq!(rt;
                home.has(page),
                pages.contains(&page),
                "node {node} of {nodes}"
            );
        }
        assert_eq!(rt; home.words.capacity(), places, "node {node} of {nodes}");
    }
    Ok(())
}

fn part(alloc: Global, page: u32, mask: u64, numbers: &[i64]) -> Result<Part, AllocError>
    ensures { IfOk result (λ part. part ≡ record { page = page; mask = mask; words = numbers.now }) }
{
    Ok(Part {
        page,
        mask,
        words: words(alloc, numbers)?,
    })
}

// Node 3 fetches a page of the home at node 0.
fn fetch(home: &mut Home, alloc: Global, page: u32) -> Result<Words, Fail>
    ensures { home.new.config ≡ home.old.config }
{
    if !home.has(page) {
        return Err("a page of another home".into());
    }
    let fetch = Msg {
        sender: 3,
        receiver: 0,
        body: Body::Fetch { page },
    };
    let reply = home.serve(alloc, &fetch)?;
    if reply.sender != 0 || reply.receiver != 3 {
        return Err("from or to another node".into());
    }
    match reply.body {
        Body::Page {
            page: answered,
            words,
        } if answered == page => Ok(words),
        _ => Err("no such page".into()),
    }
}

fn has_all(home: &Home, parts: &[Part]) -> bool
    ensures { IsTrue result ↔ All (λ part. HasPage home.now part.page) parts.now }
{
    parts.iter().all(|part| home.has(part.page))
}

// Node 3 hands parts to the home at node 0.
fn reconcile(home: &mut Home, alloc: Global, parts: Parts) -> Result<(), Fail>
    requires { PartsFit home.old.config parts }
    ensures { home.new.config ≡ home.old.config }
{
    if !has_all(home, parts.items()) {
        return Err("a page of another home".into());
    }
    let reconcile = Msg {
        sender: 3,
        receiver: 0,
        body: Body::Reconcile { parts },
    };
    let reply = home.serve(alloc, &reconcile)?;
    match reply.body {
        Body::Ack if reply.sender == 0 && reply.receiver == 3 => Ok(()),
        _ => Err("no ack".into()),
    }
}

#[test]
fn a_fetch_behind_two_reconciles(rt: HostRuntime) -> Result<(), Fail> {
    let alloc = rt.alloc();
    let mut home = home(alloc, 2, 0)?;
    assert_eq!(rt;
        fetch(&mut home, alloc, 2)?.items(),
        [9, 10, 11, 12].as_slice()
    );
    let mut first = Parts::new(alloc);
    first.push(part(alloc, 2, 0b0101, &[-1, -2, -3, -4])?)?;
    reconcile(&mut home, alloc, first)?;
    let mut second = Parts::new(alloc);
    second.push(part(alloc, 2, 0b0110, &[-5, -6, -7, -8])?)?;
    reconcile(&mut home, alloc, second)?;
    assert_eq!(rt;
        fetch(&mut home, alloc, 2)?.items(),
        [-1, -6, -7, 12].as_slice()
    );
    assert_eq!(rt;
        fetch(&mut home, alloc, 0)?.items(),
        [1, 2, 3, 4].as_slice()
    );
    Ok(())
}

#[test]
fn a_reconcile_of_three_parts(rt: HostRuntime) -> Result<(), Fail> {
    let alloc = rt.alloc();
    let mut home = home(alloc, 2, 0)?;
    let mut parts = Parts::new(alloc);
    parts.push(part(alloc, 0, 0b0001, &[-1, -2, -3, -4])?)?;
    parts.push(part(alloc, 2, 0b1111, &[-5, -6, -7, -8])?)?;
    parts.push(part(alloc, 4, 0b1010, &[-9, -10, -11, -12])?)?;
    reconcile(&mut home, alloc, parts)?;
    assert_eq!(rt;
        fetch(&mut home, alloc, 0)?.items(),
        [-1, 2, 3, 4].as_slice()
    );
    assert_eq!(rt;
        fetch(&mut home, alloc, 2)?.items(),
        [-5, -6, -7, -8].as_slice()
    );
    // The last word of the program is 18; the two behind it start at 0, and are kept.
    assert_eq!(rt;
        fetch(&mut home, alloc, 4)?.items(),
        [17, -10, 0, -12].as_slice()
    );
    Ok(())
}

#[test]
fn an_add_at_the_ends(rt: HostRuntime) -> Result<(), Fail> {
    // What a word holds, what is added, and what it then holds.
    static ROWS: [(i64, i64, i64); 7] = [
        (i64::MAX, 1, i64::MAX),
        (i64::MAX - 1, 1, i64::MAX),
        (i64::MAX, i64::MIN, -1),
        (i64::MIN, -1, i64::MIN),
        (i64::MIN + 1, -1, i64::MIN),
        (i64::MIN, i64::MIN, i64::MIN),
        (0, i64::MIN, i64::MIN),
    ];
    let alloc = rt.alloc();
    for &(old, addend, new) in &ROWS {
        let mut home = home(alloc, 2, 0)?;
        let mut parts = Parts::new(alloc);
        parts.push(part(alloc, 4, 0b0010, &[0, old, 0, 0])?)?;
        reconcile(&mut home, alloc, parts)?;
        if !home.has(4) {
            return Err("a page of another home".into());
        }
        assert_eq!(rt; home.add(17, addend), old);
        assert_eq!(rt; home.load(alloc, 4)?.items(), [17, new, 0, 0].as_slice());
    }
    Ok(())
}
