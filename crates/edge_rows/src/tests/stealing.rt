use super::closures::closure;
use super::code::code;
use edge_rule::{Joins, steal_from};
use machine_code::Code;
use page_messages::{Child, Closure, JoinId, Link};
use ready_deque::Deque;
use std::alloc::Global;
use std::process::Abort;
use std::test::Fail;

// A node at which a frame runs.
#[derive(Drop)]
struct Node {
    code: Code,
    joins: Joins,
    deque: Deque<Closure>,
    running: Closure,
}

// The node of this number, where the frames with these numbers wait from the top to the bottom.
fn node_of(alloc: Global, number: u32, numbers: &[u32], running: u32) -> Result<Node, Fail> {
    let code = code(alloc)?;
    let deque = deque_of(alloc, &code, numbers)?;
    let running = closure(alloc, &code, running, &[])?;
    Ok(Node {
        code,
        joins: Joins::new(alloc, number),
        deque,
        running,
    })
}

fn deque_of(alloc: Global, code: &Code, numbers: &[u32]) -> Result<Deque<Closure>, Fail> {
    let mut deque = Deque::new(alloc);
    for number in numbers {
        push(&mut deque, closure(alloc, code, *number, &[])?)?;
    }
    Ok(deque)
}

fn push(deque: &mut Deque<Closure>, closure: Closure) -> Result<(), Fail> {
    match deque.push_bottom(closure) {
        Ok(()) => Ok(()),
        Err(_) => Err("memory")?,
    }
}

fn steal(
    deque: &mut Deque<Closure>,
    running: &mut Closure,
    joins: &mut Joins,
) -> Result<Closure, Fail> {
    if deque.is_empty() || joins.started() == u32::MAX {
        return Err("nothing to steal, or no join")?;
    }
    Ok(steal_from(deque, running, joins)?)
}

const fn join_of(number: u32) -> JoinId {
    JoinId { node: 0, number }
}

// The child that the frame of this number is in its parent.
const fn child(number: u32) -> Child {
    Child {
        index: number,
        target: Some(0),
    }
}

// The oldest frame is stolen next. It has this number, this link, this join and these children that were separated from it.
fn assert_steals(
    rt: &impl Abort,
    node: &mut Node,
    number: u32,
    link: Link,
    join: JoinId,
    away: &[Child],
) -> Result<(), Fail> {
    let stolen = steal(&mut node.deque, &mut node.running, &mut node.joins)?;
    assert_stolen(rt, &stolen, number, link, join, away);
    Ok(())
}

fn assert_stolen(
    rt: &impl Abort,
    closure: &Closure,
    number: u32,
    link: Link,
    join: JoinId,
    away: &[Child],
) {
    assert_eq!(rt; closure.id.number, number);
    assert_eq!(rt; closure.link, link);
    assert_eq!(rt; closure.join, Some(join));
    assert_eq!(rt; closure.away.as_slice(), away);
}

// The latest frame of the deque, which is no stolen one, has this number and this link.
fn assert_pops(
    rt: &impl Abort,
    deque: &mut Deque<Closure>,
    number: u32,
    link: Link,
) -> Result<(), Fail> {
    let popped = deque.pop_bottom().ok_or("empty")?;
    assert_links(rt, &popped, number, link);
    Ok(())
}

fn assert_links(rt: &impl Abort, closure: &Closure, number: u32, link: Link) {
    assert_eq!(rt; closure.id.number, number);
    assert_eq!(rt; closure.link, link);
    assert_eq!(rt; closure.join, None);
    assert!(rt; closure.away.is_empty());
}

#[test]
fn the_oldest_frames_are_stolen(rt: HostRuntime) -> Result<(), Fail> {
    let mut node = node_of(rt.alloc(), 0, &[1, 2, 3], 4)?;
    assert_oldest(&rt, &mut node)
}

fn assert_oldest(rt: &impl Abort, node: &mut Node) -> Result<(), Fail> {
    assert_steals(rt, node, 1, Link::Here, join_of(0), &[child(2)])?;
    let away = Link::Away { join: join_of(0) };
    assert_steals(rt, node, 2, away, join_of(1), &[child(3)])?;
    assert_links(rt, &node.running, 4, Link::Here);
    let away = Link::Away { join: join_of(1) };
    assert_pops(rt, &mut node.deque, 3, away)?;
    assert!(rt; node.deque.is_empty());
    assert_eq!(rt; node.joins.started(), 2);
    Ok(())
}

#[test]
fn the_running_frame_may_be_the_child(rt: HostRuntime) -> Result<(), Fail> {
    let mut node = node_of(rt.alloc(), 0, &[1], 2)?;
    assert_steals(&rt, &mut node, 1, Link::Here, join_of(0), &[child(2)])?;
    assert_links(&rt, &node.running, 2, Link::Away { join: join_of(0) });
    assert!(rt; node.deque.is_empty());
    Ok(())
}

// A frame that is stolen again in its block keeps its join, which may be at another node.
#[test]
fn a_frame_keeps_its_join(rt: HostRuntime) -> Result<(), Fail> {
    let mut node = node_of(rt.alloc(), 1, &[], 3)?;
    push_stolen(rt.alloc(), &node.code, &mut node.deque, join_of(5))?;
    let away = [child(2), child(3)];
    assert_steals(&rt, &mut node, 1, Link::Here, join_of(5), &away)?;
    assert_links(&rt, &node.running, 3, Link::Away { join: join_of(5) });
    assert_eq!(rt; node.joins.started(), 0);
    Ok(())
}

// The frame 1, which was stolen when the child 2 ran, waits in the deque.
fn push_stolen(
    alloc: Global,
    code: &Code,
    deque: &mut Deque<Closure>,
    join: JoinId,
) -> Result<(), Fail> {
    let mut stolen = closure(alloc, code, 1, &[child(2)])?;
    stolen.join = Some(join);
    push(deque, stolen)
}

// A frame whose join is over gets another one in its next block.
#[test]
fn the_next_block_has_a_join_of_its_own(rt: HostRuntime) -> Result<(), Fail> {
    let mut node = node_of(rt.alloc(), 0, &[1], 2)?;
    assert_next_block(&rt, rt.alloc(), &mut node)
}

fn assert_next_block(rt: &impl Abort, alloc: Global, node: &mut Node) -> Result<(), Fail> {
    assert_steals(rt, node, 1, Link::Here, join_of(0), &[child(2)])?;
    push_joined(alloc, &node.code, &mut node.deque, &mut node.joins)?;
    node.running = closure(alloc, &node.code, 3, &[])?;
    assert_steals(rt, node, 1, Link::Here, join_of(1), &[child(3)])?;
    assert!(rt; node.joins.waits(join_of(1)));
    assert!(rt; !node.joins.waits(join_of(0)));
    Ok(())
}

fn push_joined(
    alloc: Global,
    code: &Code,
    deque: &mut Deque<Closure>,
    joins: &mut Joins,
) -> Result<(), Fail> {
    push(deque, joined(alloc, code, joins)?)
}

// The frame 1, from join 0, where the child 2 has come.
fn joined(alloc: Global, code: &Code, joins: &mut Joins) -> Result<Closure, Fail> {
    let closure = closure(alloc, code, 1, &[child(2)])?;
    let join = join_of(0);
    if !joins.waits(join) {
        return Err("it does not wait")?;
    }
    if joins.park(join, closure)?.is_some() {
        return Err("given back too early")?;
    }
    if !joins.waits(join) {
        return Err("it is over too early")?;
    }
    Ok(joins.done(join, 2, 20)?.ok_or("not given back")?)
}
