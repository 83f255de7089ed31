ghost use Rattle.std.specs.Prelude.{◌≡◌, nat_lt, true, length, IfOk};
ghost use Rattle.std.specs.List.{list_all};
ghost use Rattle.std.specs.Option.{option_map_or};
ghost use Rattle.edge_rule.specs.Joins.{HasTargets};
ghost use Rattle.plain_machine.specs.Standing.{StandsIn, own_locals};

use super::code::SHOW;
use machine_code::Code;
use page_messages::{Child, Closure, FrameId, Link};
use plain_machine::Frame;
use sqlite_items::Items;
use std::alloc::Global;
use std::test::Fail;

// A closure of a frame with this number, whose locals are -1 and -2, and from which these children are separated. It is itself the
// child that its parent's act of this number spawned.
pub(crate) fn closure(
    alloc: Global,
    code: &Code,
    number: u32,
    away: &[Child],
) -> Result<Closure, Fail>
    ensures targets { IfOk result HasTargets }
    ensures stands { IfOk result (λ closure. StandsIn code.now closure.frame.frame) }
{
    if !have_targets(away, 2) {
        return Err("no such local")?;
    }
    Ok(Closure {
        id: FrameId { node: 0, number },
        frame: frame(alloc, code)?,
        acts: 0,
        link: Link::Here,
        spawned: Child {
            index: number,
            target: Some(0),
        },
        join: None,
        away: Items::from_slice(alloc, away)?,
    })
}

// Whether each child's target is below this number.
fn have_targets(children: &[Child], locals: u32) -> bool
    ensures { result ≡ list_all (λ child. option_map_or (λ target. nat_lt target locals) child.target true) children.now }
{
    for child in children {
        if !is_below(child.target, locals) {
            return false;
        }
    }
    true
}

// No target counts as below each number.
fn is_below(target: Option<u32>, locals: u32) -> bool
    ensures { result ≡ option_map_or (λ target. nat_lt target locals) target true }
{
    match target {
        Some(target) => target < locals,
        None => true,
    }
}

fn frame(alloc: Global, code: &Code) -> Result<Frame, Fail>
    ensures stands { IfOk result (λ frame. StandsIn code.now frame.frame) }
    ensures locals { IfOk result (λ frame. length (own_locals frame.frame) ≡ 2) }
{
    if code.procs.len() <= SHOW as usize {
        return Err("no such procedure")?;
    }
    let show = code.proc(SHOW);
    if show.params != 2 || show.locals != 2 {
        return Err("another procedure")?;
    }
    Ok(Frame::start(alloc, code, SHOW, &[-1, -2], 1)?)
}
