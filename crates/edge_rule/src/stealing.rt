ghost use Rattle.std.specs.Prelude.{◌≡◌, ◌≢◌, ◌<◌, [], Some, IfOk, OnOk, OnErr};
ghost use Rattle.edge_rule.specs.Stealing.{StartsJoinFor, StartsJoinForOldest, TakesParted, join_for, left_behind, second_of, separated, stack_of, stolen, taken_from, with_first};

use crate::joins::Joins;
use page_messages::{Child, Closure, JoinId, Link};
use ready_deque::Deque;
use std::alloc::AllocError;

/// Takes the oldest frame from the deque of a node, in which `running` stands behind the latest, for a thief. The frame has a join
/// then, which is started where it has none, and its child leads there: the next frame of the deque, or `running` where there is
/// none. Where memory is refused all stays as it was.
pub fn steal_from(
    deque: &mut Deque<Closure>,
    running: &mut Closure,
    joins: &mut Joins,
) -> Result<Closure, AllocError>
    requires deque { deque.old ≢ [] }
    requires started { joins.old.started < 4294967295 }
    ensures taken { IfOk result (λ closure. taken_from joins.old (stack_of deque.old running.old) ≡ Some closure) }
    ensures left { OnOk result (stack_of deque.new running.new ≡ left_behind joins.old (stack_of deque.old running.old)) }
    ensures joins { OnOk result (StartsJoinForOldest (stack_of deque.old running.old) joins.old joins.new) }
    ensures same_deque { OnErr result (deque.new ≡ deque.old) }
    ensures same_running { OnErr result (running.new ≡ running.old) }
    ensures none_started { OnErr result (joins.new ≡ joins.old) }
{
    let child = child_of(deque, running);
    let (parent, join) = take_parted(deque, child, joins)?;
    lead_away(deque, running, join);
    Ok(parent)
}

/// What the child of the oldest frame is in it: the child is the next frame of the deque, or `running`.
fn child_of(deque: &mut Deque<Closure>, running: &Closure) -> Child
    ensures child { result ≡ second_of deque.old running.now }
    ensures same { deque.new ≡ deque.old }
{
    match deque.at_mut(1) {
        Some(child) => child.spawned,
        None => running.spawned,
    }
}

/// Takes the oldest frame, from which this child is separated, and its join.
fn take_parted(
    deque: &mut Deque<Closure>,
    child: Child,
    joins: &mut Joins,
) -> Result<(Closure, JoinId), AllocError>
    requires deque { deque.old ≢ [] }
    requires started { joins.old.started < 4294967295 }
    ensures taken { IfOk result (λ taken. TakesParted child joins.old joins.new deque.old deque.new taken.0 taken.1) }
    ensures same { OnErr result (deque.new ≡ deque.old) }
    ensures none_started { OnErr result (joins.new ≡ joins.old) }
{
    let join = part(deque.at_mut(0).unwrap(), child, joins)?;
    let parent = deque.take_top().unwrap();
    Ok((parent, join))
}

/// The oldest frame of the stack gives its value to the join.
fn lead_away(deque: &mut Deque<Closure>, running: &mut Closure, join: JoinId)
    ensures { stack_of deque.new running.new ≡ with_first (separated join) (stack_of deque.old running.old) }
{
    match deque.at_mut(0) {
        Some(child) => child.link = Link::Away { join },
        None => running.link = Link::Away { join },
    }
}

/// Separates a child from its parent, which is at a join then.
fn part(parent: &mut Closure, child: Child, joins: &mut Joins) -> Result<JoinId, AllocError>
    requires { joins.old.started < 4294967295 }
    ensures join { IfOk result (λ join. join ≡ join_for joins.old parent.old.join) }
    ensures parent { IfOk result (λ join. parent.new ≡ stolen join child parent.old) }
    ensures joins { OnOk result (StartsJoinFor parent.old.join joins.old joins.new) }
    ensures same { OnErr result (parent.new ≡ parent.old) }
    ensures none_started { OnErr result (joins.new ≡ joins.old) }
{
    parent.away.push(child)?;
    let join = match parent.join {
        Some(join) => join,
        None => match joins.start() {
            Ok(join) => join,
            Err(refused) => {
                parent.away.pop();
                return Err(refused);
            }
        },
    };
    parent.join = Some(join);
    Ok(join)
}
