ghost use Rattle.std.specs.Prelude.{◌≡◌, ◌<◌, ℕ, nat_eq, [], IfOk, OnOk, OnErr, IsSome, IsTrue};
ghost use Rattle.std.specs.Map.{lookup, update};
ghost use Rattle.std.specs.Option.{unwrap_or};
ghost use Rattle.machine_code.specs.Machine.{Code};
ghost use Rattle.plain_machine.specs.Standing.{StandsIn};
ghost use Rattle.edge_rule.specs.Joins.{AreJoins, ChangesJoin, HasTargets, StandsThere, StartsJoin, fresh, given_back, is_waiting, kept_at, left_of, next_join, with_done, with_parked};

use crate::join::Join;
use page_messages::{Closure, JoinId};
use std::alloc::{AllocError, Global};
use std::collections::BTreeMap;
use std::marker::Model;

/// The joins that a node started. At each of them the frame that was stolen waits for the children that were separated from it.
/// Contracts see the node, how many joins it started, and what each join keeps that is not over, by its number.
#[derive(Debug, Drop)]
pub struct Joins {
    alloc: Global,
    node: u32,
    started: u32,
    waiting: BTreeMap<u32, Join>,
}

impl Model for Joins {
    ghost use Rattle.edge_rule.specs.Joins.{Joins as Seen, AreJoins};

    ghost Value = { Seen };

    ghost view = { λ j. record { node = j.node; started = j.started; waiting = j.waiting.entries } };

    ghost invariant = { λ j. AreJoins (record { node = j.node; started = j.started; waiting = j.waiting.entries }) };
}

impl Joins {
    /// The joins of this node, of which none is started.
    pub fn new(alloc: Global, node: u32) -> Joins
        ensures { result ≡ record { node = node; started = 0; waiting = [] } }
    {
        Joins {
            alloc,
            node,
            started: 0,
            waiting: BTreeMap::new(alloc),
        }
    }

    /// How many joins were started.
    pub fn started(&self) -> u32
        ensures started { result ≡ self.now.started }
        ensures joins { AreJoins self.now }
    {
        self.started
    }

    /// Starts the join with the next number. Where memory is refused all stays as it was.
    pub fn start(&mut self) -> Result<JoinId, AllocError>
        requires { self.old.started < 4294967295 }
        ensures join { IfOk result (λ join. join ≡ next_join self.old) }
        ensures joins { OnOk result (StartsJoin self.old self.new) }
        ensures err { OnErr result (self.new ≡ self.old) }
    {
        let join = JoinId {
            node: self.node,
            number: self.started,
        };
        self.waiting.insert(join.number, Join::new(self.alloc))?;
        self.started += 1;
        Ok(join)
    }

    /// Whether the join is one of this node that was started and is not over.
    pub fn waits(&self, join: JoinId) -> bool
        ensures { result ≡ is_waiting self.now join }
    {
        join.node == self.node && self.waiting.contains_key(&join.number)
    }

    /// The Done of a child comes to its parent's join. Where the join is complete with it, the closure that is parked there is
    /// given back with the values of its children, and the join is over. Where memory is refused all stays as it was.
    pub fn done(
        &mut self,
        join: JoinId,
        index: u32,
        value: i64,
    ) -> Result<Option<Closure>, AllocError>
        requires { IsTrue (is_waiting self.old join) }
        ensures closure { IfOk result (λ closure. closure ≡ given_back (with_done index value (kept_at self.old join))) }
        ensures joins { OnOk result (ChangesJoin self.old self.new join.number (left_of (with_done index value (kept_at self.old join)))) }
        ensures stands { IfOk result (λ closure. (code : Code) → StandsThere code (kept_at self.old join).parked → StandsThere code closure) }
        ensures err { OnErr result (self.new ≡ self.old) }
    {
        let kept = self.waiting.get_mut(&join.number).unwrap();
        kept.add(index, value)?;
        Ok(give_back(&mut self.waiting, join.number, self.alloc))
    }

    /// A stolen frame comes to its join and waits there at its sync. Where the join is complete with it, its closure is given
    /// back with the values of its children, and the join is over. Where memory is refused the closure is dropped, and all else
    /// stays as it was.
    pub fn park(&mut self, join: JoinId, closure: Closure) -> Result<Option<Closure>, AllocError>
        requires waits { IsTrue (is_waiting self.old join) }
        requires targets { HasTargets closure }
        ensures closure { IfOk result (λ given. given ≡ given_back (with_parked closure (kept_at self.old join))) }
        ensures joins { OnOk result (ChangesJoin self.old self.new join.number (left_of (with_parked closure (kept_at self.old join)))) }
        ensures stands { IfOk result (λ given. (code : Code) → StandsIn code closure.frame.frame → StandsThere code given) }
        ensures err { OnErr result (self.new ≡ self.old) }
    {
        let kept = self.waiting.get_mut(&join.number).unwrap();
        kept.set_parked(closure);
        Ok(give_back(&mut self.waiting, join.number, self.alloc))
    }
}

/// Takes out the join of this number where it is complete, and gives its closure back.
fn give_back(waiting: &mut BTreeMap<u32, Join>, number: u32, alloc: Global) -> Option<Closure>
    requires { IsSome (lookup (nat_eq number) waiting.old.entries) }
    ensures closure { result ≡ given_back (unwrap_or (lookup (nat_eq number) waiting.old.entries) fresh) }
    ensures waiting { (other : ℕ) → lookup (nat_eq other) waiting.new.entries ≡ update nat_eq (λ q. lookup (nat_eq q) waiting.old.entries) number (left_of (unwrap_or (lookup (nat_eq number) waiting.old.entries) fresh)) other }
    ensures stands { (code : Code) → StandsThere code (unwrap_or (lookup (nat_eq number) waiting.old.entries) fresh).parked → StandsThere code result }
{
    if !waiting.get(&number)?.is_complete() {
        return None;
    }
    waiting.remove(&number)?.give_back(alloc)
}
