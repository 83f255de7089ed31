ghost use Rattle.std.specs.Prelude.{◌≡◌, IfSome, OnOk, OnErr};
ghost use Rattle.std.specs.Option.{option_map};
ghost use Rattle.machine_code.specs.Machine.{Code};
ghost use Rattle.machine_code.specs.Early.{with_values};
ghost use Rattle.plain_machine.specs.Standing.{StandsIn, own_locals};
ghost use Rattle.edge_rule.specs.Joins.{AreAmong, HasTargets, IsAmong, StandsThere, targeted, deposits_of, fresh, have_come, is_complete, joined, with_done, with_parked};

use page_messages::{Child, Closure};
use plain_machine::Frame;
use sqlite_items::Items;
use std::alloc::{AllocError, Global};
use std::collections::BTreeMap;
use std::marker::Model;

/// What a join keeps until it is over: the value of each child that has come, by the index of the act that spawned the child,
/// and the closure that is parked. The closure's children have targets in it.
#[derive(Debug, Drop)]
pub(crate) struct Join {
    came: BTreeMap<u32, i64>,
    parked: Option<Closure>,
}

impl Model for Join {
    ghost use Rattle.std.specs.Prelude.{IfSome};
    ghost use Rattle.edge_rule.specs.Joins.{Join as Seen, HasTargets};

    ghost Value = { Seen };

    ghost view = { λ j. record { came = j.came.entries; parked = j.parked } };

    ghost invariant = { λ j. IfSome j.parked HasTargets };
}

impl Join {
    /// A join to which nothing came.
    pub(crate) fn new(alloc: Global) -> Join
        ensures { result ≡ fresh }
    {
        Join {
            came: BTreeMap::new(alloc),
            parked: None,
        }
    }

    /// The Done of a child comes. Where memory is refused all stays as it was.
    pub(crate) fn add(&mut self, index: u32, value: i64) -> Result<(), AllocError>
        ensures ok { OnOk result (self.new ≡ with_done index value self.old) }
        ensures err { OnErr result (self.new ≡ self.old) }
    {
        self.came.insert(index, value)?;
        Ok(())
    }

    /// The closure is parked here.
    pub(crate) fn set_parked(&mut self, closure: Closure)
        requires { HasTargets closure }
        ensures { self.new ≡ with_parked closure self.old }
    {
        self.parked = Some(closure);
    }

    /// Whether the closure is parked, and each child that was separated from it has come.
    pub(crate) fn is_complete(&self) -> bool
        ensures { result ≡ is_complete self.now }
    {
        match &self.parked {
            Some(closure) => have_come(&self.came, closure.away.as_slice()),
            None => false,
        }
    }

    /// The closure that is parked, with the values of the children that have come.
    pub(crate) fn give_back(self, alloc: Global) -> Option<Closure>
        ensures closure { result ≡ option_map (joined self.came) self.parked }
        ensures stands { (code : Code) → StandsThere code self.parked → StandsThere code result }
    {
        let Join { came, parked } = self;
        let mut closure = parked?;
        deposit(&mut closure.frame, &came, closure.away.as_slice());
        closure.join = None;
        closure.away = Items::new(alloc);
        Some(closure)
    }
}

/// Whether each of these children has come.
fn have_come(came: &BTreeMap<u32, i64>, children: &[Child]) -> bool
    ensures { result ≡ have_come came.now.entries children.now }
{
    for child in children {
        if !came.contains_key(&child.index) {
            return false;
        }
    }
    true
}

/// Gives the values of these children to their targets, in this order.
fn deposit(frame: &mut Frame, came: &BTreeMap<u32, i64>, children: &[Child])
    requires { AreAmong (own_locals frame.old.frame) children.now }
    ensures set { frame.new ≡ record frame.old { frame = with_values (deposits_of came.now.entries children.now) frame.old.frame } }
    ensures stands { (code : Code) → StandsIn code frame.old.frame → StandsIn code frame.new.frame }
{
    for child in children {
        deposit_one(frame, child.target, came.get(&child.index).copied());
    }
}

/// Gives a value to a target, where it came and there is one.
#[tactic(auto, using(crate::proofs::Depositing::with_none, crate::proofs::Depositing::with_untargeted))]
fn deposit_one(frame: &mut Frame, target: Option<u32>, value: Option<i64>)
    requires { IsAmong (own_locals frame.old.frame) target }
    ensures set { frame.new ≡ record frame.old { frame = with_values (targeted target value) frame.old.frame } }
    ensures stands { (code : Code) → StandsIn code frame.old.frame → StandsIn code frame.new.frame }
{
    let Some(value) = value else {
        return;
    };
    let Some(target) = target else {
        return;
    };
    frame.deposit(target, value);
}
