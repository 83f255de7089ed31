ghost use Rattle.std.specs.Prelude.{◌≡◌, ◌+◌, ◌<◌, ◌^◌, ◌++◌, ◌∷◌, ◌↔◌, [], length, slice_get, IsTrue, OnOk, OnErr};
ghost use Rattle.span_tree.specs.Dag.{NoSync};
ghost use Rattle.span_tree.specs.Steps.{count_after, syncs_with};

use crate::act::{Act, Place};
use outside::Words as Args;
use std::alloc::{AllocError, Global};
use std::marker::Model;

/// An act, and how many Syncs its row has up to it.
#[derive(Clone, Copy, Debug)]
struct Step {
    act: Act,
    syncs: u32,
}

/// The row of an instance: its parent, procedure and arguments, and its acts in order.
#[derive(Debug, Drop)]
pub struct Row {
    parent: Option<Place>,
    proc: u32,
    args: Args,
    steps: Vec<Step>,
}

impl Model for Row {
    ghost use Rattle.span_tree.specs.History.{Row as Seen};
    ghost use Rattle.span_tree.specs.Steps.{acts_of, AreCounted};

    ghost Value = { Seen };

    ghost view = { λ r. record { parent = r.parent; proc = r.proc; args = r.args; acts = acts_of r.steps.items } };

    ghost invariant = { λ r. AreCounted r.steps.items };
}

impl Row {
    /// A row without acts.
    pub(crate) fn new(alloc: Global, parent: Option<Place>, proc: u32, args: Args) -> Row
        ensures { result ≡ record { parent = parent; proc = proc; args = args; acts = [] } }
    {
        Row {
            parent,
            proc,
            args,
            steps: Vec::new(alloc),
        }
    }

    /// The Spawn act that made the instance. None for `main`.
    pub fn parent(&self) -> Option<Place>
        ensures { result ≡ self.now.parent }
    {
        self.parent
    }

    /// The number of its procedure.
    pub fn proc(&self) -> u32
        ensures { result ≡ self.now.proc }
    {
        self.proc
    }

    /// Its arguments.
    pub fn args(&self) -> &[i64]
        ensures { result.now ≡ self.now.args }
    {
        self.args.items()
    }

    /// How many acts it has.
    pub fn len(&self) -> usize
        ensures acts { result ≡ length self.now.acts }
        ensures within { length self.now.acts < 2 ^ 32 }
    {
        self.steps.len()
    }

    /// The act with this index. None exactly where there are no more than that many.
    pub fn act(&self, index: u32) -> Option<Act>
        ensures { result ≡ slice_get self.now.acts index }
    {
        self.steps.get(index as usize).map(|step| step.act)
    }

    /// Whether no Sync stands behind act i up to act j.
    pub(crate) fn is_unsynced(&self, i: u32, j: u32) -> bool
        requires order { i < j }
        requires within { j < length self.now.acts }
        ensures { IsTrue result ↔ NoSync self.now.acts i j }
    {
        self.steps[i as usize].syncs == self.steps[j as usize].syncs
    }

    /// Adds an act at the end. Where memory is refused, or the row has 4,294,967,295 acts, it stays as it was.
    pub(crate) fn push(&mut self, act: Act) -> Result<(), AllocError>
        ensures ok { OnOk result (self.new ≡ record self.old { acts = self.old.acts ++ act ∷ [] }) }
        ensures within { OnOk result (length self.new.acts < 2 ^ 32) }
        ensures err { OnErr result (self.new ≡ self.old) }
    {
        if self.steps.len() >= u32::MAX as usize {
            return Err(AllocError);
        }
        let syncs = counted(latest_count(self.steps.as_slice()), act);
        self.steps.push(Step { act, syncs })?;
        Ok(())
    }
}

/// How many Syncs there are up to the last act.
fn latest_count(steps: &[Step]) -> u32
    ensures { result ≡ count_after 0 steps.now }
{
    match steps.last() {
        Some(step) => step.syncs,
        None => 0,
    }
}

/// The count of Syncs with one act more.
fn counted(before: u32, act: Act) -> u32
    requires { before + 1 < 2 ^ 32 }
    ensures { result ≡ syncs_with before act }
{
    match act {
        Act::Sync => before + 1,
        _ => before,
    }
}
