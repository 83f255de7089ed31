ghost use Rattle.std.specs.Prelude.{◌≡◌, ◌≢◌, true, length, IfOk, OnOk, OnErr};
ghost use Rattle.span_tree.specs.Recording.{IsParentRow, IsRunning, first_history, recorded, spawned, spawns_none};

use crate::act::Act;
use crate::history::History;
use outside::Words as Args;
use std::alloc::{AllocError, Global};
use std::marker::Model;

/// A history while it is recorded in serial order, and the row that runs. Contracts see both.
#[derive(Debug, Drop)]
pub struct Recording {
    history: History,
    row: u32,
}

impl Model for Recording {
    ghost use Rattle.span_tree.specs.Recording.{Recorded, IsRunning};

    ghost Value = { Recorded };

    ghost view = { λ r. record { history = r.history; row = r.row } };

    ghost invariant = { λ r. IsRunning r.history r.row };
}

impl Recording {
    /// `main` of this procedure runs, and has no acts yet.
    pub fn new(alloc: Global, main: u32) -> Result<Recording, AllocError>
        ensures { IfOk result (λ recording. recording ≡ record { history = first_history main; row = 0 }) }
    {
        Ok(Recording {
            history: History::new(alloc, main)?,
            row: 0,
        })
    }

    /// Adds an act that spawns nothing to the row that runs. Where memory is refused, or the row has 4,294,967,295
    /// acts, nothing changes.
    pub fn act(&mut self, act: Act) -> Result<(), AllocError>
        requires { spawns_none act ≡ true }
        ensures ok { OnOk result (self.new ≡ recorded act self.old) }
        ensures err { OnErr result (self.new ≡ self.old) }
    {
        self.history.push(self.row, act)
    }

    /// Adds a Spawn act to the row that runs, and the child's row, which runs then and whose number is the answer.
    /// Where memory is refused, or no number is left, nothing changes.
    pub fn spawn(&mut self, proc: u32, args: Args) -> Result<u32, AllocError>
        ensures child { IfOk result (λ child. child ≡ length self.old.history) }
        ensures ok { OnOk result (self.new ≡ spawned proc args self.old) }
        ensures err { OnErr result (self.new ≡ self.old) }
    {
        let child = self.history.spawn(self.row, proc, args)?;
        self.row = child;
        Ok(child)
    }

    /// The parent of the row that runs goes on.
    pub fn leave(&mut self)
        requires { self.old.row ≢ 0 }
        ensures parent { IsParentRow self.old.history self.old.row self.new.row }
        ensures history { self.new.history ≡ self.old.history }
    {
        self.row = self.history.rows()[self.row as usize].parent().unwrap().row;
    }

    /// The history so far.
    pub fn history(&self) -> &History
        ensures history { result.now ≡ self.now.history }
        ensures running { IsRunning self.now.history self.now.row }
    {
        &self.history
    }

    /// The row that runs.
    pub fn row(&self) -> u32
        ensures { result ≡ self.now.row }
    {
        self.row
    }

    /// What was recorded.
    pub fn finish(self) -> History
        ensures { result ≡ self.history }
    {
        self.history
    }
}
