//! A value that keeps its entries, each the number of who added it.
ghost use Rattle.std.specs.Prelude.{◌≡◌, List, [], ◌∷◌, ◌++◌, length, IfOk, OnErr};

use std::alloc::{AllocError, Global};
use std::marker::Model;
use turnstile::Chronicle;

/// The numbers of those who added to it, in order. Contracts see the list.
#[derive(Drop)]
pub struct Tally {
    entries: Vec<u32>,
}

impl Model for Tally {
    ghost use Rattle.std.specs.Prelude.{List, ℕ};

    ghost Value = { List ℕ };

    ghost view = { λ t. t.entries.items };
}

impl Chronicle for Tally {
    ghost use Rattle.tally.specs.Last.{last_is_one};

    type Entry = u32;

    type Charter = ();

    ghost stands = { λ t entries. t ≡ entries };

    ghost charter = { λ t. tt };

    ghost names = { λ number. number };

    ghost lawful = { λ c entries. Unit {0} };

    fn count(&self) -> u64 {
        self.entries.len() as u64
    }

    ghost one_last = { last_is_one };

    ghost empty_is_lawful = { λ c. tt };
}

impl Tally {
    pub fn new(alloc: Global) -> Tally
        ensures { result ≡ [] }
    {
        Tally {
            entries: Vec::new(alloc),
        }
    }

    pub fn add(&mut self, number: u32) -> Result<(), AllocError>
        ensures ok { IfOk result (λ _. self.new ≡ self.old ++ number ∷ []) }
        ensures err { OnErr result (self.new ≡ self.old) }
    {
        self.entries.push(number)?;
        Ok(())
    }

    pub fn entries(&self) -> &[u32]
        ensures { result.now ≡ self.now }
    {
        self.entries.as_slice()
    }
}
