ghost use Rattle.std.specs.Prelude.{◌≡◌, IfOk};

use std::alloc::{AllocError, Global};
use std::marker::Model;

/// The name of a file, as it is written in the words. Contracts see the list of its bytes.
#[derive(Debug, Drop)]
pub struct FileName {
    text: String,
}

impl Model for FileName {
    ghost use Rattle.std.specs.Prelude.{List, ℕ, string_bytes};

    ghost Value = { List ℕ };

    ghost view = { λ name. string_bytes name.text };
}

impl FileName {
    /// The name that the text writes.
    pub(crate) fn new(alloc: Global, text: &str) -> Result<Self, AllocError>
        ensures { IfOk result (λ name. name ≡ text.now) }
    {
        Ok(FileName {
            text: String::from_str(alloc, text)?,
        })
    }

    /// The name's text.
    pub fn as_str(&self) -> &str
        ensures { result.now ≡ self.now }
    {
        self.text.as_str()
    }
}

/// A command.
#[derive(Debug, Drop)]
pub enum Command {
    Offline(Offline),
}

/// A command that starts no threads: the program in `file` is checked; or it is run as its serial elision, which may make
/// `budget` ticks; or it is run in this way, and the first race of the run is looked for.
#[derive(Debug, Drop)]
pub enum Offline {
    Check { file: FileName },
    Serial { file: FileName, budget: u64 },
    Race { file: FileName, budget: u64 },
}
