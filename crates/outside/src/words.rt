ghost use Rattle.std.specs.Prelude.{◌≡◌, [], ◌∷◌, ◌++◌, OnOk, OnErr};

use std::alloc::{AllocError, Global};
use std::marker::Model;

/// A list of values. Contracts see the list.
#[derive(Debug, Drop)]
pub struct Words {
    values: Vec<i64>,
}

impl Model for Words {
    ghost use Rattle.std.specs.Prelude.{List, ℤ};

    ghost Value = { List ℤ };

    ghost view = { λ w. w.values.items };
}

impl Words {
    /// A list without values.
    pub fn new(alloc: Global) -> Self
        ensures { result ≡ [] }
    {
        Words {
            values: Vec::new(alloc),
        }
    }

    /// Adds a value at the end. Where memory is refused the list stays as it was.
    pub fn push(&mut self, item: i64) -> Result<(), AllocError>
        ensures ok { OnOk result (self.new ≡ self.old ++ item ∷ []) }
        ensures err { OnErr result (self.new ≡ self.old) }
    {
        self.values.push(item)?;
        Ok(())
    }

    /// The values.
    pub fn items(&self) -> &[i64]
        ensures { result.now ≡ self.now }
    {
        self.values.as_slice()
    }
}
