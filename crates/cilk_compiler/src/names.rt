ghost use Rattle.cilk_compiler.specs.Numbering.{IsNumbering, number_in};
ghost use Rattle.std.specs.Prelude.{◌≡◌, ℕ, List, [], ◌∷◌, ◌++◌, OnOk};

use std::alloc::{AllocError, Global};
use std::collections::BTreeMap;

/// Names, each with the number of names before the first that is the same.
#[derive(Drop)]
pub(crate) struct Names<'a> {
    count: u32,
    numbers: BTreeMap<&'a [u8], u32>,
}

impl<'a> Names<'a> {
    pub(crate) fn new(alloc: Global) -> Self
        ensures { IsNumbering result [] }
    {
        Names {
            count: 0,
            numbers: BTreeMap::new(alloc),
        }
    }

    /// Adds a name behind the others. Where it is there already it keeps its number.
    pub(crate) fn add(&mut self, name: &'a [u8]) -> Result<(), AllocError>
        ensures { OnOk result ((names : List (List ℕ)) → IsNumbering self.old names → IsNumbering self.new (names ++ name.now ∷ [])) }
    {
        let number = self.count;
        self.count = number.checked_add(1).ok_or(AllocError)?;
        if self.numbers.get(name).is_some() {
            return Ok(());
        }
        self.numbers.insert(name, number)?;
        Ok(())
    }

    /// The number of the name, or how many names there are.
    pub(crate) fn number(&self, name: &[u8]) -> u32
        ensures { (names : List (List ℕ)) → IsNumbering self.now names → result ≡ number_in names name.now }
    {
        self.numbers.get(name).copied().unwrap_or(self.count)
    }
}
