ghost use Rattle.cilk_checker.specs.Names.{value_at};
ghost use Rattle.std.specs.Map.{update};
ghost use Rattle.std.specs.Prelude.{◌≡◌, ℕ, List, Option, Some, None, OnOk, OnErr};
ghost use Rattle.std.specs.Str.{bytes_eq};

use std::alloc::{AllocError, Global};
use std::collections::BTreeMap;

/// What each of some names stands for.
#[derive(Drop)]
pub(crate) struct NameMap<'a, V> {
    values: BTreeMap<&'a [u8], V>,
}

impl<'a, V: Copy> NameMap<'a, V> {
    pub(crate) fn new(alloc: Global) -> Self
        ensures { (name : List ℕ) → value_at result.values name ≡ None }
    {
        NameMap {
            values: BTreeMap::new(alloc),
        }
    }

    pub(crate) fn get(&self, name: &[u8]) -> Option<V>
        ensures { result ≡ value_at self.now.values name.now }
    {
        self.values.get(name).copied()
    }

    /// From here on the name stands for the value.
    pub(crate) fn insert(&mut self, name: &'a [u8], value: V) -> Result<(), AllocError>
        ensures ok { OnOk result ((other : List ℕ) → value_at self.new.values other ≡ update bytes_eq (value_at self.old.values) name.now (Some value) other) }
        ensures err { OnErr result ((other : List ℕ) → value_at self.new.values other ≡ value_at self.old.values other) }
    {
        self.values.insert(name, value)?;
        Ok(())
    }

    /// From here on the name stands for nothing.
    pub(crate) fn remove(&mut self, name: &[u8])
        ensures { (other : List ℕ) → value_at self.new.values other ≡ update bytes_eq (value_at self.old.values) name.now None other }
    {
        self.values.remove(name);
    }
}
