ghost use Rattle.cilk_checker.specs.Sets.{set_of};
ghost use Rattle.cilk_tree.specs.Lawful.Pending.{none, both, with_local};
ghost use Rattle.std.specs.List.{list_any};
ghost use Rattle.std.specs.Prelude.{◌≡◌, ◌<◌, ◌≤◌, Some, IfOk, OnOk, length};

use std::alloc::{AllocError, Global};

/// The locals that a spawn may still set, at a point of a function: each local by its number.
#[derive(Debug, Drop)]
pub(crate) struct Pending {
    flags: Vec<bool>,
}

impl Pending {
    /// No local.
    pub(crate) fn new(alloc: Global) -> Self
        ensures { set_of result ≡ none }
    {
        Pending {
            flags: Vec::new(alloc),
        }
    }

    /// The same locals once more.
    pub(crate) fn copy(&self, alloc: Global) -> Result<Self, AllocError>
        ensures { IfOk result (λ copy. set_of copy ≡ set_of self.now) }
    {
        Ok(Pending {
            flags: Vec::from_slice(alloc, self.flags.as_slice())?,
        })
    }

    /// Whether one of these locals is pending.
    pub(crate) fn has_any(&self, locals: &[usize]) -> bool
        ensures { result ≡ list_any (set_of self.now) locals.now }
    {
        locals.iter().any(|local| self.has(*local))
    }

    fn has(&self, local: usize) -> bool
        ensures { result ≡ set_of self.now local }
    {
        self.flags.get(local).copied().unwrap_or(false)
    }

    pub(crate) fn clear(&mut self)
        ensures { set_of self.new ≡ none }
    {
        self.flags.clear();
    }

    pub(crate) fn insert(&mut self, local: usize) -> Result<(), AllocError>
        ensures { OnOk result (set_of self.new ≡ with_local (Some local) (set_of self.old)) }
    {
        self.make_room(local)?;
        self.flags[local] = true;
        Ok(())
    }

    fn make_room(&mut self, local: usize) -> Result<(), AllocError>
        ensures same { OnOk result (set_of self.new ≡ set_of self.old) }
        ensures room { OnOk result (local < length self.new.flags.items) }
    {
        while self.flags.as_slice().len() <= local {
            self.flags.push(false)?;
        }
        Ok(())
    }

    /// Adds each of those locals.
    pub(crate) fn insert_all(&mut self, other: &Pending) -> Result<(), AllocError>
        ensures { OnOk result (set_of self.new ≡ both (set_of self.old) (set_of other.now)) }
    {
        for (local, pending) in other.flags.as_slice().iter().enumerate() {
            if *pending {
                self.insert(local)?;
            }
        }
        Ok(())
    }
}
