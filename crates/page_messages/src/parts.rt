ghost use Rattle.std.specs.Prelude.{◌≡◌, [], ◌∷◌, ◌++◌, OnOk, OnErr, IfOk};

use crate::post::copied;
use outside::Words;
use sqlite_items::Items;
use std::alloc::{AllocError, Global};
use std::marker::Model;

/// The marked words of one page.
#[derive(Debug, Drop)]
pub struct Part {
    pub page: u32,
    /// Bit k marks word k.
    pub mask: u64,
    /// As many words as a page has, word k of the page at place k.
    pub words: Words,
}

impl Part {
    pub(crate) fn copy(&self, alloc: Global) -> Result<Part, AllocError>
        ensures { IfOk result (λ part. part ≡ self.now) }
    {
        Ok(Part {
            page: self.page,
            mask: self.mask,
            words: copied(alloc, self.words.items())?,
        })
    }
}

/// A list of parts. Contracts see the list.
#[derive(Debug, Drop)]
pub struct Parts {
    parts: Items<Part>,
}

impl Model for Parts {
    ghost use Rattle.std.specs.Prelude.{List};
    ghost use Rattle.page_messages.specs.declared.parts.Part.{Part};

    ghost Value = { List Part };

    ghost view = { λ p. p.parts };
}

impl Parts {
    /// A list without parts.
    pub fn new(alloc: Global) -> Self
        ensures { result ≡ [] }
    {
        Parts {
            parts: Items::new(alloc),
        }
    }

    /// Adds a part at the end. Where memory is refused the list stays as it was.
    pub fn push(&mut self, item: Part) -> Result<(), AllocError>
        ensures ok { OnOk result (self.new ≡ self.old ++ item ∷ []) }
        ensures err { OnErr result (self.new ≡ self.old) }
    {
        self.parts.push(item)?;
        Ok(())
    }

    /// The parts.
    pub fn items(&self) -> &[Part]
        ensures { result.now ≡ self.now }
    {
        self.parts.as_slice()
    }
}

/// A list of parts like these.
pub(crate) fn copied_parts(alloc: Global, parts: &[Part]) -> Result<Parts, AllocError>
    ensures { IfOk result (λ copies. copies ≡ parts.now) }
{
    let mut copies = Parts::new(alloc);
    for part in parts {
        copies.push(part.copy(alloc)?)?;
    }
    Ok(copies)
}
