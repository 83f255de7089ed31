ghost use Rattle.std.specs.Prelude.{◌≡◌, ℕ, ◌<◌, ◌≤◌, List, Option, None, length, take, string_bytes, if◌then◌else◌, is_ok, IfOk, OnErr, IfSome, IsSomeAnd};
ghost use Rattle.std.specs.FinMap as map;
ghost use Rattle.std.specs.Io.KnownBytes.{Consumes, IsAtEnd};
ghost use Rattle.outside.specs.Device.{Rose, one_more};
ghost use Rattle.outside.specs.RealShelf.{IsReadTo, ReadsOn};
ghost use Rattle.outside.specs.Shelf.{Texts, GivesFrom};

use crate::Failed;
use crate::retrying::read_some;
use crate::shelf::Shelf;
use std::fs;
use std::io::{Read, Result as IoResult};
use std::rt::Files;

// A file that is open, and the place that reads have reached in it.
#[derive(Drop)]
struct OpenText<F> {
    name: String,
    file: F,
    reached: u64,
}

/// The files of the system, by their paths. It tells no texts, and all names share one count of faults.
#[derive(Drop)]
pub struct RealShelf<R: Files> {
    rt: R,
    current: Option<OpenText<R::File>>,
    faults: u64,
}

impl<R: Files + AllocGlobal> RealShelf<R> {
    /// A shelf of the files that this runtime reaches.
    pub fn new(rt: R) -> RealShelf<R>
        ensures { result.faults ≡ 0 }
    {
        RealShelf {
            rt,
            current: None,
            faults: 0,
        }
    }

    // A call that fails leaves no file open, since the place that it reached is not known.
    fn read_from(&mut self, name: &str, at: u64, into: &mut [u8]) -> IoResult<usize>
        ensures within { IfOk result (λ count. count ≤ length into.old) }
        ensures ended { IfOk result (λ count. count ≡ 0 → 0 < length into.old → IsSomeAnd self.new.current (λ text. IsAtEnd (R.File.remaining text.file))) }
        ensures reached { IfOk result (λ count. IsSomeAnd self.new.current (λ text. IsReadTo (string_bytes text.name) text.reached name.now at count)) }
        ensures goes_on { IfOk result (λ count. IfSome self.old.current (λ before. ReadsOn (string_bytes before.name) before.reached name.now at →
            IsSomeAnd self.new.current (λ after. Consumes (R.File.remaining before.file) (R.File.remaining after.file) (take count into.new)))) }
        ensures closed { OnErr result (self.new.current ≡ None) }
        ensures faults { self.new.faults ≡ self.old.faults }
    {
        let mut text = self.text_at(name, at)?;
        let count = if text.reached < at {
            0
        } else {
            read_some(&mut text.file, into)?
        };
        text.reached = text.reached.saturating_add(count as u64);
        self.current = Some(text);
        Ok(count)
    }

    // The named file, read up to a place, or to its end where that comes first. At place 0 it is opened anew.
    fn text_at(&mut self, name: &str, at: u64) -> IoResult<OpenText<R::File>>
        ensures named { IfOk result (λ text. string_bytes text.name ≡ name.now) }
        ensures within { IfOk result (λ text. text.reached ≤ at) }
        ensures ended { IfOk result (λ text. text.reached < at → IsAtEnd (R.File.remaining text.file)) }
        ensures goes_on { IfOk result (λ text. IfSome self.old.current (λ before. ReadsOn (string_bytes before.name) before.reached name.now at → text ≡ before)) }
        ensures taken { self.new.current ≡ None }
        ensures faults { self.new.faults ≡ self.old.faults }
    {
        if let Some(text) = self.current.take() {
            if at != 0 && text.reached == at && text.name.as_str() == name {
                return Ok(text);
            }
        }
        let name = String::from_str(self.rt.alloc(), name)?;
        OpenText::read_up_to(fs::open(&self.rt, name.as_str())?, name, at)
    }
}

impl<F: Read + Drop> OpenText<F> {
    // A file that is just opened, read up to a place, or to its end where that comes first.
    fn read_up_to(file: F, name: String, at: u64) -> IoResult<Self>
        ensures named { IfOk result (λ text. text.name ≡ name) }
        ensures passed { IfOk result (λ text. (passed : List ℕ) × (length passed ≡ text.reached) × Consumes (F.remaining file) (F.remaining text.file) passed) }
        ensures within { IfOk result (λ text. text.reached ≤ at) }
        ensures ended { IfOk result (λ text. text.reached < at → IsAtEnd (F.remaining text.file)) }
    {
        let mut text = OpenText {
            name,
            file,
            reached: 0,
        };
        let mut passed = [0; 4096];
        while text.reached < at {
            let most = (at - text.reached).min(4096) as usize;
            let count = read_some(&mut text.file, &mut passed[..most])?;
            if count == 0 {
                return Ok(text);
            }
            text.reached += count as u64;
        }
        Ok(text)
    }
}

impl<R: Files + AllocGlobal> Shelf for RealShelf<R> {
    ghost texts = { λ _. None };

    ghost faults = { λ s _. s.faults };

    fn read_at(&mut self, name: &str, at: u64, into: &mut [u8]) -> Result<usize, Failed>
        ensures faults { (other : List ℕ) → self.old.faults ≤ self.new.faults }
        ensures cause { OnErr result (Rose self.old.faults self.new.faults) }
        ensures within { IfOk result (λ count. count ≤ length into.old) }

        // It gives no bytes only at the end of the file, or where there is no room for them.
        ensures ended { IfOk result (λ count. count ≡ 0 → 0 < length into.old → IsSomeAnd self.new.current (λ text. IsAtEnd (R.File.remaining text.file))) }

        // The file of this name is then open, and read up to the end of what was given.
        ensures reached { IfOk result (λ count. IsSomeAnd self.new.current (λ text. IsReadTo (string_bytes text.name) text.reached name.now at count)) }

        // Where the call before ended there in this file, the bytes that come next in it are given.
        ensures goes_on { IfOk result (λ count. IfSome self.old.current (λ before. ReadsOn (string_bytes before.name) before.reached name.now at →
            IsSomeAnd self.new.current (λ after. Consumes (R.File.remaining before.file) (R.File.remaining after.file) (take count into.new)))) }

        // A call that fails is one fault.
        ensures counted { self.new.faults ≡ (if is_ok result then self.old.faults else one_more self.old.faults) }
    {
        match self.read_from(name, at, into) {
            Ok(count) => Ok(count),
            Err(_) => {
                self.faults = self.faults.saturating_add(1);
                Err(Failed)
            }
        }
    }
}
