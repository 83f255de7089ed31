ghost use Rattle.std.specs.Prelude.{◌≡◌, ℕ, ◌+◌, ◌<◌, ◌≤◌, ◌⊎◌, ◌↔◌, List, [], ◌++◌, Option, Some, Bool, length, take, min, unwrap_or, if◌then◌else◌, is_ok, IfOk, OnOk, OnErr, IsErr, IfSome, IsSome, IsTrue, IsFalse, vec_len};
ghost use Rattle.outside.specs.Device.{Rose, one_more};
ghost use Rattle.outside.specs.MemSink.{SinkState, planned, has_room, with_failure, with_piece};

use crate::Failed;
use crate::sink::Sink;
use std::alloc::{AllocError, Global};
use std::marker::Model;

/// Takes bytes into memory, for tests. Puts with given numbers fail. Only making it takes memory.
#[derive(Debug, Drop)]
pub struct MemSink {
    bytes: Vec<u8>,
    room: usize,
    failing: Vec<(u64, usize)>,
    puts: u64,
    faults: u64,
}

impl Model for MemSink {
    ghost use Rattle.std.specs.Prelude.{◌≤◌, vec_len, vec_capacity};
    ghost use Rattle.outside.specs.MemSink.{SinkState};

    ghost Value = { SinkState };

    ghost view = { λ s. record {
      bytes = s.bytes.items;
      room = s.room;
      failing = s.failing.items;
      puts = s.puts;
      faults = s.faults;
    } };

    ghost invariant = { λ s. (vec_len s.bytes ≤ s.room) × (s.room ≤ vec_capacity s.bytes) };
}

impl MemSink {
    /// A sink with room for this many bytes. The puts with the numbers in `failing`, counted from 1, fail and
    /// keep that many first bytes of their piece. Where a number stands twice the first pair counts.
    pub fn new(
        alloc: Global,
        room: usize,
        failing: Vec<(u64, usize)>,
    ) -> Result<MemSink, AllocError>
        ensures empty { IfOk result (λ sink. sink.bytes ≡ []) }
        ensures room { IfOk result (λ sink. sink.room ≡ room) }
        ensures failing { IfOk result (λ sink. sink.failing ≡ failing.items) }
        ensures no_puts { IfOk result (λ sink. sink.puts ≡ 0) }
        ensures no_faults { IfOk result (λ sink. sink.faults ≡ 0) }
    {
        let bytes = Vec::with_capacity(alloc, room)?;
        Ok(MemSink {
            bytes,
            room,
            failing,
            puts: 0,
            faults: 0,
        })
    }

    /// All bytes that were put.
    pub fn held(&self) -> &[u8]
        ensures { result.now ≡ self.now.bytes }
    {
        self.bytes.as_slice()
    }

    /// How many puts there were. The count stands still at the end of `u64`.
    pub fn puts(&self) -> u64
        ensures { result ≡ self.now.puts }
    {
        self.puts
    }

    // How many bytes the next put keeps, where it is one that fails.
    fn planned(&self) -> Option<usize>
        ensures { result ≡ planned self.now }
    {
        let put = self.puts.saturating_add(1);
        self.failing
            .iter()
            .find(|plan| plan.0 == put)
            .map(|plan| plan.1)
    }

    // Keeps bytes where there is room for them.
    fn keep(&mut self, bytes: &[u8]) -> bool
        ensures room { IsTrue result ↔ (length self.old.bytes + length bytes.now ≤ self.old.room) }
        ensures after { self.new ≡ record self.old { bytes = if result then self.old.bytes ++ bytes.now else self.old.bytes } }
    {
        bytes.len() <= self.room - self.bytes.len() && self.bytes.extend_from_slice(bytes).is_ok()
    }

    fn count_put(&mut self, failed: bool)
        ensures after { self.new ≡ record self.old { puts = one_more self.old.puts; faults = if failed then one_more self.old.faults else self.old.faults } }
        ensures no_fall { self.old.faults ≤ self.new.faults }
    {
        self.puts = self.puts.saturating_add(1);
        if failed {
            self.faults = self.faults.saturating_add(1);
        }
    }
}

impl Sink for MemSink {
    ghost held = { λ s. Some s.bytes };

    ghost faults = { λ s. s.faults };

    ghost took = { λ s piece t. t ≡ with_piece s piece };

    ghost failed = { λ s piece t. t ≡ with_failure s piece };

    fn put(&mut self, piece: &[u8]) -> Result<(), Failed>
        ensures faults { self.old.faults ≤ self.new.faults }
        ensures cause { OnErr result (Rose self.old.faults self.new.faults) }
        ensures whole { OnOk result (IfSome (Some self.old.bytes) (λ before. Some self.new.bytes ≡ Some (before ++ piece.now))) }
        ensures part { OnErr result (IfSome (Some self.old.bytes) (λ before.
            (kept : ℕ) × (Some self.new.bytes ≡ Some (before ++ take kept piece.now)))) }

        // It keeps the whole piece, or as much of it as the put that fails is to keep, or nothing where
        // there is no room for that; it is counted, and nothing else changes.
        ensures took { OnOk result (self.new ≡ with_piece self.old piece.now) }
        ensures failed { OnErr result (self.new ≡ with_failure self.old piece.now) }

        // It fails exactly at the puts with the given numbers, and where there is no room for what it is to keep.
        ensures fails { IsErr result ↔ (IsSome (planned self.old) ⊎ IsFalse (has_room self.old piece.now)) }
    {
        let planned = self.planned();
        let wanted = planned.unwrap_or(piece.len()).min(piece.len());
        let is_kept = self.keep(&piece[..wanted]);
        let has_failed = planned.is_some() || !is_kept;
        self.count_put(has_failed);
        if has_failed { Err(Failed) } else { Ok(()) }
    }
}
