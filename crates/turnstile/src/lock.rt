//! The words and the slot of a turnstile, and the steps on them.
ghost use Rattle.std.specs.Prelude.{◌≡◌, ℕ, ◌+◌, ◌%◌, ◌^◌, ◌<◌, ◌≤◌, true, false, List, [], ◌∷◌, length, Some, None, IfOk, IfErr};
ghost use Rattle.std.specs.List.Sorted.{IsStrictlyIncreasing};
ghost use mathlib.Core.List.{IsPrefix};
ghost use Rattle.turnstile.specs.Rule.{opened};
ghost use Rattle.turnstile.specs.Plays.{with_ticket, with_turn, with_seen, without_ticket, without_olds, kept_part, given_part, united, Finds, Next};
ghost use Rattle.turnstile.specs.Seats.{IsResting, IsWaiting};

use crate::chronicle::Chronicle;
use crate::plays::{Amount, Count, Cut, Draw, Serve, Settle, Turn, Unite};
use crate::view::{LockSeat, LockTable, Opening};
use atomic_table::{Refused, Table};
use std::alloc::{AllocFailed, Global};
use std::snapshot::Snapshot;
use std::sync::Wait;
use std::thread;

const TICKETS: usize = 0;

const SERVING: usize = 1;

const COUNT: usize = 2;

/// Three words, and a slot with the value.
#[derive(Drop)]
pub(crate) struct Lock<V: Chronicle> {
    pub(crate) table: LockTable<V>,
    ghost sized: { (table.shared.table_id.words ≡ 3) × (table.shared.table_id.slots ≡ 1) },
}

impl<V: Chronicle> Lock<V> {
    /// `Err` is want of memory.
    pub(crate) fn new(alloc: Global, value: V, shares: u32) -> Result<(Lock<V>, LockSeat<V>), V>
        requires shares { (0 < shares) × (shares ≤ 64) }
        requires value { V.stands value [] }
        ensures opening { IfOk result (λ r. (r.0.table.shared.key.shares ≡ shares) × (V.charter r.0.table.shared.key.value.value ≡ V.charter value)) }
        ensures seat { IfOk result (λ r. (r.1.table_id ≡ r.0.table.shared.table_id) × (r.1.me ≡ (opened shares (V.charter value), []))) }
        ensures err { IfErr result (λ v. v ≡ value) }
    {
        let opening = Opening {
            shares,
            value: Snapshot::of(&value),
        };
        let slots = row_of(alloc, value)?;
        match Table::new(alloc, &[0, 0, 0], slots, &opening) {
            Ok((table, seat)) => Ok((Lock { table }, seat)),
            Err(Refused { slots }) => Err(only(slots)),
        }
    }

    /// Of a seat with all numbers: the value, which stands for the list that the seat has seen.
    pub(crate) fn close(self, seat: LockSeat<V>) -> V
        requires seat { (seat.table_id ≡ self.table.shared.table_id) × IsResting seat.me }
        requires all { length seat.me.0.numbers ≡ seat.me.0.shares }
        ensures { V.stands result seat.me.0.seen × (seat.me.0.charter ≡ V.charter result ∷ []) }
    {
        let Lock { table } = self;
        let mut closed = table.close_with(seat);
        let value = closed.take(0);
        closed.free();
        match value {
            Some(value) => value,
            None => unreachable!(),
        }
    }

    /// Draws a ticket, and answers its number modulo 2^64.
    pub(crate) fn draw(&self, seat: &mut LockSeat<V>) -> u64
        requires seat { (seat.old.table_id ≡ self.now.table.shared.table_id) × IsResting seat.old.me }
        ensures seat { (seat.new.table_id ≡ seat.old.table_id) × (seat.new.id ≡ seat.old.id) }
        ensures drawn { (t : ℕ) × (seat.new.me ≡ (with_ticket seat.old.me.0 t, seat.old.me.1)) × (result ≡ t % 2 ^ 64) }
    {
        self.table.shared.fetch_add::<Draw>(seat, TICKETS, 1)
    }

    /// Waits until the ticket is served. The slot is then out with the seat.
    pub(crate) fn await_turn<R: Wait>(&self, rt: &R, seat: &mut LockSeat<V>, ticket: u64)
        requires seat { (seat.old.table_id ≡ self.now.table.shared.table_id) × IsWaiting seat.old.me × (ticket ≡ seat.old.me.0.ticket % 2 ^ 64) }
        ensures seat { (seat.new.table_id ≡ seat.old.table_id) × (seat.new.id ≡ seat.old.id) }
        ensures found { (x : V) × (found : List V.Entry) × (seat.new.me ≡ (with_turn seat.old.me.0 found, (0, Some x) ∷ [])) × Finds V.stands V.charter V.names V.lawful seat.old.me.0 x found }
    {
        for _ in rt.forever() {
            let served = self.table.shared.load::<Turn<V>>(seat, SERVING);
            if served == ticket {
                return;
            }
            thread::yield_now();
        }
        unreachable!()
    }

    /// Takes the value out of the slot.
    pub(crate) fn take(&self, seat: &mut LockSeat<V>) -> V
        requires seat { (seat.old.table_id ≡ self.now.table.shared.table_id) × ((x : V) × (seat.old.me.1 ≡ (0, Some x) ∷ [])) }
        ensures seat { (seat.new.table_id ≡ seat.old.table_id) × (seat.new.id ≡ seat.old.id) }
        ensures value { (seat.old.me.1 ≡ (0, Some result) ∷ []) × (seat.new.me ≡ (seat.old.me.0, (0, None) ∷ [])) }
    {
        let nothing: Option<V> = None;
        match self.table.shared.exchange(seat, 0, nothing) {
            Some(value) => value,
            None => unreachable!(),
        }
    }

    /// Puts the value back into the slot.
    pub(crate) fn put(&self, seat: &mut LockSeat<V>, value: V)
        requires seat { (seat.old.table_id ≡ self.now.table.shared.table_id) × (seat.old.me.1 ≡ (0, None) ∷ []) }
        ensures seat { (seat.new.table_id ≡ seat.old.table_id) × (seat.new.id ≡ seat.old.id) }
        ensures value { seat.new.me ≡ (seat.old.me.0, (0, Some value) ∷ []) }
    {
        match self.table.shared.exchange(seat, 0, Some(value)) {
            None => {}
            Some(_) => unreachable!(),
        }
    }

    /// Counts the entry that was added, or none. The seat has then seen the list for which the value in its slot stands.
    pub(crate) fn count_on(&self, seat: &mut LockSeat<V>, added: u64)
        requires seat { (seat.old.table_id ≡ self.now.table.shared.table_id) × (seat.old.me.0.holds ≡ true) × (seat.old.me.0.spent ≡ false) }
        requires next { (x : V) × (next : List V.Entry) × (seat.old.me.1 ≡ (0, Some x) ∷ []) × Next V.stands V.names V.lawful seat.old.me.0 x added next × (length next < 2 ^ 64) }
        ensures seat { (seat.new.table_id ≡ seat.old.table_id) × (seat.new.id ≡ seat.old.id) }
        ensures counted { (next : List V.Entry) × (seat.new.me ≡ (with_seen seat.old.me.0 next, seat.old.me.1)) × ((x : V) → seat.old.me.1 ≡ (0, Some x) ∷ [] → V.stands x next) × IsPrefix seat.old.me.0.found next × (length next ≡ length seat.old.me.0.found + added) × (added ≤ 1) }
    {
        self.table.shared.fetch_add::<Count<V>>(seat, COUNT, added);
    }

    /// Serves the next ticket. The slot is then at home.
    pub(crate) fn serve(&self, seat: &mut LockSeat<V>)
        requires seat { (seat.old.table_id ≡ self.now.table.shared.table_id) × (seat.old.me.0.holds ≡ true) × (seat.old.me.0.spent ≡ false) }
        requires value { (x : V) × (seat.old.me.1 ≡ (0, Some x) ∷ []) × V.stands x seat.old.me.0.found × (seat.old.me.0.charter ≡ V.charter x ∷ []) }
        ensures seat { (seat.new.table_id ≡ seat.old.table_id) × (seat.new.id ≡ seat.old.id) }
        ensures served { seat.new.me ≡ (without_ticket seat.old.me.0, []) }
    {
        self.table.shared.fetch_add::<Serve>(seat, SERVING, 1);
    }

    /// Cuts as many of the greatest numbers off.
    pub(crate) fn cut<J: Amount>(&self, seat: &mut LockSeat<V>, shares: u32) -> LockSeat<V>
        requires seat { (seat.old.table_id ≡ self.now.table.shared.table_id) × IsResting seat.old.me }
        requires shares { (shares ≡ J.amount) × (0 < shares) × (shares < length seat.old.me.0.numbers) }
        ensures seat { (seat.new.table_id ≡ seat.old.table_id) × (seat.new.id ≡ seat.old.id) × (seat.new.me ≡ (kept_part shares seat.old.me.0, seat.old.me.1)) }
        ensures new { (result.table_id ≡ seat.old.table_id) × (result.me ≡ (given_part shares seat.old.me.0, [])) }
    {
        self.table.shared.split_seat::<Cut<J>>(seat)
    }

    /// Joins two seats, and looks at a word, at which the rule tells what it says of them.
    pub(crate) fn unite(&self, seat: &mut LockSeat<V>, other: LockSeat<V>)
        requires seat { (seat.old.table_id ≡ self.now.table.shared.table_id) × IsResting seat.old.me }
        requires other { (other.table_id ≡ self.now.table.shared.table_id) × IsResting other.me }
        ensures seat { (seat.new.table_id ≡ seat.old.table_id) × (seat.new.id ≡ seat.old.id) × (seat.new.me ≡ (without_olds (united seat.old.me.0 other.me.0), seat.old.me.1)) }
        ensures olds { IsPrefix seat.old.me.0.seen seat.new.me.0.seen × IsPrefix other.me.0.seen seat.new.me.0.seen }
        ensures numbers { (length seat.new.me.0.numbers ≤ 64) × IsStrictlyIncreasing seat.new.me.0.numbers }
    {
        self.table.shared.join_seat::<Unite>(seat, other);
        self.table.shared.load::<Settle>(seat, SERVING);
    }
}

// The one value of a list of one.
fn only<V>(mut slots: Vec<Option<V>>) -> V
    requires { (x : V) × (slots.items ≡ Some x ∷ []) }
    ensures { slots.items ≡ Some result ∷ [] }
{
    let last = slots.pop();
    slots.destroy_empty();
    match last {
        Some(Some(value)) => value,
        _ => unreachable!(),
    }
}

// A list of one value.
fn row_of<V>(alloc: Global, value: V) -> Result<Vec<Option<V>>, V>
    ensures ok { IfOk result (λ r. r.items ≡ Some value ∷ []) }
    ensures err { IfErr result (λ v. v ≡ value) }
{
    let mut slots = Vec::new(alloc);
    match slots.push(Some(value)) {
        Ok(()) => Ok(slots),
        Err(failed) => {
            slots.destroy_empty();
            let AllocFailed { value } = failed;
            match value {
                Some(value) => Err(value),
                None => unreachable!(),
            }
        }
    }
}
