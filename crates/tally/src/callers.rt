//! Callers of a turnstile, whose conditions they meet.
ghost use Rattle.std.specs.Prelude.{◌≡◌, ◌+◌, ◌<◌, ◌≤◌, ℕ, List, [], ◌∷◌, ◌++◌, length, IfOk, OnOk, OnErr};
ghost use Rattle.std.specs.List.{Contains};
ghost use Rattle.std.specs.Thread.{IsSync};
ghost use mathlib.Core.List.{IsPrefix};
ghost use Rattle.turnstile.specs.Passes.{first_pass, IsIdle, OwnSeen};
ghost use Rattle.tally.specs.Has.{Has};

use crate::tally::Tally;
use std::alloc::{AllocError, Global};
use std::sync::Wait;
use std::thread::{Threads, join};
use turnstile::{Chronicle, Pass, Turnstile};

/// A turnstile round an empty tally, and its first pass.
pub fn opened(alloc: Global, shares: u32) -> Result<(Turnstile<Tally>, Pass<Tally>), AllocError>
    requires { (0 < shares) × (shares ≤ 64) }
    ensures turnstile { IfOk result (λ r. r.0.shares ≡ shares) }
    ensures pass { IfOk result (λ r. r.1 ≡ first_pass r.0) }
{
    match Turnstile::new(alloc, Tally::new(alloc), shares) {
        Ok(both) => Ok(both),
        Err(_) => Err(AllocError),
    }
}

/// Enters, adds one entry and leaves. `Err` is want of memory: then the pass has seen no entry of its own that is new.
pub fn add<R: Wait>(
    rt: &R,
    gate: &Turnstile<Tally>,
    pass: &mut Pass<Tally>,
    number: u32,
) -> Result<(), AllocError>
    requires turnstile { pass.old.turnstile ≡ gate.now }
    requires idle { IsIdle pass.old }
    requires own { Contains pass.old.numbers number }
    ensures pass { pass.new ≡ record pass.old { seen = pass.new.seen } }
    ensures seen { IsPrefix pass.old.seen pass.new.seen }
    ensures added { OnOk result ((found : List ℕ) × IsPrefix pass.old.seen found × (pass.new.seen ≡ found ++ number ∷ [])) }
    ensures err { OnErr result (OwnSeen (λ n. n) pass.old.numbers (length pass.old.seen) pass.new.seen) }
{
    let mut held = gate.enter(rt, pass);
    let added = held.get_mut().add(number);
    gate.leave(pass, held);
    added
}

/// Enters and leaves, and adds nothing.
pub fn look<V: Chronicle, R: Wait>(rt: &R, gate: &Turnstile<V>, pass: &mut Pass<V>)
    requires turnstile { pass.old.turnstile ≡ gate.now }
    requires idle { IsIdle pass.old }
    ensures pass { pass.new ≡ record pass.old { seen = pass.new.seen } }
    ensures seen { IsPrefix pass.old.seen pass.new.seen }
    ensures none { OwnSeen V.names pass.old.numbers (length pass.old.seen) pass.new.seen }
{
    let held = gate.enter(rt, pass);
    gate.leave(pass, held);
}

/// Two passes look, on threads of their own, and meet.
pub fn look_beside<V: Chronicle + Send, R: Threads + Wait + Sync>(
    rt: &R,
    gate: &Turnstile<V>,
    mut one: Pass<V>,
    mut other: Pass<V>,
) -> Pass<V>
    requires turnstile { (one.turnstile ≡ gate.now) × (other.turnstile ≡ gate.now) }
    requires idle { IsIdle one × IsIdle other }
    ensures turnstile { result.turnstile ≡ gate.now }
    ensures idle { IsIdle result }
    ensures shares { length result.numbers ≡ length one.numbers + length other.numbers }
{
    let (mut one, other) = join(
        rt,
        || -> Pass<V>
            requires { IsSync R.row × (one.turnstile ≡ gate.now) × IsIdle one }
            ensures { result ≡ record one { seen = result.seen } }
        {
            look(rt, gate, &mut one);
            one
        },
        || -> Pass<V>
            requires { IsSync R.row × (other.turnstile ≡ gate.now) × IsIdle other }
            ensures { result ≡ record other { seen = result.seen } }
        {
            look(rt, gate, &mut other);
            other
        },
    );
    gate.meet(&mut one, other);
    one
}

fn add_times<R: Wait>(
    rt: &R,
    gate: &Turnstile<Tally>,
    pass: &mut Pass<Tally>,
    number: u32,
    times: u32,
)
    requires turnstile { pass.old.turnstile ≡ gate.now }
    requires idle { IsIdle pass.old }
    requires own { Contains pass.old.numbers number }
    ensures pass { pass.new ≡ record pass.old { seen = pass.new.seen } }
{
    for _ in 0..times {
        let _ = add(rt, gate, pass, number);
    }
}

// The greater half of the numbers.
fn halve(gate: &Turnstile<Tally>, pass: &mut Pass<Tally>, first: u32) -> Pass<Tally>
    requires turnstile { pass.old.turnstile ≡ gate.now }
    requires numbers { Has pass.old first (length pass.old.numbers) × (1 < length pass.old.numbers) }
    ensures turnstile { (pass.new.turnstile ≡ gate.now) × (result.turnstile ≡ gate.now) }
    ensures old { Has pass.new first (length pass.new.numbers) × (0 < length pass.new.numbers) }
    ensures new { Has result (first + length pass.new.numbers) (length result.numbers) × (0 < length result.numbers) }
    ensures all { length pass.new.numbers + length result.numbers ≡ length pass.old.numbers }
{
    let half = pass.shares() / 2;
    gate.split(pass, half)
}

fn rejoin(gate: &Turnstile<Tally>, pass: &mut Pass<Tally>, other: Pass<Tally>, first: u32)
    requires turnstile { (pass.old.turnstile ≡ gate.now) × (other.turnstile ≡ gate.now) }
    requires numbers { Has pass.old first (length pass.old.numbers) × Has other (first + length pass.old.numbers) (length other.numbers) }
    ensures turnstile { pass.new.turnstile ≡ gate.now }
    ensures numbers { Has pass.new first (length pass.old.numbers + length other.numbers) }
{
    gate.meet(pass, other);
}

/// Adds so many entries of each number of the pass, each number on a thread of its own. They are fewer where memory
/// runs out.
pub fn add_by_all<R: Threads + Wait + Sync>(
    rt: &R,
    gate: &Turnstile<Tally>,
    mut pass: Pass<Tally>,
    first: u32,
    times: u32,
) -> Pass<Tally>
    requires turnstile { pass.turnstile ≡ gate.now }
    requires numbers { Has pass first (length pass.numbers) × (0 < length pass.numbers) × (first + length pass.numbers ≤ 64) }
    ensures turnstile { result.turnstile ≡ gate.now }
    ensures numbers { Has result first (length pass.numbers) }
{
    if pass.shares() == 1 {
        add_times(rt, gate, &mut pass, first, times);
        return pass;
    }
    let other = halve(gate, &mut pass, first);
    let middle = first + pass.shares();
    let (mut pass, other) = join(
        rt,
        || -> Pass<Tally>
            requires { IsSync R.row × (pass.turnstile ≡ gate.now) × Has pass first (length pass.numbers) × (0 < length pass.numbers) × (first + length pass.numbers ≤ 64) }
            ensures { (result.turnstile ≡ gate.entry.now) × Has result first (length pass.numbers) }
        { add_by_all(rt, gate, pass, first, times) },
        || -> Pass<Tally>
            requires { IsSync R.row × (other.turnstile ≡ gate.now) × Has other middle (length other.numbers) × (0 < length other.numbers) × (middle + length other.numbers ≤ 64) }
            ensures { (result.turnstile ≡ gate.entry.now) × Has result middle (length other.numbers) }
        { add_by_all(rt, gate, other, middle, times) },
    );
    rejoin(gate, &mut pass, other, first);
    pass
}
