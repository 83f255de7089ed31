use crate::{add, add_by_all, look, look_beside, opened};
use std::test::Fail;

fn count(entries: &[u32], number: u32) -> usize {
    entries.iter().filter(|e| **e == number).count()
}

#[test]
fn two_passes_add_one_entry_each(rt: HostRuntime) -> Result<(), Fail> {
    let (gate, pass) = opened(rt.alloc(), 2)?;
    let pass = add_by_all(&rt, &gate, pass, 0, 1);
    let tally = gate.close(pass);
    assert_eq!(rt; tally.entries().len(), 2);
    assert_eq!(rt; count(tally.entries(), 0), 1);
    assert_eq!(rt; count(tally.entries(), 1), 1);
    Ok(())
}

#[test]
fn sixteen_passes_add_a_hundred_entries_each(rt: HostRuntime) -> Result<(), Fail> {
    let (gate, pass) = opened(rt.alloc(), 16)?;
    let pass = add_by_all(&rt, &gate, pass, 0, 100);
    let tally = gate.close(pass);
    assert_eq!(rt; tally.entries().len(), 1600);
    for number in 0..16u32 {
        assert_eq!(rt; count(tally.entries(), number), 100);
    }
    Ok(())
}

#[test]
fn a_pass_leaves_without_an_entry(rt: HostRuntime) -> Result<(), Fail> {
    let (gate, mut pass) = opened(rt.alloc(), 1)?;
    look(&rt, &gate, &mut pass);
    add(&rt, &gate, &mut pass, 0)?;
    look(&rt, &gate, &mut pass);
    let held = gate.enter(&rt, &mut pass);
    assert_eq!(rt; held.get().entries(), [0].as_slice());
    gate.leave(&mut pass, held);
    assert_eq!(rt; gate.close(pass).entries(), [0].as_slice());
    Ok(())
}

#[test]
fn meets_one_that_has_seen_more(rt: HostRuntime) -> Result<(), Fail> {
    let (gate, mut pass) = opened(rt.alloc(), 2)?;
    let mut other = gate.split(&mut pass, 1);
    add(&rt, &gate, &mut other, 1)?;
    gate.meet(&mut pass, other);
    assert_eq!(rt; pass.shares(), 2);
    assert_eq!(rt; gate.close(pass).entries(), [1].as_slice());
    Ok(())
}

#[test]
fn meets_one_that_has_seen_less(rt: HostRuntime) -> Result<(), Fail> {
    let (gate, mut pass) = opened(rt.alloc(), 2)?;
    let mut other = gate.split(&mut pass, 1);
    add(&rt, &gate, &mut other, 1)?;
    gate.meet(&mut other, pass);
    assert_eq!(rt; other.shares(), 2);
    assert_eq!(rt; gate.close(other).entries(), [1].as_slice());
    Ok(())
}

#[test]
fn closes_after_a_split_and_a_meeting(rt: HostRuntime) -> Result<(), Fail> {
    let (gate, mut pass) = opened(rt.alloc(), 64)?;
    let other = gate.split(&mut pass, 63);
    assert_eq!(rt; pass.shares(), 1);
    assert_eq!(rt; other.shares(), 63);
    gate.meet(&mut pass, other);
    assert_eq!(rt; gate.close(pass).entries().len(), 0);
    Ok(())
}

#[test]
fn two_passes_look_on_threads(rt: HostRuntime) -> Result<(), Fail> {
    let (gate, mut pass) = opened(rt.alloc(), 2)?;
    add(&rt, &gate, &mut pass, 0)?;
    let other = gate.split(&mut pass, 1);
    let pass = look_beside(&rt, &gate, pass, other);
    assert_eq!(rt; gate.close(pass).entries(), [0].as_slice());
    Ok(())
}
