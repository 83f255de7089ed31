use crate::{Race, find_race};
use span_tree::{Act, Args, History, Place, Recording};
use std::alloc::Global;
use std::process::Abort;
use std::test::Fail;

// A step of a history that is recorded in serial order.
#[derive(Clone, Copy)]
enum Step {
    Read(u32),
    Write(u32),
    Add(u32),
    Sync,
    Spawn,
    Leave,
}

use Step::{Add, Leave, Read, Spawn, Sync, Write};

fn record(recording: &mut Recording, alloc: Global, step: Step) -> Result<(), Fail> {
    match step {
        Read(word) => recording.act(Act::Read { word, value: 0 })?,
        Write(word) => recording.act(Act::Write { word, value: 0 })?,
        Add(word) => recording.act(Act::Add {
            word,
            old: 0,
            addend: 0,
        })?,
        Sync => recording.act(Act::Sync)?,
        Spawn => {
            recording.spawn(0, Args::new(alloc))?;
        }
        Leave => {
            if recording.row() == 0 {
                return Err("main".into());
            }
            recording.leave();
        }
    }
    Ok(())
}

fn recorded(alloc: Global, steps: &[Step]) -> Result<History, Fail> {
    let mut recording = Recording::new(alloc, 0)?;
    for step in steps {
        record(&mut recording, alloc, *step)?;
    }
    Ok(recording.finish())
}

// The word that an act accesses, and whether it changes it.
fn accessed(act: Option<Act>) -> Option<(u32, bool)> {
    match act? {
        Act::Read { word, .. } => Some((word, false)),
        Act::Write { word, .. } | Act::Add { word, .. } => Some((word, true)),
        Act::Print { .. } | Act::Spawn { .. } | Act::Sync => None,
    }
}

fn race_of(history: &History, first: Place, second: Place) -> Option<Race> {
    let (word, changes) = accessed(history.act(first))?;
    let (other, also_changes) = accessed(history.act(second))?;
    if word != other || !(changes || also_changes) {
        return None;
    }
    if !history.is_place(first) || !history.is_place(second) {
        return None;
    }
    if !history.parallel(first, second) {
        return None;
    }
    Some(Race {
        first,
        second,
        word,
    })
}

// The first race, found by comparing all pairs.
fn first_of_pairs(history: &History) -> Option<Race> {
    for (index, second) in history.order().iter().enumerate() {
        for first in &history.order()[..index] {
            if let Some(race) = race_of(history, *first, *second) {
                return Some(race);
            }
        }
    }
    None
}

fn check(rt: &impl Abort, alloc: Global, steps: &[Step], first: Option<Race>) -> Result<(), Fail> {
    let history = recorded(alloc, steps)?;
    assert_eq!(rt; find_race(alloc, &history)?, first);
    assert_eq!(rt; first_of_pairs(&history), first);
    Ok(())
}

fn race(first: (u32, u32), second: (u32, u32), word: u32) -> Option<Race> {
    Some(Race {
        first: Place {
            row: first.0,
            act: first.1,
        },
        second: Place {
            row: second.0,
            act: second.1,
        },
        word,
    })
}

// The history that docs/HISTORIES.md draws, without its prints. Two accesses race with the read of row 3.
#[test]
fn drawn_history(rt: HostRuntime) -> Result<(), Fail> {
    let steps = [
        Write(5),
        Spawn,
        Write(5),
        Spawn,
        Sync,
        Leave,
        Add(5),
        Sync,
        Leave,
        Spawn,
        Read(5),
        Sync,
        Leave,
        Sync,
        Spawn,
        Write(6),
        Sync,
        Leave,
        Read(5),
        Sync,
    ];
    check(&rt, rt.alloc(), steps.as_slice(), race((1, 0), (3, 0), 5))
}

// The child's read is parallel to the write, and the parent's read behind it is not.
#[test]
fn read_before_the_last_one(rt: HostRuntime) -> Result<(), Fail> {
    let steps = [Spawn, Read(0), Leave, Read(0), Write(0)];
    check(&rt, rt.alloc(), steps.as_slice(), race((1, 0), (0, 2), 0))
}

#[test]
fn sync_between(rt: HostRuntime) -> Result<(), Fail> {
    let steps = [
        Spawn,
        Read(0),
        Add(1),
        Leave,
        Read(0),
        Sync,
        Write(0),
        Write(1),
    ];
    check(&rt, rt.alloc(), steps.as_slice(), None)
}
