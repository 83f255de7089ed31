use crate::{Act, Args, History, Place, Recording};
use std::alloc::Global;
use std::test::Fail;

fn at(row: u32, act: u32) -> Place {
    Place { row, act }
}

fn note(recording: &mut Recording, value: i64) -> Result<(), Fail> {
    recording.act(Act::Print { value })?;
    Ok(())
}

fn sync(recording: &mut Recording) -> Result<(), Fail> {
    recording.act(Act::Sync)?;
    Ok(())
}

fn spawn(recording: &mut Recording, alloc: Global) -> Result<(), Fail> {
    recording.spawn(1, Args::new(alloc))?;
    Ok(())
}

// The row that runs ends with a Sync.
fn end(recording: &mut Recording) -> Result<(), Fail> {
    sync(recording)?;
    if recording.row() == 0 {
        return Err("main".into());
    }
    recording.leave();
    Ok(())
}

// The history that docs/HISTORIES.md draws. Each print has ten times its row and its index as value.
fn drawn(alloc: Global) -> Result<History, Fail> {
    let mut recording = Recording::new(alloc, 0)?;
    let main = &mut recording;
    main.act(Act::Write { word: 5, value: 1 })?;
    spawn(main, alloc)?;
    main.act(Act::Write { word: 5, value: 2 })?;
    spawn(main, alloc)?;
    note(main, 20)?;
    end(main)?;
    main.act(Act::Add {
        word: 5,
        old: 2,
        addend: 3,
    })?;
    end(main)?;
    note(main, 2)?;
    spawn(main, alloc)?;
    main.act(Act::Read { word: 5, value: 5 })?;
    end(main)?;
    sync(main)?;
    spawn(main, alloc)?;
    main.act(Act::Write { word: 6, value: 4 })?;
    end(main)?;
    main.act(Act::Read { word: 5, value: 5 })?;
    note(main, 7)?;
    sync(main)?;
    Ok(recording.finish())
}

fn is_parallel(history: &History, x: Place, y: Place) -> Result<bool, Fail> {
    if !history.is_place(x) || !history.is_place(y) {
        return Err("no place".into());
    }
    Ok(history.parallel(x, y))
}

fn is_before(history: &History, x: Place, y: Place) -> Result<bool, Fail> {
    if !history.is_place(x) || !history.is_place(y) {
        return Err("no place".into());
    }
    Ok(history.precedes(x, y))
}

#[test]
fn what_is_parallel(rt: HostRuntime) -> Result<(), Fail> {
    let history = drawn(rt.alloc())?;
    let parallel = [
        (at(1, 0), at(0, 2)),
        (at(1, 3), at(0, 3)),
        (at(1, 2), at(3, 0)),
        (at(2, 0), at(1, 2)),
        (at(2, 1), at(3, 1)),
        (at(2, 0), at(0, 2)),
        (at(4, 0), at(0, 6)),
        (at(4, 1), at(0, 7)),
    ];
    for (x, y) in parallel {
        assert!(rt; is_parallel(&history, x, y)?);
        assert!(rt; is_parallel(&history, y, x)?);
        assert!(rt; !is_before(&history, x, y)?);
        assert!(rt; !is_before(&history, y, x)?);
    }
    Ok(())
}

#[test]
fn what_precedes(rt: HostRuntime) -> Result<(), Fail> {
    let history = drawn(rt.alloc())?;
    let ordered = [
        (at(0, 0), at(0, 2)),
        (at(0, 0), at(2, 1)),
        (at(0, 1), at(1, 0)),
        (at(0, 1), at(2, 0)),
        (at(1, 1), at(1, 2)),
        (at(2, 1), at(1, 3)),
        (at(2, 0), at(0, 4)),
        (at(1, 0), at(0, 4)),
        (at(3, 0), at(0, 4)),
        (at(0, 2), at(3, 0)),
        (at(1, 0), at(4, 0)),
        (at(2, 0), at(4, 1)),
        (at(4, 1), at(0, 8)),
    ];
    for (x, y) in ordered {
        assert!(rt; is_before(&history, x, y)?);
        assert!(rt; !is_before(&history, y, x)?);
        assert!(rt; !is_parallel(&history, x, y)?);
        assert!(rt; !is_parallel(&history, y, x)?);
    }
    assert!(rt; !is_before(&history, at(1, 2), at(1, 2))?);
    assert!(rt; !is_parallel(&history, at(1, 2), at(1, 2))?);
    Ok(())
}

#[test]
fn what_is_in_serial_order(rt: HostRuntime) -> Result<(), Fail> {
    let history = drawn(rt.alloc())?;
    let order = [
        at(0, 0),
        at(0, 1),
        at(1, 0),
        at(1, 1),
        at(2, 0),
        at(2, 1),
        at(1, 2),
        at(1, 3),
        at(0, 2),
        at(0, 3),
        at(3, 0),
        at(3, 1),
        at(0, 4),
        at(0, 5),
        at(4, 0),
        at(4, 1),
        at(0, 6),
        at(0, 7),
        at(0, 8),
    ];
    assert!(rt; history.order() == order.as_slice());
    let accesses = history.places_of(rt.alloc(), 5)?;
    assert!(rt;
        accesses.as_slice() == [at(0, 0), at(1, 0), at(1, 2), at(3, 0), at(0, 6)].as_slice()
    );
    assert!(rt; history.places_of(rt.alloc(), 7)?.as_slice().is_empty());
    assert!(rt; history.output(rt.alloc())?.as_slice() == [20, 2, 7].as_slice());
    Ok(())
}

#[test]
fn two_writers(rt: HostRuntime) -> Result<(), Fail> {
    let alloc = rt.alloc();
    let mut recording = Recording::new(alloc, 1)?;
    for value in [1, 2] {
        let mut args = Args::new(alloc);
        args.push(value)?;
        recording.spawn(0, args)?;
        recording.act(Act::Write { word: 0, value })?;
        end(&mut recording)?;
    }
    sync(&mut recording)?;
    recording.act(Act::Read { word: 0, value: 2 })?;
    note(&mut recording, 2)?;
    let history = recording.finish();
    assert!(rt; is_parallel(&history, at(1, 0), at(2, 0))?);
    assert!(rt; is_parallel(&history, at(1, 0), at(0, 1))?);
    assert!(rt; is_before(&history, at(0, 0), at(1, 0))?);
    assert!(rt; is_before(&history, at(1, 0), at(0, 3))?);
    assert!(rt; !is_before(&history, at(1, 0), at(1, 0))?);
    assert!(rt;
        history.places_of(alloc, 0)?.as_slice() == [at(1, 0), at(2, 0), at(0, 3)].as_slice()
    );
    let [main, first, second] = history.rows() else {
        return Err("three rows".into());
    };
    assert_eq!(rt; main.parent(), None);
    assert_eq!(rt; main.proc(), 1);
    assert_eq!(rt; first.parent(), Some(at(0, 0)));
    assert_eq!(rt; second.parent(), Some(at(0, 1)));
    assert_eq!(rt; second.proc(), 0);
    assert!(rt; second.args() == [2].as_slice());
    assert_eq!(rt; second.len(), 2);
    assert_eq!(rt; second.act(0), Some(Act::Write { word: 0, value: 2 }));
    assert_eq!(rt; second.act(2), None);
    assert_eq!(rt; history.act(at(0, 1)), Some(Act::Spawn { row: 2 }));
    Ok(())
}
