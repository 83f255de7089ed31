use super::code::{
    ADD, ADD_TO_CALL, AND_QUOTIENT, CALL_OF_QUOTIENT, CHILD, COUNT_DOWN, DESCEND, DIV, EQ,
    FETCH_ADD, GE, GT, LE, LT, MUL, NE, NEG, NOT, POP, READ, READ_FIRST, REM, SPAWN, SPAWN_ALONE,
    STORE, SUB, WRITE, WRITE_QUOTIENT, code,
};
use super::playing::{
    Row, assert_deep, assert_each, assert_early, assert_gives, assert_started, with_input,
};
use cilk_meaning::TrapKind;
use machine_code::Code;
use outside::Words;
use plain_machine::{Answer, Frame, Want};
use std::alloc::Global;
use std::test::Fail;

const OVERFLOW: Want = Want::Trap(TrapKind::Overflow);

const ZERO_DIVISOR: Want = Want::Trap(TrapKind::DivideByZero);

const OUT_OF_RANGE: Want = Want::Trap(TrapKind::IndexOutOfRange);

const TOO_DEEP: Want = Want::Trap(TrapKind::TooDeep);

// Takes a type whose values may move between threads.
fn may_move<T: Send>() {}

#[test]
fn frames_move() {
    may_move::<Frame>();
    may_move::<Want>();
    may_move::<Answer>();
}

#[test]
fn sums_differences_and_products(rt: HostRuntime) -> Result<(), Fail> {
    static ROWS: [Row; 19] = [
        (ADD, &[3, 4], &[], Want::Return { value: 7 }),
        (ADD, &[i64::MAX, 0], &[], Want::Return { value: i64::MAX }),
        (ADD, &[i64::MAX, 1], &[], OVERFLOW),
        (ADD, &[i64::MIN, 0], &[], Want::Return { value: i64::MIN }),
        (ADD, &[i64::MIN, -1], &[], OVERFLOW),
        (SUB, &[7, 2], &[], Want::Return { value: 5 }),
        (SUB, &[-i64::MAX, 1], &[], Want::Return { value: i64::MIN }),
        (SUB, &[i64::MIN, 1], &[], OVERFLOW),
        (SUB, &[i64::MAX, 0], &[], Want::Return { value: i64::MAX }),
        (SUB, &[i64::MAX, -1], &[], OVERFLOW),
        (MUL, &[-6, 7], &[], Want::Return { value: -42 }),
        (
            MUL,
            &[3037000499, 3037000499],
            &[],
            Want::Return {
                value: 9223372030926249001,
            },
        ),
        (MUL, &[3037000500, 3037000500], &[], OVERFLOW),
        (MUL, &[i64::MAX, -1], &[], Want::Return { value: -i64::MAX }),
        (MUL, &[i64::MIN, 1], &[], Want::Return { value: i64::MIN }),
        (MUL, &[i64::MIN, -1], &[], OVERFLOW),
        (NEG, &[5], &[], Want::Return { value: -5 }),
        (NEG, &[-i64::MAX], &[], Want::Return { value: i64::MAX }),
        (NEG, &[i64::MIN], &[], OVERFLOW),
    ];
    assert_each(&rt, rt.alloc(), &ROWS)
}

#[test]
fn quotients_and_remainders(rt: HostRuntime) -> Result<(), Fail> {
    static ROWS: [Row; 17] = [
        (DIV, &[7, 2], &[], Want::Return { value: 3 }),
        (DIV, &[-7, 2], &[], Want::Return { value: -3 }),
        (DIV, &[7, -2], &[], Want::Return { value: -3 }),
        (DIV, &[7, -1], &[], Want::Return { value: -7 }),
        (DIV, &[7, 0], &[], ZERO_DIVISOR),
        (DIV, &[7, 1], &[], Want::Return { value: 7 }),
        (DIV, &[-i64::MAX, -1], &[], Want::Return { value: i64::MAX }),
        (DIV, &[i64::MIN, -1], &[], OVERFLOW),
        (
            DIV,
            &[i64::MIN, -2],
            &[],
            Want::Return {
                value: 4611686018427387904,
            },
        ),
        (DIV, &[i64::MIN, 0], &[], ZERO_DIVISOR),
        (REM, &[-7, 2], &[], Want::Return { value: -1 }),
        (REM, &[7, -2], &[], Want::Return { value: 1 }),
        (REM, &[7, -1], &[], Want::Return { value: 0 }),
        (REM, &[7, 0], &[], ZERO_DIVISOR),
        (REM, &[7, 1], &[], Want::Return { value: 0 }),
        (REM, &[i64::MIN, -1], &[], Want::Return { value: 0 }),
        (REM, &[i64::MIN, 0], &[], ZERO_DIVISOR),
    ];
    assert_each(&rt, rt.alloc(), &ROWS)
}

#[test]
fn tests_give_0_or_1(rt: HostRuntime) -> Result<(), Fail> {
    static ROWS: [Row; 16] = [
        (EQ, &[3, 3], &[], Want::Return { value: 1 }),
        (EQ, &[3, 4], &[], Want::Return { value: 0 }),
        (NE, &[3, 3], &[], Want::Return { value: 0 }),
        (NE, &[3, 4], &[], Want::Return { value: 1 }),
        (LT, &[-1, 0], &[], Want::Return { value: 1 }),
        (LT, &[4, 4], &[], Want::Return { value: 0 }),
        (LT, &[0, -1], &[], Want::Return { value: 0 }),
        (LE, &[4, 4], &[], Want::Return { value: 1 }),
        (LE, &[5, 4], &[], Want::Return { value: 0 }),
        (GT, &[4, 4], &[], Want::Return { value: 0 }),
        (GT, &[5, 4], &[], Want::Return { value: 1 }),
        (GE, &[4, 4], &[], Want::Return { value: 1 }),
        (GE, &[3, 4], &[], Want::Return { value: 0 }),
        (NOT, &[0], &[], Want::Return { value: 1 }),
        (NOT, &[-2], &[], Want::Return { value: 0 }),
        (NOT, &[1], &[], Want::Return { value: 0 }),
    ];
    assert_each(&rt, rt.alloc(), &ROWS)
}

#[test]
fn locals_operands_and_jumps(rt: HostRuntime) -> Result<(), Fail> {
    static ROWS: [Row; 7] = [
        (POP, &[5, 6], &[], Want::Return { value: 5 }),
        (STORE, &[9, 4], &[], Want::Return { value: 5 }),
        (AND_QUOTIENT, &[0, 0], &[], Want::Return { value: 0 }),
        (AND_QUOTIENT, &[1, 0], &[], ZERO_DIVISOR),
        (AND_QUOTIENT, &[-1, 3], &[], Want::Return { value: 2 }),
        (
            COUNT_DOWN,
            &[0],
            &[(Want::LoopTurn, Answer::Done)],
            Want::Return { value: 7 },
        ),
        (
            COUNT_DOWN,
            &[2],
            &[
                (Want::LoopTurn, Answer::Done),
                (Want::Print { value: 2 }, Answer::Done),
                (Want::LoopTurn, Answer::Done),
                (Want::Print { value: 1 }, Answer::Done),
                (Want::LoopTurn, Answer::Done),
            ],
            Want::Return { value: 7 },
        ),
    ];
    assert_each(&rt, rt.alloc(), &ROWS)
}

// An index is tested behind the value that would be written, and before the word is wanted.
#[test]
fn shared_words(rt: HostRuntime) -> Result<(), Fail> {
    static ROWS: [Row; 23] = [
        (READ, &[-1], &[], OUT_OF_RANGE),
        (
            READ,
            &[0],
            &[(Want::Read { word: 2 }, Answer::Value(-8))],
            Want::Return { value: -8 },
        ),
        (
            READ,
            &[2],
            &[(Want::Read { word: 4 }, Answer::Value(i64::MIN))],
            Want::Return { value: i64::MIN },
        ),
        (READ, &[3], &[], OUT_OF_RANGE),
        (READ, &[i64::MIN], &[], OUT_OF_RANGE),
        (READ, &[i64::MAX], &[], OUT_OF_RANGE),
        (
            READ_FIRST,
            &[1],
            &[(Want::Read { word: 1 }, Answer::Value(5))],
            Want::Return { value: 5 },
        ),
        (READ_FIRST, &[2], &[], OUT_OF_RANGE),
        (WRITE, &[-1, 9], &[], OUT_OF_RANGE),
        (
            WRITE,
            &[0, 9],
            &[(Want::Write { word: 2, value: 9 }, Answer::Done)],
            Want::Return { value: 3 },
        ),
        (
            WRITE,
            &[2, -9],
            &[(Want::Write { word: 4, value: -9 }, Answer::Done)],
            Want::Return { value: 3 },
        ),
        (WRITE, &[3, 9], &[], OUT_OF_RANGE),
        (WRITE_QUOTIENT, &[3, 0], &[], ZERO_DIVISOR),
        (WRITE_QUOTIENT, &[3, 1], &[], OUT_OF_RANGE),
        (WRITE_QUOTIENT, &[2, 0], &[], ZERO_DIVISOR),
        (
            WRITE_QUOTIENT,
            &[2, 1],
            &[(Want::Write { word: 4, value: 6 }, Answer::Done)],
            Want::Return { value: 0 },
        ),
        (FETCH_ADD, &[-1, 9], &[], OUT_OF_RANGE),
        (FETCH_ADD, &[3, 9], &[], OUT_OF_RANGE),
        (
            FETCH_ADD,
            &[0, 5],
            &[(Want::Add { word: 2, addend: 5 }, Answer::Value(-5))],
            Want::Return { value: -5 },
        ),
        (
            FETCH_ADD,
            &[2, 1],
            &[(
                Want::Add { word: 4, addend: 1 },
                Answer::Value(i64::MAX - 1),
            )],
            Want::Return {
                value: i64::MAX - 1,
            },
        ),
        (
            FETCH_ADD,
            &[2, 1],
            &[(Want::Add { word: 4, addend: 1 }, Answer::Value(i64::MAX))],
            OVERFLOW,
        ),
        (
            FETCH_ADD,
            &[2, -1],
            &[(
                Want::Add {
                    word: 4,
                    addend: -1,
                },
                Answer::Value(-i64::MAX),
            )],
            Want::Return { value: -i64::MAX },
        ),
        (
            FETCH_ADD,
            &[2, -1],
            &[(
                Want::Add {
                    word: 4,
                    addend: -1,
                },
                Answer::Value(i64::MIN),
            )],
            OVERFLOW,
        ),
    ];
    assert_each(&rt, rt.alloc(), &ROWS)
}

#[test]
fn calls_and_spawns(rt: HostRuntime) -> Result<(), Fail> {
    static ROWS: [Row; 8] = [
        (
            ADD_TO_CALL,
            &[3, 4],
            &[
                (Want::Call, Answer::Done),
                (Want::Print { value: 99 }, Answer::Done),
            ],
            Want::Return { value: 0 },
        ),
        (
            ADD_TO_CALL,
            &[i64::MIN, 1],
            &[(Want::Call, Answer::Done)],
            OVERFLOW,
        ),
        (
            ADD_TO_CALL,
            &[i64::MAX, 0],
            &[(Want::Call, Answer::Done)],
            OVERFLOW,
        ),
        (CALL_OF_QUOTIENT, &[1, 0], &[], ZERO_DIVISOR),
        (
            CALL_OF_QUOTIENT,
            &[6, 2],
            &[(Want::Call, Answer::Done)],
            Want::Return { value: 2 },
        ),
        (CHILD, &[7, 8], &[], Want::Return { value: -1 }),
        (
            SPAWN_ALONE,
            &[6, 2],
            &[
                (
                    Want::Spawn {
                        proc: CHILD,
                        target: None,
                    },
                    Answer::Done,
                ),
                (Want::Sync, Answer::Done),
            ],
            Want::Return { value: 3 },
        ),
        (
            SPAWN_ALONE,
            &[6, 0],
            &[
                (
                    Want::Spawn {
                        proc: CHILD,
                        target: None,
                    },
                    Answer::Done,
                ),
                (Want::Sync, Answer::Done),
            ],
            ZERO_DIVISOR,
        ),
    ];
    assert_each(&rt, rt.alloc(), &ROWS)
}

// A procedure, the depth of its instance, how many calls are open in it, and what it wants then.
#[test]
fn depths(rt: HostRuntime) -> Result<(), Fail> {
    static ROWS: [(u32, u32, u32, Want); 5] = [
        (DESCEND, 4096, 0, Want::Call),
        (DESCEND, 0, 4095, Want::Call),
        (DESCEND, 0, 4096, TOO_DEEP),
        (
            SPAWN,
            4095,
            0,
            Want::Spawn {
                proc: CHILD,
                target: Some(0),
            },
        ),
        (SPAWN, 4096, 0, TOO_DEEP),
    ];
    let code = code(rt.alloc())?;
    for &(proc, depth, calls, want) in &ROWS {
        assert_deep(&rt, rt.alloc(), &code, proc, depth, calls, want)?;
    }
    Ok(())
}

// What a procedure spawns first, and the child's arguments.
#[test]
fn arguments(rt: HostRuntime) -> Result<(), Fail> {
    static ROWS: [(u32, &[i64], Option<u32>, &[i64]); 3] = [
        (SPAWN, &[], Some(0), &[7, 8]),
        (SPAWN_ALONE, &[6, 2], None, &[6, 2]),
        (
            SPAWN_ALONE,
            &[i64::MIN, i64::MAX],
            None,
            &[i64::MIN, i64::MAX],
        ),
    ];
    let code = code(rt.alloc())?;
    for &(proc, args, target, given) in &ROWS {
        let spawn = Want::Spawn {
            proc: CHILD,
            target,
        };
        assert_gives(&rt, rt.alloc(), &code, proc, args, spawn, given)?;
    }
    Ok(())
}

// The child's value comes while a plain call is open, which has a local of its own at the same place.
#[test]
fn a_value_comes_under_an_open_call(rt: HostRuntime) -> Result<(), Fail> {
    static CALLED: [(Want, Answer); 2] = [
        (
            Want::Spawn {
                proc: CHILD,
                target: Some(0),
            },
            Answer::Done,
        ),
        (Want::Call, Answer::Done),
    ];
    static SYNCED: [(Want, Answer); 3] = [
        (Want::Print { value: 0 }, Answer::Done),
        (Want::Sync, Answer::Done),
        (Want::Print { value: -1 }, Answer::Done),
    ];
    let code = code(rt.alloc())?;
    assert_early(&rt, rt.alloc(), &code, SPAWN, &CALLED, -1, &SYNCED)
}

// A procedure that reads an array, an index, the word there, and its start where the words from 1 on start with 6 and -7.
#[test]
fn the_input_is_read(rt: HostRuntime) -> Result<(), Fail> {
    static ROWS: [(u32, i64, u32, i64); 5] = [
        (READ_FIRST, 0, 0, 0),
        (READ_FIRST, 1, 1, 6),
        (READ, 0, 2, -7),
        (READ, 1, 3, 0),
        (READ, 2, 4, 0),
    ];
    let code = code_with_input(rt.alloc())?;
    for &(proc, index, word, value) in &ROWS {
        assert_started(&rt, rt.alloc(), &code, proc, index, word, value)?;
    }
    Ok(())
}

fn code_with_input(alloc: Global) -> Result<Code, Fail> {
    let mut numbers = Words::new(alloc);
    numbers.push(6)?;
    numbers.push(-7)?;
    with_input(code(alloc)?, 1, numbers)
}
