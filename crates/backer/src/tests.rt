//! The rows of words, reading and writing, over a shelf and sinks in memory.
use backer_top::{Ended, SourceRefusal, Status};
use cilk_meaning::TrapKind;
use row_calls::{Failing, Left, NOTHING, numbered, repeating, run, run_source};
use std::alloc::{AllocError, Global};
use std::process::Abort;
use std::test::Fail;

/// Compares how the call ended, and what stands on `out` and on `err`.
fn assert_is(rt: &impl Abort, left: &Left, ended: Ended, out: &[u8], err: &str, row: &str) {
    assert!(rt; left.is(ended, out, err), "{row}");
}

/// The call ended with this number, put this line on `err`, and nothing on `out`.
fn assert_told(rt: &impl Abort, left: &Left, number: u8, line: &str, row: &str) {
    assert!(rt; left.tells(number, line), "{row}");
}

const OVERFLOW: Status = Status::Trap {
    kind: TrapKind::Overflow,
    node: 0,
};

#[test]
fn sources(rt: HostRuntime) -> Result<(), Fail> {
    static ROWS: [(&str, Status, &str); 24] = [
        (
            "int main() { int x; x = 6; print(x * 7 - 2); print(x); }",
            Status::Done,
            "40\n6\n",
        ),
        (
            "int main() { int x; x = 6; print(x + 34); print(x); }",
            Status::Done,
            "40\n6\n",
        ),
        ("int main() { }", Status::Done, ""),
        ("int main() { print(7 - 2 - 1); }", Status::Done, "4\n"),
        ("int main() { print(7 - (2 - 1)); }", Status::Done, "6\n"),
        ("int main() { print(2 + 3 * 4); }", Status::Done, "14\n"),
        ("int main() { print((2 + 3) * 4); }", Status::Done, "20\n"),
        (
            "int main() { print(3037000499 * 3037000499); }",
            Status::Done,
            "9223372030926249001\n",
        ),
        (
            "int main() { print(0 - 9223372036854775807 - 1); }",
            Status::Done,
            "-9223372036854775808\n",
        ),
        (
            "int main() { print(3037000500 * 3037000500); }",
            OVERFLOW,
            "",
        ),
        (
            "int main() { print(0 - 9223372036854775807 - 2); }",
            OVERFLOW,
            "",
        ),
        (
            "int main() { print(1); print(9223372036854775807 + 1); }",
            OVERFLOW,
            "",
        ),
        (
            "int main(void) { int x, y = 2; /* two */ x += y; x++; print(x * y); } // six",
            Status::Done,
            "6\n",
        ),
        ("void main() { print(1); }", Status::Done, "1\n"),
        ("int a[1]; int main() { }", Status::Done, ""),
        (
            "int a[1]; int main() { fetch_add(a[0], 1); }",
            Status::Done,
            "",
        ),
        ("cilk int main() { }", Status::Done, ""),
        ("int main() { } int f() { }", Status::Done, ""),
        ("int main() { print(-1); }", Status::Done, "-1\n"),
        ("int main() { print(4 / 2); }", Status::Done, "2\n"),
        (
            "int main() { int x; x = 1 < 2; print(x); }",
            Status::Done,
            "1\n",
        ),
        ("int main() { return 0; }", Status::Done, ""),
        ("int main() { { } }", Status::Done, ""),
        ("int main() { if (1) ; }", Status::Done, ""),
    ];
    for &(source, status, out) in &ROWS {
        let left = run_source(rt.alloc(), source, NOTHING)?;
        let line: &str = match status {
            Status::Done => "",
            _ => "backer: trap Overflow on node 0\n",
        };
        let ended = Ended {
            status,
            mute: false,
        };
        assert_is(&rt, &left, ended, out.as_bytes(), line, source);
    }
    Ok(())
}

/// `serial` checks its program before it looks whether it can run it.
#[test]
fn unlawful_sources(rt: HostRuntime) -> Result<(), Fail> {
    static ROWS: [(&str, &str); 7] = [
        ("", "210 in program"),
        (
            "int main() { print(y); }",
            "202 in function main statement 0",
        ),
        (
            "int main() { int x; int x; }",
            "201 in function main statement 1",
        ),
        (
            "int main() { int main; }",
            "201 in function main statement 0",
        ),
        ("int main() { sync; }", "206 in function main statement 0"),
        ("int a[4194305]; int main() { }", "211 in array a"),
        (
            "cilk int main() { int x; x = spawn main(); print(x); }",
            "209 in function main statement 2",
        ),
    ];
    for &(source, breach) in &ROWS {
        let left = run_source(rt.alloc(), source, NOTHING)?;
        let line = format!(in rt.alloc(); "backer: source refused: {breach}\n")?;
        assert_told(&rt, &left, 2, line.as_str(), source);
    }
    Ok(())
}

#[test]
fn refused_words(rt: HostRuntime) -> Result<(), Fail> {
    static ROWS: [&[&str]; 28] = [
        &[],
        &[""],
        &["f"],
        &["check"],
        &["check", "f", "f"],
        &["check", "-f"],
        &["check", "f", "--budget", "1"],
        &["Check", "f"],
        &["serial"],
        &["serial", "f", "f"],
        &["serial", "-x"],
        &["serial", ""],
        &["serial", "f", "--budget"],
        &["serial", "f", "--budget", "0"],
        &["serial", "f", "--budget", "2000001"],
        &["serial", "f", "--budget", "01"],
        &["serial", "f", "--budget", "+1"],
        &["serial", "f", "--budget", ""],
        &["serial", "f", "--budget="],
        &["serial", "f", "--budget=1x"],
        &["serial", "f", "--budget", "18446744073709551617"],
        &["serial", "f", "--budget=1", "--budget=1"],
        &["serial", "f", "--budgets=1"],
        &["serial", "f", "--", "g"],
        &["serial", "--budget", "1"],
        &["race"],
        &["race", "f", "g"],
        &["frob", "f"],
    ];
    for &words in &ROWS {
        let left = run(rt.alloc(), words, Vec::new(rt.alloc()), NOTHING)?;
        assert_eq!(rt; (left.ended.status, left.calls), (Status::Words, 0));
        assert_told(&rt, &left, 1, "backer: words refused\n", "words");
    }
    Ok(())
}

const PRINTS_12: &str = "int main() { print(12); }";

#[test]
fn a_read_that_fails(rt: HostRuntime) -> Result<(), Fail> {
    let failing = Failing {
        read: Some(1),
        out: None,
        err: None,
    };
    let left = run_source(rt.alloc(), PRINTS_12, failing)?;
    let ended = Ended {
        status: Status::ReadFault,
        mute: false,
    };
    assert_is(&rt, &left, ended, b"", "backer: read failed\n", "read");
    Ok(())
}

/// The put keeps some bytes of the output before it fails.
#[test]
fn puts_that_fail(rt: HostRuntime) -> Result<(), Fail> {
    let ended = Ended {
        status: Status::WriteFault,
        mute: false,
    };
    for (kept, held) in [(0, ""), (1, "1"), (10_000, "12\n")] {
        let failing = Failing {
            read: None,
            out: Some((1, kept)),
            err: None,
        };
        let left = run_source(rt.alloc(), PRINTS_12, failing)?;
        assert_is(
            &rt,
            &left,
            ended,
            held.as_bytes(),
            "backer: write failed\n",
            held,
        );
    }
    Ok(())
}

#[test]
fn a_line_that_fails(rt: HostRuntime) -> Result<(), Fail> {
    let failing = Failing {
        read: None,
        out: None,
        err: Some((1, 3)),
    };
    let left = run(rt.alloc(), &[], Vec::new(rt.alloc()), failing)?;
    let ended = Ended {
        status: Status::Words,
        mute: true,
    };
    assert_is(&rt, &left, ended, b"", "bac", "words");
    assert_told(&rt, &left, 4, "bac", "words");
    assert_eq!(rt; left.err.puts(), 1);
    Ok(())
}

#[test]
fn both_that_fail(rt: HostRuntime) -> Result<(), Fail> {
    let failing = Failing {
        read: None,
        out: Some((1, 0)),
        err: Some((1, 0)),
    };
    let left = run_source(rt.alloc(), PRINTS_12, failing)?;
    let ended = Ended {
        status: Status::WriteFault,
        mute: true,
    };
    assert_is(&rt, &left, ended, b"", "", "both");
    Ok(())
}

/// A program that prints the numbers from 0 to 2,999.
fn printing_numbers(alloc: Global) -> Result<String, AllocError> {
    let prints = numbered(alloc, " print(", 3000, ");")?;
    repeating(alloc, "int main() {", prints.as_str(), 1, " }")
}

#[test]
fn several_pieces(rt: HostRuntime) -> Result<(), Fail> {
    let lines = numbered(rt.alloc(), "", 3000, "\n")?;
    assert_eq!(rt; lines.len(), 13_890);
    let source = printing_numbers(rt.alloc())?;
    let left = run_source(rt.alloc(), source.as_str(), NOTHING)?;
    let ended = Ended {
        status: Status::Done,
        mute: false,
    };
    assert_is(&rt, &left, ended, lines.as_bytes(), "", "whole");
    assert_eq!(rt; left.out.puts(), 4);
    Ok(())
}

#[test]
fn a_second_piece_that_fails(rt: HostRuntime) -> Result<(), Fail> {
    let lines = numbered(rt.alloc(), "", 3000, "\n")?;
    let source = printing_numbers(rt.alloc())?;
    let failing = Failing {
        read: None,
        out: Some((2, 10)),
        err: None,
    };
    let left = run_source(rt.alloc(), source.as_str(), failing)?;
    let ended = Ended {
        status: Status::WriteFault,
        mute: false,
    };
    let front = lines.as_bytes().get(..4_106).ok_or("long")?;
    assert_is(&rt, &left, ended, front, "backer: write failed\n", "cut");
    assert_eq!(rt; left.out.puts(), 2);
    Ok(())
}

/// Blanks, as many as a source may have and one more.
#[test]
fn the_longest_sources(rt: HostRuntime) -> Result<(), Fail> {
    static ROWS: [(&str, usize, &str); 4] = [
        (
            "check",
            1_048_576,
            "backer: source refused: 210 in program\n",
        ),
        ("check", 1_048_577, "backer: source refused: too long\n"),
        (
            "serial",
            1_048_576,
            "backer: source refused: 210 in program\n",
        ),
        ("serial", 1_048_577, "backer: source refused: too long\n"),
    ];
    for &(command, count, line) in &ROWS {
        let blanks = vec![in rt.alloc(); b' '; count]?;
        let left = run(rt.alloc(), &[command, "f"], blanks, NOTHING)?;
        assert_told(&rt, &left, 2, line, command);
        let is_long = left.ended.status == Status::Source(SourceRefusal::TooLong);
        assert_eq!(rt; is_long, count == 1_048_577);
    }
    Ok(())
}
