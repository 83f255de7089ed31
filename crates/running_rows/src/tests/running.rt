//! The rows of `serial`: what programs print as their serial elision, where they trap, and what they may cost.
use backer_top::{Ended, Status};
use cilk_meaning::TrapKind;
use row_calls::{Failing, NOTHING, numbered, repeating, run, run_source};
use std::alloc::Global;
use std::process::Abort;
use std::test::Fail;

/// What a trap is told with.
const fn trap(kind: TrapKind) -> Status {
    Status::Trap { kind, node: 0 }
}

/// Compares the number of the answer on the source, its output, and its line on `err`.
fn assert_run(
    rt: &impl Abort,
    alloc: Global,
    source: &str,
    status: Status,
    out: &str,
    line: &str,
) -> Result<(), Fail> {
    let left = run_source(alloc, source, NOTHING)?;
    let ended = Ended {
        status,
        mute: false,
    };
    assert!(rt; left.is(ended, out.as_bytes(), line), "{source}");
    Ok(())
}

#[test]
fn finished_programs(rt: HostRuntime) -> Result<(), Fail> {
    static ROWS: [(&str, &str); 15] = [
        (
            "cilk int fib(int n) { int x, y; if (n < 2) return n; x = spawn fib(n - 1); y = spawn fib(n - 2); sync; return x + y; } cilk int main(void) { int r; r = spawn fib(10); sync; print(r); return 0; }",
            "55\n",
        ),
        ("cilk int main() { }", ""),
        (
            "int f(int n) { return n + 1; } int main() { int x; x = f(1); print(x); }",
            "2\n",
        ),
        (
            "int main() { print((-9223372036854775807 - 1) % -1); print(-7 / 2); print(-7 % 2); }",
            "0\n-3\n-1\n",
        ),
        (
            "int a[1]; cilk int look() { return a[0]; } cilk int main() { int x, y; x = spawn look(); y = spawn look(); sync; a[0] = 1; x = spawn look(); y = a[0]; sync; print(x + y); return 0; }",
            "2\n",
        ),
        (
            "int a[1]; cilk void put(int v) { a[0] = v; } cilk int main() { spawn put(1); spawn put(2); sync; print(a[0]); return 0; }",
            "2\n",
        ),
        (
            "int a[1]; cilk int look() { return a[0]; } cilk int main() { int x, y; x = spawn look(); y = spawn look(); sync; a[0] = x + y + 1; print(a[0]); return 0; }",
            "1\n",
        ),
        // a child that spawned nothing else is run at its spawn
        (
            "int a[1]; cilk void put() { a[0] = 7; } cilk int main() { spawn put(); print(a[0]); sync; }",
            "7\n",
        ),
        // the deepest of 4,097 instances
        (
            "cilk void down(int n) { if (n > 1) spawn down(n - 1); } cilk int main() { spawn down(4096); return 0; }",
            "",
        ),
        (
            "cilk void say(int v, int n) { while (n > 0) n--; print(v); } cilk int main() { spawn say(1, 200); spawn say(2, 0); sync; print(3); return 0; }",
            "1\n2\n3\n",
        ),
        (
            "int a[1]; cilk int one(int v) { int x; x = fetch_add(a[0], v); return x; } cilk int main() { int x, y; x = spawn one(3); y = spawn one(4); sync; print(x + y); print(a[0]); return 0; }",
            "3\n7\n",
        ),
        (
            "int a[1]; cilk void get() { int x; x = a[0]; } cilk int main() { int y; spawn get(); y = a[0]; a[0] = 1; sync; return 0; }",
            "",
        ),
        // a declaration in a loop is 0 at each turn
        (
            "int main() { int i; for (i = 0; i < 3; i++) { int x; print(x); x = 5; } }",
            "0\n0\n0\n",
        ),
        // arguments from left to right, and the last one to the last parameter
        (
            "int f(int a, int b) { return a * 10 + b; } int main() { int x; x = f(1, 2); print(x); x = f(2, 1); print(x); }",
            "12\n21\n",
        ),
        // only what is needed of `&&` and `||`
        (
            "int main() { print(0 && 1 / 0); print(2 || 1 / 0); print(3 && 4); print(0 || 0); }",
            "0\n1\n1\n0\n",
        ),
    ];
    for &(source, out) in &ROWS {
        assert_run(&rt, rt.alloc(), source, Status::Done, out, "")?;
    }
    Ok(())
}

#[test]
fn trapping_programs(rt: HostRuntime) -> Result<(), Fail> {
    static ROWS: [(&str, TrapKind, &str); 9] = [
        (
            "int main() { print(9223372036854775807 + 1); }",
            TrapKind::Overflow,
            "Overflow",
        ),
        (
            "int main() { print((-9223372036854775807 - 1) / -1); }",
            TrapKind::Overflow,
            "Overflow",
        ),
        (
            "int main() { print(1); print(1 % 0); }",
            TrapKind::DivideByZero,
            "DivideByZero",
        ),
        (
            "int a[1]; int main() { a[1] = 1 / 0; }",
            TrapKind::DivideByZero,
            "DivideByZero",
        ),
        (
            "int a[1]; int main() { a[-1] = 1; }",
            TrapKind::IndexOutOfRange,
            "IndexOutOfRange",
        ),
        (
            "int a[1], b[1]; int main() { print(a[1]); }",
            TrapKind::IndexOutOfRange,
            "IndexOutOfRange",
        ),
        (
            "int a[1]; int main() { int x; a[0] = 9223372036854775807; x = fetch_add(a[0], 1); }",
            TrapKind::Overflow,
            "Overflow",
        ),
        (
            "cilk void down(int n) { if (n > 1) spawn down(n - 1); } cilk int main() { spawn down(4097); return 0; }",
            TrapKind::TooDeep,
            "TooDeep",
        ),
        (
            "int f(int n) { int x; if (n > 0) x = f(n - 1); return x; } int main() { int x; x = f(4095); print(7); x = f(4096); }",
            TrapKind::TooDeep,
            "TooDeep",
        ),
    ];
    for &(source, kind, name) in &ROWS {
        let line = format!(in rt.alloc(); "backer: trap {name} on node 0\n")?;
        assert_run(&rt, rt.alloc(), source, trap(kind), "", line.as_str())?;
    }
    Ok(())
}

const FIB_OF_10: &str =
    "cilk int fib(int n) { int x, y; if (n < 2) return n; x = spawn fib(n - 1); y = spawn fib(n - 2); sync; return x + y; } cilk int main(void) { int r; r = spawn fib(10); sync; print(r); return 0; }";

/// The elision of fib(10) makes 445 ticks.
#[test]
fn budgets(rt: HostRuntime) -> Result<(), Fail> {
    static ROWS: [(&[&str], u8, &str, &str); 6] = [
        (&["serial", "f", "--budget", "445"], 0, "55\n", ""),
        (
            &["serial", "--budget=444", "f"],
            6,
            "",
            "backer: budget spent on node 0\n",
        ),
        (
            &["serial", "f", "--budget", "1"],
            6,
            "",
            "backer: budget spent on node 0\n",
        ),
        (&["race", "--budget", "445", "f"], 0, "no race\n", ""),
        (
            &["race", "f", "--budget=444"],
            6,
            "",
            "backer: budget spent on node 0\n",
        ),
        (&["serial", "--budget=2000000", "f"], 0, "55\n", ""),
    ];
    for &(words, number, out, line) in &ROWS {
        let text = FIB_OF_10.as_bytes().to_vec(rt.alloc())?;
        let left = run(rt.alloc(), words, text, NOTHING)?;
        assert_eq!(rt; left.ended.number(), number, "{out}");
        assert_eq!(rt; left.out.held(), out.as_bytes(), "{out}");
        assert_eq!(rt; left.err.held(), line.as_bytes(), "{out}");
    }
    Ok(())
}

/// A loop without an end spends the default budget.
#[test]
fn an_endless_loop(rt: HostRuntime) -> Result<(), Fail> {
    let line = "backer: budget spent on node 0\n";
    assert_run(
        &rt,
        rt.alloc(),
        "int main() { print(1); while (1) ; }",
        Status::Budget { node: 0 },
        "",
        line,
    )
}

/// 3,000 prints in a loop are written in four pieces, of which the second may fail.
#[test]
fn pieces_of_a_loop(rt: HostRuntime) -> Result<(), Fail> {
    let source = "int main() { int i; for (i = 0; i < 3000; i++) print(i); return 0; }";
    let lines = numbered(rt.alloc(), "", 3000, "\n")?;
    let left = run_source(rt.alloc(), source, NOTHING)?;
    assert_eq!(rt; left.out.held(), lines.as_bytes());
    assert_eq!(rt; left.out.puts(), 4);
    let failing = Failing {
        read: None,
        out: Some((2, 10)),
        err: None,
    };
    let cut = run_source(rt.alloc(), source, failing)?;
    let front = lines.as_bytes().get(..4_106).ok_or("long")?;
    assert_eq!(rt; cut.out.held(), front);
    assert_eq!(rt; cut.err.held(), b"backer: write failed\n".as_slice());
    assert_eq!(rt; cut.ended.number(), 4);
    Ok(())
}

/// Sums of 8,192 words by halves, filled by halves: 38,399 ticks.
#[test]
fn sums_by_halves(rt: HostRuntime) -> Result<(), Fail> {
    let source =
        "int a[8192]; cilk void fill(int lo, int hi) { int mid; if (hi - lo <= 16) { while (lo < hi) { a[lo] = lo * 15 % 1000; lo = lo + 1; } } else { mid = (lo + hi) / 2; spawn fill(lo, mid); spawn fill(mid, hi); } } cilk int total(int lo, int hi) { int mid; int s; int t; if (hi - lo <= 16) { while (lo < hi) { s = s + a[lo]; lo = lo + 1; } } else { mid = (lo + hi) / 2; s = spawn total(lo, mid); t = spawn total(mid, hi); sync; s = s + t; } return s; } cilk int main() { int x; spawn fill(0, 8192); sync; x = spawn total(0, 8192); sync; print(x); return 0; }";
    static ROWS: [(&[&str], u8, &str); 3] = [
        (&["serial", "f", "--budget", "38399"], 0, "4072040\n"),
        (&["serial", "f", "--budget", "38398"], 6, ""),
        (&["race", "f"], 0, "no race\n"),
    ];
    for &(words, number, out) in &ROWS {
        let left = run(
            rt.alloc(),
            words,
            source.as_bytes().to_vec(rt.alloc())?,
            NOTHING,
        )?;
        assert_eq!(rt; left.ended.number(), number, "{out}");
        assert_eq!(rt; left.out.held(), out.as_bytes(), "{out}");
    }
    Ok(())
}

/// A program near the limits: many locals, a deep loop, and a long sum.
#[test]
fn long_sums(rt: HostRuntime) -> Result<(), Fail> {
    let sum = repeating(rt.alloc(), "int main() { print(1", " + 1", 255, "); }")?;
    assert_run(&rt, rt.alloc(), sum.as_str(), Status::Done, "256\n", "")
}
