//! The rows of `race`: the first determinacy race of programs, or that there is none.
use backer_top::Status;
use row_calls::{NOTHING, repeating, run};
use std::alloc::Global;
use std::process::Abort;
use std::test::Fail;

/// Compares what `race` answers on the source.
fn assert_told(
    rt: &impl Abort,
    alloc: Global,
    source: &str,
    number: u8,
    out: &str,
    line: &str,
) -> Result<(), Fail> {
    let left = run(
        alloc,
        &["race", "f"],
        source.as_bytes().to_vec(alloc)?,
        NOTHING,
    )?;
    assert_eq!(rt; left.ended.number(), number, "{source}");
    assert_eq!(rt; left.out.held(), out.as_bytes(), "{source}");
    assert_eq!(rt; left.err.held(), line.as_bytes(), "{source}");
    Ok(())
}

#[test]
fn races(rt: HostRuntime) -> Result<(), Fail> {
    static ROWS: [(&str, &str); 14] = [
        // write and write
        (
            "int a[1]; cilk void put(int v) { a[0] = v; } cilk int main() { spawn put(1); spawn put(2); sync; print(a[0]); return 0; }",
            "race on a[0]: row 1 act 0 write, row 2 act 0 write\n",
        ),
        // read and write; a writer is parallel to the first reader only
        (
            "int a[1]; cilk void get() { int x; x = a[0]; } cilk int main() { int y; spawn get(); y = a[0]; a[0] = 1; sync; return 0; }",
            "race on a[0]: row 1 act 0 read, row 0 act 2 write\n",
        ),
        // write and read, in another array
        (
            "int a[3], b[4]; cilk void put() { b[2] = 1; } cilk int main() { spawn put(); print(b[2]); }",
            "race on b[2]: row 1 act 0 write, row 0 act 1 read\n",
        ),
        // add and add
        (
            "int a[1]; cilk int one(int v) { int x; x = fetch_add(a[0], v); return x; } cilk int main() { int x, y; x = spawn one(3); y = spawn one(4); sync; print(x + y); print(a[0]); return 0; }",
            "race on a[0]: row 1 act 0 add, row 2 act 0 add\n",
        ),
        // add and read, read and add, add and write
        (
            "int a[1]; cilk void one() { fetch_add(a[0], 1); } cilk int main() { spawn one(); print(a[0]); }",
            "race on a[0]: row 1 act 0 add, row 0 act 1 read\n",
        ),
        (
            "int a[1]; cilk void get() { int x; x = a[0]; } cilk int main() { spawn get(); fetch_add(a[0], 1); }",
            "race on a[0]: row 1 act 0 read, row 0 act 1 add\n",
        ),
        (
            "int a[1]; cilk void one() { fetch_add(a[0], 1); } cilk int main() { spawn one(); a[0] = 2; }",
            "race on a[0]: row 1 act 0 add, row 0 act 1 write\n",
        ),
        // of two races the one whose second place is serially first, though its first place is later
        (
            "int a[2]; cilk void both() { a[0] = 1; a[1] = 1; } cilk int main() { spawn both(); a[1] = 2; a[0] = 2; sync; }",
            "race on a[1]: row 1 act 1 write, row 0 act 1 write\n",
        ),
        // the serially first of two first places
        (
            "int a[1]; cilk void get() { int x; x = a[0]; } cilk int main() { spawn get(); spawn get(); a[0] = 1; sync; }",
            "race on a[0]: row 1 act 0 read, row 0 act 2 write\n",
        ),
        // of which the first is written behind the other in the source
        (
            "int a[1]; cilk void late() { a[0] = 1; } cilk void early() { spawn late(); a[0] = 2; } cilk int main() { spawn early(); a[0] = 3; sync; }",
            "race on a[0]: row 2 act 0 write, row 1 act 1 write\n",
        ),
        // only through a plain function
        (
            "int a[1]; void put(int v) { a[0] = v; } cilk void child() { put(1); } cilk int main() { spawn child(); put(2); sync; }",
            "race on a[0]: row 1 act 0 write, row 0 act 1 write\n",
        ),
        // the children of two children
        (
            "int a[1]; cilk void leaf(int v) { a[0] = v; } cilk void inner(int v) { spawn leaf(v); sync; } cilk int main() { spawn inner(1); spawn inner(2); }",
            "race on a[0]: row 2 act 0 write, row 4 act 0 write\n",
        ),
        // a reader that is parallel is kept where a later one comes behind it
        (
            "int a[1]; cilk void get() { int x; x = a[0]; } cilk int main() { int y; spawn get(); spawn get(); sync; spawn get(); y = a[0]; a[0] = 1; }",
            "race on a[0]: row 3 act 0 read, row 0 act 5 write\n",
        ),
        // behind a sync of the child, which does not wait for its siblings
        (
            "int a[1]; cilk void put() { sync; a[0] = 1; } cilk int main() { spawn put(); sync; spawn put(); spawn put(); }",
            "race on a[0]: row 2 act 1 write, row 3 act 1 write\n",
        ),
    ];
    for &(source, out) in &ROWS {
        assert_told(&rt, rt.alloc(), source, 7, out, "")?;
    }
    Ok(())
}

#[test]
fn no_races(rt: HostRuntime) -> Result<(), Fail> {
    static ROWS: [&str; 7] = [
        "cilk int main() { }",
        "int a[1]; cilk int look() { return a[0]; } cilk int main() { int x, y; x = spawn look(); y = spawn look(); sync; a[0] = x + y + 1; print(a[0]); return 0; }",
        "int a[1]; cilk int look() { return a[0]; } cilk int main() { int x, y; x = spawn look(); y = spawn look(); sync; a[0] = 1; x = spawn look(); y = a[0]; sync; print(x + y); return 0; }",
        // hidden behind a sync
        "int a[1]; cilk void put(int v) { a[0] = v; } cilk int main() { spawn put(1); sync; spawn put(2); sync; a[0] = 3; }",
        // before the spawn
        "int a[1]; cilk void put() { a[0] = 1; } cilk int main() { a[0] = 2; spawn put(); sync; }",
        // other words
        "int a[2]; cilk void put(int i) { a[i] = 1; } cilk int main() { spawn put(0); spawn put(1); sync; }",
        // a child's end waits for its own children
        "int a[1]; cilk void leaf() { a[0] = 1; } cilk void inner() { spawn leaf(); } cilk int main() { spawn inner(); sync; a[0] = 2; }",
    ];
    for &source in &ROWS {
        assert_told(&rt, rt.alloc(), source, 0, "no race\n", "")?;
    }
    Ok(())
}

/// A race is looked for only where the elision finished.
#[test]
fn unfinished(rt: HostRuntime) -> Result<(), Fail> {
    let racing =
        "int a[1]; cilk void put(int v) { a[0] = v; } cilk int main() { spawn put(1); spawn put(2); sync; ";
    for (end, number, line) in [
        (
            "print(1 / 0); }",
            5,
            "backer: trap DivideByZero on node 0\n",
        ),
        ("while (1) ; }", 6, "backer: budget spent on node 0\n"),
    ] {
        let source = repeating(rt.alloc(), racing, end, 1, "")?;
        assert_told(&rt, rt.alloc(), source.as_str(), number, "", line)?;
    }
    Ok(())
}

/// 200,000 reads of one word, of which all pairs would be too many.
#[test]
fn many_reads(rt: HostRuntime) -> Result<(), Fail> {
    let source =
        "int a[1]; int main() { int i, x; for (i = 0; i < 200000; i++) x = a[0]; return 0; }";
    assert_told(&rt, rt.alloc(), source, 0, "no race\n", "")
}

/// A file that is not lawful, or not read, has no race.
#[test]
fn refused(rt: HostRuntime) -> Result<(), Fail> {
    let line = "backer: source refused: 202 in function main statement 0\n";
    assert_told(&rt, rt.alloc(), "int main() { print(y); }", 2, "", line)?;
    let left = run(
        rt.alloc(),
        &["race", "f"],
        b"int".to_vec(rt.alloc())?,
        NOTHING,
    )?;
    assert_eq!(rt;
        left.err.held(),
        b"backer: source refused: 103 at byte 3\n".as_slice()
    );
    assert!(rt; left.ended.status != Status::Done);
    Ok(())
}
