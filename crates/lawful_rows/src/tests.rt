//! The rows of `check`: which programs are lawful, and where each other one breaks which rule first.
use backer_top::{Ended, SourceRefusal, Status};
use cilk_checker::CheckPlace;
use cilk_reader::read_program;
use cilk_tree::print_program;
use row_calls::{Left, NOTHING, numbered, run};
use std::alloc::{AllocError, Global};
use std::process::Abort;
use std::test::Fail;

/// The call ended with this number, put this line on `err`, and nothing on `out`.
fn assert_told(rt: &impl Abort, left: &Left, number: u8, line: &str, row: &str) {
    assert!(rt; left.tells(number, line), "{row}");
}

/// The canonical text of the source, which is read.
fn printed(alloc: Global, source: &str) -> Result<Vec<u8>, Fail> {
    let program = read_program(alloc, source.as_bytes())?;
    Ok(print_program(alloc, &program)?)
}

/// Compares the answer of `check` with what is written: the end of its line on `err`, or nothing where the program is
/// lawful.
fn assert_checked(rt: &impl Abort, alloc: Global, source: &str, breach: &str) -> Result<(), Fail> {
    let left = run(
        alloc,
        &["check", "f"],
        source.as_bytes().to_vec(alloc)?,
        NOTHING,
    )?;
    if breach.is_empty() {
        return assert_accepted(rt, alloc, source, &left);
    }
    let line = format!(in alloc; "backer: source refused: {breach}\n")?;
    assert_told(rt, &left, 2, line.as_str(), source);
    Ok(())
}

/// The canonical text of the source was put on `out`, and nothing on `err`.
fn assert_accepted(rt: &impl Abort, alloc: Global, source: &str, left: &Left) -> Result<(), Fail> {
    let ended = Ended {
        status: Status::Done,
        mute: false,
    };
    assert_eq!(rt; left.err.puts(), 0, "{source}");
    let text = printed(alloc, source)?;
    assert!(rt; left.is(ended, text.as_slice(), ""), "{source}");
    Ok(())
}

/// The same of a program whose main, which has this body, stands behind an array, and functions of each kind.
fn assert_main(rt: &impl Abort, alloc: Global, body: &str, breach: &str) -> Result<(), Fail> {
    let mut source = String::from_str(
        alloc,
        "int a[2]; int f(int p) { return p; } cilk int c(int p) { return p; } void v() { } cilk void w() { } cilk int main() { ",
    )?;
    source.push_str(body)?;
    source.push_str(" }")?;
    assert_checked(rt, alloc, source.as_str(), breach)
}

/// `assert_checked` of each row.
fn assert_each_checked(rt: &impl Abort, alloc: Global, rows: &[(&str, &str)]) -> Result<(), Fail> {
    for &(source, breach) in rows {
        assert_checked(rt, alloc, source, breach)?;
    }
    Ok(())
}

/// `assert_main` of each row.
fn assert_each_main(rt: &impl Abort, alloc: Global, rows: &[(&str, &str)]) -> Result<(), Fail> {
    for &(body, breach) in rows {
        assert_main(rt, alloc, body, breach)?;
    }
    Ok(())
}

/// Two things that share a name, and names that do not clash.
#[test]
fn names(rt: HostRuntime) -> Result<(), Fail> {
    static ROWS: [(&str, &str); 21] = [
        (
            "cilk int f() { return 1; } cilk int main() { int i; int x; for (i = 0; i < 2; i++) { print(x); x = spawn f(); } sync; return 0; }",
            "209 in function main statement 5",
        ),
        ("int a[1]; int main() { } int a[2];", "201 in array a"),
        (
            "void f() { } int f(int x) { } int main() { }",
            "201 in function f",
        ),
        ("void a() { } int a[1]; int main() { }", "201 in function a"),
        (
            "void f(int x, int y, int x) { } int main() { }",
            "201 in function f",
        ),
        (
            "void f(int a) { } int main() { } int a[1];",
            "201 in function f",
        ),
        (
            "void f(int g) { } void g() { } int main() { }",
            "201 in function f",
        ),
        ("void f(int f) { } int main() { }", "201 in function f"),
        (
            "cilk int main() { int x; int x; }",
            "201 in function main statement 1",
        ),
        (
            "cilk int main() { int x; { print(x); int x; } }",
            "201 in function main statement 3",
        ),
        (
            "cilk int main() { int x; while (x) { if (x) { } else { { int x; } } } }",
            "201 in function main statement 4",
        ),
        (
            "cilk int main() { for (int i = 0; i < 2; i++) { int i; } }",
            "201 in function main statement 4",
        ),
        (
            "void f(int x) { print(x); if (x) { int x; } } int main() { }",
            "201 in function f statement 2",
        ),
        (
            "int a[1]; cilk int main() { { int a; } }",
            "201 in function main statement 1",
        ),
        (
            "int main() { int f; } void f() { }",
            "201 in function main statement 0",
        ),
        (
            "cilk int main() { int main; }",
            "201 in function main statement 0",
        ),
        (
            "cilk int main() { { int x; } { int x; } if (1) { int x; } else { int x; } while (1) { int x; } int x; }",
            "",
        ),
        (
            "cilk int main() { for (int i = 0; i < 2; i++) ; for (int i = 0; i < 2; i++) ; }",
            "",
        ),
        (
            "void f(int x) { int y; } void g(int y) { int x; } int main() { int x, y; }",
            "",
        ),
        ("cilk int main() { int x = x; }", ""),
        ("int main() { f(a[0]); } void f(int x) { } int a[1];", ""),
    ];
    assert_each_checked(&rt, rt.alloc(), &ROWS)
}

/// Names that are none in scope, and how far scopes reach.
#[test]
fn scopes(rt: HostRuntime) -> Result<(), Fail> {
    static ROWS: [(&str, &str); 9] = [
        (
            "cilk int main() { { int x; } x = 1; }",
            "202 in function main statement 2",
        ),
        (
            "cilk int main() { x = 1; int x; }",
            "202 in function main statement 0",
        ),
        (
            "cilk int main() { int x = y, y = x; }",
            "202 in function main statement 1",
        ),
        (
            "cilk int main() { if (1) { int x; } else { print(x); } }",
            "202 in function main statement 2",
        ),
        (
            "cilk int main() { while (x) { int x; } }",
            "202 in function main statement 0",
        ),
        (
            "cilk int main() { for (int i = 0; i < 2; i++) ; print(i); }",
            "202 in function main statement 5",
        ),
        (
            "void f() { x = 1; } void g(int x) { } int main() { int x; }",
            "202 in function f statement 0",
        ),
        ("cilk int main() { for (; 1; x++) { int x; } }", ""),
        (
            "cilk int main() { for (; 1; x++) { { int x; } } }",
            "202 in function main statement 4",
        ),
    ];
    assert_each_checked(&rt, rt.alloc(), &ROWS)
}

/// Names in each position that stand for nothing or for another kind of thing, and calls that do not fit.
#[test]
fn uses(rt: HostRuntime) -> Result<(), Fail> {
    static ROWS: [(&str, &str); 28] = [
        ("int x; a = 1;", "203 in function main statement 1"),
        ("int x; x = 0 && u;", "202 in function main statement 1"),
        (
            "int x; x = 1 + (2 * -a[1 - !f]);",
            "203 in function main statement 1",
        ),
        ("int x; print(u[0]);", "202 in function main statement 1"),
        ("int x; print(a[u]);", "202 in function main statement 1"),
        ("int x; x[0] = 1;", "203 in function main statement 1"),
        ("int x; a[a] = 1;", "203 in function main statement 1"),
        ("int x; a[0] = u;", "202 in function main statement 1"),
        ("int x; print(main);", "203 in function main statement 1"),
        ("int x; if (u) ;", "202 in function main statement 1"),
        ("int x; x(1);", "203 in function main statement 1"),
        ("int x; a = f(1);", "203 in function main statement 1"),
        ("int x; f(u);", "202 in function main statement 1"),
        ("int x; spawn a(1);", "203 in function main statement 1"),
        ("int x; u = spawn c(1);", "202 in function main statement 1"),
        ("int x; spawn c(c);", "203 in function main statement 1"),
        ("int x; return a;", "203 in function main statement 1"),
        ("int x; x = f();", "204 in function main statement 1"),
        ("f(1, 2);", "204 in function main statement 0"),
        ("spawn c();", "204 in function main statement 0"),
        ("int x; x = v();", "205 in function main statement 1"),
        ("int x = spawn w();", "205 in function main statement 1"),
        ("int x; x = c(1);", "207 in function main statement 1"),
        ("spawn v();", "208 in function main statement 0"),
        ("int x = spawn f(1);", "208 in function main statement 1"),
        ("int x = spawn main(); spawn w(); v();", ""),
        ("int x; x = w(1);", "204 in function main statement 1"),
        ("v(main);", "203 in function main statement 0"),
    ];
    assert_each_main(&rt, rt.alloc(), &ROWS)
}

/// What functions of each kind may do, the main that a program has to have, and the limit of words.
#[test]
fn functions(rt: HostRuntime) -> Result<(), Fail> {
    static ROWS: [(&str, &str); 18] = [
        (
            "int main() { if (0) main(1); }",
            "204 in function main statement 1",
        ),
        (
            "void f(int x) { return x; } int main() { }",
            "205 in function f statement 0",
        ),
        (
            "cilk void main() { sync; return 0; }",
            "205 in function main statement 1",
        ),
        (
            "void f() { return; } int g() { return; } int h() { } void main() { int x; f(); g(); x = h(); }",
            "",
        ),
        ("int main() { sync; }", "206 in function main statement 0"),
        (
            "void v() { } cilk void w() { } int main() { v(); spawn w(); }",
            "206 in function main statement 1",
        ),
        (
            "void f() { while (1) { if (1) ; else sync; } } int main() { }",
            "206 in function f statement 2",
        ),
        (
            "void v() { } cilk void w() { } int main() { w(); }",
            "207 in function main statement 0",
        ),
        ("int main(int x) { }", "210 in program"),
        ("int main[1]; int f() { main[0] = 1; }", "210 in program"),
        ("int f() { int main; }", "210 in program"),
        ("cilk void main(void) { }", ""),
        ("int a[4194304]; int main() { }", ""),
        ("int a[4194303], b[0]; int main() { } int c[1], d[0];", ""),
        (
            "int a[4194304]; int b[0], c[1], d[1]; int main() { }",
            "211 in array c",
        ),
        (
            "int a[2097152]; int main() { } int b[2097153];",
            "211 in array b",
        ),
        (
            "int a[2], b[9223372036854775807], c[9223372036854775807]; int main() { }",
            "211 in array b",
        ),
        (
            "cilk int d(int p) { p = spawn d(p); print(p); } int main() { }",
            "209 in function d statement 1",
        ),
    ];
    assert_each_checked(&rt, rt.alloc(), &ROWS)
}

/// The last of 256 locals is pending as the others are.
#[test]
fn the_last_local(rt: HostRuntime) -> Result<(), Fail> {
    let mut body = numbered(rt.alloc(), "int x", 256, "; ")?;
    body.push_str("x255 = spawn c(1); x254 = 1; ")?;
    let mut synced = body.clone()?;
    body.push_str("print(x255);")?;
    synced.push_str("sync; print(x255);")?;
    assert_main(
        &rt,
        rt.alloc(),
        body.as_str(),
        "209 in function main statement 258",
    )?;
    assert_main(&rt, rt.alloc(), synced.as_str(), "")
}

/// A spawn's target before a sync, in a row and at `if`.
#[test]
fn pending_locals(rt: HostRuntime) -> Result<(), Fail> {
    static ROWS: [(&str, &str); 23] = [
        (
            "int x, y; x = spawn c(1); print(x);",
            "209 in function main statement 3",
        ),
        (
            "int x, y; x = spawn c(1); y = a[-x];",
            "209 in function main statement 3",
        ),
        (
            "int x, y; x = spawn c(1); a[x] = 1;",
            "209 in function main statement 3",
        ),
        (
            "int x, y; x = spawn c(1); a[0] = x;",
            "209 in function main statement 3",
        ),
        (
            "int x, y; x = spawn c(1); x = 1;",
            "209 in function main statement 3",
        ),
        (
            "int x, y; x = spawn c(1); x = f(1);",
            "209 in function main statement 3",
        ),
        (
            "int x, y; x = spawn c(1); y = f(x);",
            "209 in function main statement 3",
        ),
        (
            "int x, y; x = spawn c(1); spawn c(x);",
            "209 in function main statement 3",
        ),
        (
            "int x, y; x = spawn c(1); if (x) ;",
            "209 in function main statement 3",
        ),
        (
            "int x, y; x = spawn c(1); while (x) ;",
            "209 in function main statement 3",
        ),
        (
            "int x, y; x = spawn c(1); y = 1; a[y] = y; spawn c(y); y = f(y); sync; print(x);",
            "",
        ),
        ("int x, y; x = spawn c(1); return x; print(x);", ""),
        (
            "int x; spawn c(1); print(x); x = spawn c(x); sync; x = spawn c(x);",
            "",
        ),
        (
            "int x = spawn c(x); x = spawn c(x);",
            "209 in function main statement 2",
        ),
        (
            "int x; return 0; x = spawn c(1); print(x);",
            "209 in function main statement 3",
        ),
        (
            "int x; { x = spawn c(1); } print(x);",
            "209 in function main statement 3",
        ),
        (
            "int x; if (0) x = spawn c(1); print(x);",
            "209 in function main statement 3",
        ),
        (
            "int x; if (1) ; else x = spawn c(1); print(x);",
            "209 in function main statement 3",
        ),
        ("int x; if (1) x = spawn c(1); else print(x);", ""),
        (
            "int x = spawn c(1); if (1) sync; print(x);",
            "209 in function main statement 4",
        ),
        (
            "int x = spawn c(1); if (1) return x; print(x);",
            "209 in function main statement 4",
        ),
        (
            "int x = spawn c(1); if (1) sync; else { sync; } x = spawn c(x); if (1) return x; else sync; print(x);",
            "",
        ),
        (
            "int x = spawn c(1); while (1) sync; print(x);",
            "209 in function main statement 4",
        ),
    ];
    assert_each_main(&rt, rt.alloc(), &ROWS)
}

/// The same in loops.
#[test]
fn pending_locals_in_loops(rt: HostRuntime) -> Result<(), Fail> {
    static ROWS: [(&str, &str); 16] = [
        (
            "int x; while (0) { sync; x = spawn c(1); } print(x);",
            "209 in function main statement 4",
        ),
        (
            "int x; while (1) x = spawn c(1);",
            "209 in function main statement 2",
        ),
        (
            "int x; while (x < 9) { sync; x = spawn c(1); }",
            "209 in function main statement 1",
        ),
        (
            "int x = spawn c(1); while (1) { print(x); sync; }",
            "209 in function main statement 3",
        ),
        (
            "while (1) { int x = spawn c(1); }",
            "209 in function main statement 1",
        ),
        (
            "while (1) { sync; int x = spawn c(1); } while (1) { int y = spawn c(1); return y; }",
            "",
        ),
        (
            "int x; while (1) { if (1) sync; x = spawn c(1); }",
            "209 in function main statement 4",
        ),
        (
            "int x; while (1) { if (1) return x; else sync; x = spawn c(1); }",
            "",
        ),
        (
            "int x; while (1) { print(x); while (1) { sync; x = spawn c(1); } }",
            "209 in function main statement 2",
        ),
        (
            "int x; while (1) { while (1) print(x); sync; x = spawn c(1); }",
            "209 in function main statement 3",
        ),
        (
            "int x; for (; 1; x++) { x = spawn c(1); }",
            "209 in function main statement 3",
        ),
        (
            "int x; for (; 1; x++) { sync; x = spawn c(1); }",
            "209 in function main statement 5",
        ),
        (
            "int x; for (x = spawn c(1); x < 3; ) sync;",
            "209 in function main statement 3",
        ),
        (
            "int x; for (;; x = spawn c(1)) { print(x); sync; }",
            "209 in function main statement 3",
        ),
        ("{ int x = spawn c(1); } { int x; x = 1; print(x); }", ""),
        (
            "while (1) { { int x = 1; print(x); } { sync; int x = spawn c(1); } }",
            "",
        ),
    ];
    assert_each_main(&rt, rt.alloc(), &ROWS)
}

/// The first of several breaches, and statements that are counted as what they mean.
#[test]
fn first_breach(rt: HostRuntime) -> Result<(), Fail> {
    static ROWS: [(&str, &str); 32] = [
        ("int a[4194305]; int main() { }", "211 in array a"),
        ("int a[1]; int a() { } int main() { }", "201 in function a"),
        ("int f() { }", "210 in program"),
        ("   ", "210 in program"),
        ("", "210 in program"),
        (
            "cilk int main() { ;; { } ; print(y); }",
            "202 in function main statement 1",
        ),
        (
            "cilk int main() { int x = 1, z, w = 2; print(y); }",
            "202 in function main statement 5",
        ),
        (
            "cilk int main() { for (;;) { } for (int i = 0, j = 1; ; ) { } print(y); }",
            "202 in function main statement 8",
        ),
        (
            "cilk int main() { int x; while (x) for (; x; x++) if (x) x--; print(y); }",
            "202 in function main statement 7",
        ),
        (
            "cilk int main() { if (1) { print(1); { print(2); } } else { if (1) ; else ; print(y); } }",
            "202 in function main statement 5",
        ),
        (
            "cilk int main() { x = y; int x; int x; }",
            "202 in function main statement 0",
        ),
        (
            "cilk int main() { while (main) { print(v); } }",
            "203 in function main statement 0",
        ),
        (
            "void f() { u(); } void f() { } int main() { }",
            "202 in function f statement 0",
        ),
        (
            "int main() { int x; int x; } int a[4194305];",
            "211 in array a",
        ),
        (
            "int a[1], a[1], b[4194304]; int main() { }",
            "201 in array a",
        ),
        (
            "void f() { sync; } void g(int g) { } int main() { }",
            "206 in function f statement 0",
        ),
        (
            "void f(int x, int x) { u(); } int main() { }",
            "201 in function f",
        ),
        (
            "int main(int x) { sync; }",
            "206 in function main statement 0",
        ),
        ("int a[1], a[4194304]; int main() { }", "201 in array a"),
        (
            "cilk int main() { x = main; }",
            "202 in function main statement 0",
        ),
        (
            "void v() { } cilk void w() { } int main() { int x; x = spawn v(); }",
            "205 in function main statement 1",
        ),
        (
            "void v() { } cilk void w() { } int main() { spawn v(); }",
            "206 in function main statement 0",
        ),
        (
            "int main() { spawn u(); }",
            "202 in function main statement 0",
        ),
        (
            "void f() { return u; } int main() { }",
            "202 in function f statement 0",
        ),
        (
            "cilk int main() { int x = spawn main(); print(x); u(); }",
            "202 in function main statement 3",
        ),
        (
            "cilk int main() { int x = spawn main(); x = main; }",
            "203 in function main statement 2",
        ),
        (
            "cilk int f() { int x = spawn f(); print(x); }",
            "210 in program",
        ),
        (
            "cilk int main() { int x = spawn main(); print(x); } void f() { } void f() { }",
            "201 in function f",
        ),
        (
            "cilk int main() { int x; x = spawn g(); return x; } cilk int g() { int y = spawn g(); y = 1; } cilk int h() { int z = spawn h(), z2 = z; }",
            "209 in function g statement 2",
        ),
        (
            "void f() { g(); } void g() { } void g(int x) { } int main() { }",
            "201 in function g",
        ),
        (
            "void f() { g(1); } void g() { } void g(int x) { } int main() { }",
            "204 in function f statement 0",
        ),
        (
            "void f() { a(); } void a() { } int main() { } int a[1];",
            "203 in function f statement 0",
        ),
    ];
    assert_each_checked(&rt, rt.alloc(), &ROWS)
}

/// What the answer says where its line is not asked for.
#[test]
fn breaches(rt: HostRuntime) -> Result<(), Fail> {
    static ROWS: [(&str, u16, CheckPlace); 4] = [
        ("int a[1], a[1];", 201, CheckPlace::Shared(1)),
        ("int a() { } int a() { }", 201, CheckPlace::Function(1)),
        (
            "void f() { } int main() { ; { sync; } }",
            206,
            CheckPlace::Statement(1, 1),
        ),
        ("", 210, CheckPlace::Whole),
    ];
    for &(source, kind, place) in &ROWS {
        let text = source.as_bytes().to_vec(rt.alloc())?;
        let left = run(rt.alloc(), &["check", "f"], text, NOTHING)?;
        assert_eq!(rt;
            left.ended.status,
            Status::Source(SourceRefusal::Check { kind, place }),
            "{source}"
        );
    }
    Ok(())
}

/// Sources with `fetch_add`.
#[test]
fn lawful_additions(rt: HostRuntime) -> Result<(), Fail> {
    static ROWS: [(&str, &str); 17] = [
        ("fetch_add(a[0], 1); int x; x = fetch_add(a[x], x);", ""),
        (
            "int x; fetch_add(x[0], 1);",
            "203 in function main statement 1",
        ),
        ("fetch_add(f[0], 1);", "203 in function main statement 0"),
        ("fetch_add(u[0], 1);", "202 in function main statement 0"),
        ("fetch_add(a[u], 1);", "202 in function main statement 0"),
        ("fetch_add(a[0], u);", "202 in function main statement 0"),
        ("fetch_add(a[0], a);", "203 in function main statement 0"),
        ("fetch_add(a[a], 1);", "203 in function main statement 0"),
        (
            "a = fetch_add(a[0], 1);",
            "203 in function main statement 0",
        ),
        (
            "f = fetch_add(a[0], 1);",
            "203 in function main statement 0",
        ),
        (
            "u = fetch_add(a[0], 1);",
            "202 in function main statement 0",
        ),
        (
            "int x = spawn c(1); x = fetch_add(a[0], 1);",
            "209 in function main statement 2",
        ),
        (
            "int x = spawn c(1); fetch_add(a[x], 1);",
            "209 in function main statement 2",
        ),
        (
            "int x = spawn c(1); fetch_add(a[0], 1 + x);",
            "209 in function main statement 2",
        ),
        (
            "int x = spawn c(1); fetch_add(a[0], 1); print(x);",
            "209 in function main statement 3",
        ),
        (
            "int x = spawn c(1); int y; y = fetch_add(a[0], 1); sync; print(x + y);",
            "",
        ),
        (
            "int x = spawn c(1); sync; x = fetch_add(a[x], x); print(x);",
            "",
        ),
    ];
    assert_each_main(&rt, rt.alloc(), &ROWS)?;
    assert_checked(
        &rt,
        rt.alloc(),
        "int a[1]; int f(int p) { p = fetch_add(a[0], p); fetch_add(a[0], 1); return p; } int main() { }",
        "",
    )
}
