//! Sources that are refused as no program, with their bytes and places; limits at and past them; canonical texts.
mod adding;

use backer_top::{Ended, SourceRefusal, Status};
use cilk_reader::{ReadRefusal, read_program};
use cilk_tree::{Name, print_program};
use row_calls::{Left, NOTHING, numbered, repeating, run, run_source};
use std::alloc::Global;
use std::process::Abort;
use std::test::Fail;

/// Compares how the call ended, and what stands on `out` and on `err`.
fn assert_is(rt: &impl Abort, left: &Left, ended: Ended, out: &[u8], err: &str, row: &str) {
    assert!(rt; left.is(ended, out, err), "{row}");
}

/// The call ended with this number, put this line on `err`, and nothing on `out`.
fn assert_told(rt: &impl Abort, left: &Left, number: u8, line: &str, row: &str) {
    assert!(rt; left.tells(number, line), "{row}");
}

/// A source that is refused: a text, a part that is repeated so many times, a text up to where the refusal stands, and
/// what follows.
#[derive(Clone, Copy)]
struct Refused {
    before: &'static str,
    part: &'static str,
    count: usize,
    behind: &'static str,
    after: &'static str,
    kind: u16,
}

/// One without a part that is repeated.
const fn wrong(before: &'static str, after: &'static str, kind: u16) -> Refused {
    repeated(before, "", 0, "", after, kind)
}

const fn repeated(
    before: &'static str,
    part: &'static str,
    count: usize,
    behind: &'static str,
    after: &'static str,
    kind: u16,
) -> Refused {
    Refused {
        before,
        part,
        count,
        behind,
        after,
        kind,
    }
}

/// Compares the answer on the source with what is written, and its line on `err`.
fn assert_refused(rt: &impl Abort, alloc: Global, row: Refused) -> Result<(), Fail> {
    let mut source = repeating(alloc, row.before, row.part, row.count, row.behind)?;
    let offset = source.len() as u64;
    source.push_str(row.after)?;
    let left = run_source(alloc, source.as_str(), NOTHING)?;
    let kind = row.kind;
    let line = format!(in alloc; "backer: source refused: {kind} at byte {offset}\n")?;
    let ended = Ended {
        status: Status::Source(SourceRefusal::Read { kind, offset }),
        mute: false,
    };
    assert_is(rt, &left, ended, b"", line.as_str(), row.before);
    assert_told(rt, &left, 2, line.as_str(), row.before);
    Ok(())
}

/// In each row the second part begins with what is not expected there.
fn assert_each_unexpected(
    rt: &impl Abort,
    alloc: Global,
    rows: &[(&'static str, &'static str)],
) -> Result<(), Fail> {
    for &(before, after) in rows {
        assert_refused(rt, alloc, wrong(before, after, 103))?;
    }
    Ok(())
}

#[test]
fn refused_tokens(rt: HostRuntime) -> Result<(), Fail> {
    static ROWS: [(&str, &str, u16); 10] = [
        ("int main() { /* x", "", 103),
        ("int main() { /*/", "", 103),
        ("int main() { print(", "10000000000000000000); }", 102),
        ("int main() { print(", "9223372036854775808); }", 102),
        ("int main() { print(", "0x1); }", 102),
        ("int main() { print(", "007); }", 102),
        ("int main() { print(1 ", "& 1); }", 101),
        ("int main() { print(1 ", "| 1); }", 101),
        ("", "#include", 101),
        ("int main() { x", "$ = 1; }", 101),
    ];
    for &(before, after, kind) in &ROWS {
        assert_refused(&rt, rt.alloc(), wrong(before, after, kind))?;
    }
    let mut bytes = b"int main() { ".to_vec(rt.alloc())?;
    bytes.push(255)?;
    bytes.extend_from_slice(b" }")?;
    let left = run(rt.alloc(), &["serial", "f"], bytes, NOTHING)?;
    assert_eq!(rt;
        left.ended.status,
        Status::Source(SourceRefusal::Read {
            kind: 101,
            offset: 13
        })
    );
    Ok(())
}

#[test]
fn refused_structure(rt: HostRuntime) -> Result<(), Fail> {
    static ROWS: [(&str, &str); 22] = [
        ("int main() { print(", "--1); }"),
        ("int main() { print(1 + ", "); }"),
        ("int main() { print((1)", "; }"),
        ("int main() { x = 1 ", "}"),
        ("int main() { if (1) ", "int x; }"),
        ("int main() { ", "else ; }"),
        ("int main() { if (1) ; else ; ", "else ; }"),
        ("int main() { a[1] ", "+= 1; }"),
        ("int main() { x = spawn ", "1; }"),
        ("int main() { print(f", "(1)); }"),
        ("int main() { x ", "== 1; }"),
        ("int main() { for (int i = 0", ") ; }"),
        ("int main() { for (f", "(); ; ) ; }"),
        ("int a[", "-1];"),
        ("int a", ";"),
        ("void a", "[1];"),
        ("int f(int a, ", ") { }"),
        ("int f(void", ", int a) { }"),
        ("cilk ", "f() { }"),
        ("int main() { } ", "}"),
        ("int ", "if() { }"),
        ("int main() { ", "cilk_for (int i = 0; i < 1; i++) ; }"),
    ];
    assert_each_unexpected(&rt, rt.alloc(), &ROWS)
}

#[test]
fn refused_at_the_end(rt: HostRuntime) -> Result<(), Fail> {
    static ROWS: [&str; 34] = [
        "int",
        "int main",
        "int main(",
        "int main()",
        "int main() {",
        "int main() { x",
        "int main() { x =",
        "int main() { x = 1",
        "int main() { x = y",
        "int main() { x = f(",
        "int main() { x = f(1,",
        "int main() { x = spawn",
        "int main() { a[",
        "int main() { a[1]",
        "int main() { x++",
        "int main() { x +=",
        "int main() { if (1)",
        "int main() { if (1) ;",
        "int main() { if (1) ; else",
        "int main() { while",
        "int main() { for (;;",
        "int main() { print(1)",
        "int main() { return",
        "int main() { sync",
        "int main() { int x,",
        "int main() { print(-",
        "int main() { print(!",
        "int main() { print(1 <",
        "int a[1]",
        "int a[1],",
        "cilk",
        "void f(int a",
        "int main() { // x",
        "int main() { /* x */",
    ];
    for &source in &ROWS {
        assert_refused(&rt, rt.alloc(), wrong(source, "", 103))?;
    }
    Ok(())
}

/// What stands before, what is repeated so many times, what stands behind that up to the refusal, and what follows.
#[test]
fn refused_levels(rt: HostRuntime) -> Result<(), Fail> {
    static ROWS: [(&str, &str, usize, &str, &str); 14] = [
        ("int main() { print(", "(", 64, "", "1"),
        ("int main() { print(", "- ", 64, "", "1); }"),
        ("int main() { print(", "a[", 64, "", "1"),
        ("int main() {", "{", 64, "", "x = 1;"),
        ("int main() {", "{", 64, "", ";"),
        ("int main() {", "if (1) ", 64, "", ";"),
        ("int main() {", "if (1) {", 64, "", "; }"),
        ("int main() {", "while (1) ", 64, "", "x++; }"),
        ("int main() {{", "for (;;) ", 31, "for (", ";;) ; }}"),
        ("int main() {", "{", 62, "for (x = 1; x < 2; ", "x++) ; }"),
        ("int main() {", "{", 62, "for (;;) ", "x++; }"),
        ("int main() {", "{", 63, "x += ", "1; }"),
        ("int main() {", "{", 63, "a[", "1] = 1; }"),
        ("int main() {", "{", 63, "print(-", "1); }"),
    ];
    for &(before, part, count, behind, after) in &ROWS {
        let row = repeated(before, part, count, behind, after, 104);
        assert_refused(&rt, rt.alloc(), row)?;
    }
    Ok(())
}

#[test]
fn a_million_signs(rt: HostRuntime) -> Result<(), Fail> {
    // A `--` is one token, which begins no operand.
    for (sign, kind, offset) in [("(", 104, 83), ("!", 104, 83), ("-", 103, 19)] {
        let source = repeating(rt.alloc(), "int main() { print(", sign, 1_000_000, "")?;
        let left = run_source(rt.alloc(), source.as_str(), NOTHING)?;
        assert_eq!(rt;
            left.ended.status,
            Status::Source(SourceRefusal::Read { kind, offset }),
            "{sign}"
        );
    }
    Ok(())
}

/// The kind and the offset with which the source is refused.
fn refusal_of(alloc: Global, source: &str) -> Option<(u16, u64)> {
    match read_program(alloc, source.as_bytes()) {
        Err(ReadRefusal::At { kind, offset }) => Some((kind, offset)),
        _ => None,
    }
}

/// Compares the refusal of the source with what is written.
fn assert_refusal(rt: &impl Abort, alloc: Global, source: &str, kind: u16, offset: u64) {
    assert_eq!(rt; refusal_of(alloc, source), Some((kind, offset)), "{source}");
}

/// Whether the source is read.
fn is_read(alloc: Global, source: &str) -> bool {
    read_program(alloc, source.as_bytes()).is_ok()
}

/// What stands before, what is repeated so many times, what is inside, what is repeated as often, and what follows.
#[test]
fn levels_that_are_kept(rt: HostRuntime) -> Result<(), Fail> {
    static ROWS: [(&str, &str, usize, &str, &str, &str); 7] = [
        ("int main() { print(", "(", 63, "1", ")", "); }"),
        ("int main() { print(", "- ", 63, "1", "", "); }"),
        ("int main() { print(", "a[", 63, "1", "]", "); }"),
        ("int main() {", "{", 63, "x = 1;", "}", "}"),
        ("int main() {", "{", 62, "x += 1; a[1] = -1;", "}", "}"),
        (
            "int main() {",
            "{",
            61,
            "for (x = 1; x < 2; x++) x++;",
            "}",
            "}",
        ),
        ("int main() {", "{", 62, "for (;;) { }", "}", "}"),
    ];
    for &(before, opening, count, inside, closing, after) in &ROWS {
        let mut source = repeating(rt.alloc(), before, opening, count, inside)?;
        source.push_str(repeating(rt.alloc(), "", closing, count, after)?.as_str())?;
        assert!(rt; is_read(rt.alloc(), source.as_str()), "{before} {opening}");
    }
    Ok(())
}

/// A count: what stands before, each that is counted with what follows it, how many there may be, the one that is too
/// many and how many bytes from its begin the refusal stands, and what stands behind.
#[derive(Clone, Copy)]
struct Counting {
    before: &'static str,
    opening: &'static str,
    closing: &'static str,
    most: usize,
    more: &'static str,
    place: u64,
    after: &'static str,
}

/// As many as there may be are read, and one more is refused in its place.
fn assert_counted(rt: &impl Abort, alloc: Global, row: &Counting) -> Result<(), Fail> {
    let counted = numbered(alloc, row.opening, row.most, row.closing)?;
    let kept = repeating(alloc, row.before, counted.as_str(), 1, row.after)?;
    assert!(rt; is_read(alloc, kept.as_str()), "{}", row.before);
    let front = repeating(alloc, row.before, counted.as_str(), 1, "")?;
    let place = (front.len() as u64).checked_add(row.place).ok_or("long")?;
    let past = repeating(alloc, front.as_str(), row.more, 1, row.after)?;
    assert_refusal(rt, alloc, past.as_str(), 105, place);
    Ok(())
}

#[test]
fn counts(rt: HostRuntime) -> Result<(), Fail> {
    static ROWS: [Counting; 9] = [
        Counting {
            before: "int main() { print(0",
            opening: "+",
            closing: "",
            most: 256,
            more: "+1",
            place: 0,
            after: "); print(1 + 1); }",
        },
        Counting {
            before: "int main() { x += 0",
            opening: "+",
            closing: "",
            most: 255,
            more: "+1",
            place: 0,
            after: "; }",
        },
        Counting {
            before: "int main() { print(a[0",
            opening: "+",
            closing: "",
            most: 255,
            more: "+1",
            place: 4,
            after: "] + 1); }",
        },
        Counting {
            before: "int f(int x",
            opening: ", int y",
            closing: "",
            most: 15,
            more: ", int z",
            place: 2,
            after: ") { } int g(int x) { }",
        },
        Counting {
            before: "int main() { f(0",
            opening: ", ",
            closing: "",
            most: 15,
            more: ", -1",
            place: 2,
            after: "); f(1); }",
        },
        Counting {
            before: "int f(int y) { int z;",
            opening: "int x",
            closing: ";",
            most: 254,
            more: "int w",
            place: 4,
            after: "; } int g() { int x; }",
        },
        Counting {
            before: "",
            opening: "int a",
            closing: "[1];",
            most: 1024,
            more: "int b[1];",
            place: 4,
            after: "",
        },
        Counting {
            before: "",
            opening: "int f",
            closing: "() { }",
            most: 1024,
            more: "int g() { }",
            place: 0,
            after: "",
        },
        Counting {
            before: "",
            opening: "void f",
            closing: "() { }",
            most: 1024,
            more: "cilk int g() { }",
            place: 0,
            after: "",
        },
    ];
    for row in &ROWS {
        assert_counted(&rt, rt.alloc(), row)?;
    }
    Ok(())
}

/// In each row the third part begins with what is too many.
fn assert_each_too_many(
    rt: &impl Abort,
    alloc: Global,
    rows: &[(&str, &str, &str)],
) -> Result<(), Fail> {
    for &(before, between, after) in rows {
        let front = repeating(alloc, before, between, 1, "")?;
        let source = repeating(alloc, front.as_str(), after, 1, "")?;
        assert_refusal(rt, alloc, source.as_str(), 105, front.len() as u64);
    }
    Ok(())
}

#[test]
fn too_many_arrays(rt: HostRuntime) -> Result<(), Fail> {
    let arrays = numbered(rt.alloc(), "int a", 1024, "[1];")?;
    let rows = [
        (arrays.as_str(), "int ", "b[1];"),
        (arrays.as_str(), "int c() { } int ", "b[1];"),
    ];
    assert_each_too_many(&rt, rt.alloc(), &rows)
}

#[test]
fn too_many_functions(rt: HostRuntime) -> Result<(), Fail> {
    let functions = numbered(rt.alloc(), "int f", 1024, "() { }")?;
    let rows = [
        (functions.as_str(), "", "int g() { }"),
        (functions.as_str(), "", "void g() { }"),
        (functions.as_str(), "int c[1]; ", "cilk void g() { }"),
    ];
    assert_each_too_many(&rt, rt.alloc(), &rows)
}

#[test]
fn long_names(rt: HostRuntime) -> Result<(), Fail> {
    let long = repeating(rt.alloc(), "", "x", 64, "")?;
    let rows = [
        ("int main() { print(1); ", "int ", long.as_str()),
        ("int main() { ", "print(", long.as_str()),
        ("int ", "", long.as_str()),
        ("int f(int ", "", long.as_str()),
    ];
    assert_each_too_many(&rt, rt.alloc(), &rows)?;
    let longest = repeating(rt.alloc(), "int ", "x", 63, "[1]; void main() { }")?;
    assert!(rt; is_read(rt.alloc(), longest.as_str()));
    Ok(())
}

/// Past both limits `int NAME` is judged by the sign behind it; where none follows, that sign is unexpected.
#[test]
fn too_many_of_both(rt: HostRuntime) -> Result<(), Fail> {
    let arrays = numbered(rt.alloc(), "int a", 1024, "[1];")?;
    let functions = numbered(rt.alloc(), "int f", 1024, "() { }")?;
    for (front, tail, kind) in [
        ("", "int g(", 105),
        ("int ", "g[", 105),
        ("int g", ";", 103),
    ] {
        let before = repeating(rt.alloc(), arrays.as_str(), functions.as_str(), 1, front)?;
        let source = repeating(rt.alloc(), before.as_str(), tail, 1, "")?;
        assert_refusal(&rt, rt.alloc(), source.as_str(), kind, before.len() as u64);
    }
    Ok(())
}

/// The canonical text of the source, which is read.
fn printed(alloc: Global, source: &str) -> Result<Vec<u8>, Fail> {
    let program = read_program(alloc, source.as_bytes())?;
    Ok(print_program(alloc, &program)?)
}

/// Compares the canonical text of the source with what is written.
fn assert_printed(rt: &impl Abort, alloc: Global, source: &str, wanted: &str) -> Result<(), Fail> {
    assert!(rt; is_read(alloc, source), "{source}");
    let text = printed(alloc, source)?;
    assert_eq!(rt; text.as_slice(), wanted.as_bytes(), "{source}");
    Ok(())
}

/// The same, and that this text is its own canonical text.
fn assert_canonical(
    rt: &impl Abort,
    alloc: Global,
    source: &str,
    wanted: &str,
) -> Result<(), Fail> {
    assert_printed(rt, alloc, source, wanted)?;
    assert_printed(rt, alloc, wanted, wanted)
}

/// `assert_canonical` of a `main` with the statements of each row, and of the lines that they are.
fn assert_each_canonical(
    rt: &impl Abort,
    alloc: Global,
    rows: &[(&str, &str)],
) -> Result<(), Fail> {
    for &(statements, lines) in rows {
        let source = repeating(alloc, "int main() { ", statements, 1, " }")?;
        let wanted = repeating(alloc, "int main() {\n", lines, 1, "}\n")?;
        assert_canonical(rt, alloc, source.as_str(), wanted.as_str())?;
    }
    Ok(())
}

#[test]
fn sugar(rt: HostRuntime) -> Result<(), Fail> {
    static ROWS: [(&str, &str); 17] = [
        ("int x, y = 1;", "  int x;\n  int y;\n  y = 1;\n"),
        (
            "int x = f(), y = spawn g(x);",
            "  int x;\n  x = f();\n  int y;\n  y = spawn g(x);\n",
        ),
        ("x += 1; x -= y - 1;", "  x = x + 1;\n  x = x - (y - 1);\n"),
        ("x++; x--;", "  x = x + 1;\n  x = x - 1;\n"),
        ("; { ; }", "  {\n  }\n"),
        ("f(); spawn f(1, 2);", "  f();\n  spawn f(1, 2);\n"),
        ("for (;;) ;", "  {\n    while (1) {\n    }\n  }\n"),
        (
            "for (int i = 0, j; i < 2; ) x++;",
            "  {\n    int i;\n    i = 0;\n    int j;\n    while (i < 2) {\n      x = x + 1;\n    }\n  }\n",
        ),
        (
            "for (i = 0; ; a[i] = 1) { x++; }",
            "  {\n    i = 0;\n    while (1) {\n      x = x + 1;\n      a[i] = 1;\n    }\n  }\n",
        ),
        (
            "if (a) if (b) x++; else y++;",
            "  if (a) {\n    if (b) {\n      x = x + 1;\n    } else {\n      y = y + 1;\n    }\n  }\n",
        ),
        (
            "if (a) { if (b) x++; } else y++;",
            "  if (a) {\n    if (b) {\n      x = x + 1;\n    }\n  } else {\n    y = y + 1;\n  }\n",
        ),
        (
            "if (a) while (b) if (c) x++; else y++; else ;",
            "  if (a) {\n    while (b) {\n      if (c) {\n        x = x + 1;\n      } else {\n        y = y + 1;\n      }\n    }\n  }\n",
        ),
        (
            "return; return 1 || 2 && 3 == 4 < 5 + 6 * 7;",
            "  return;\n  return 1 || 2 && 3 == 4 < 5 + 6 * 7;\n",
        ),
        (
            "x = ((1 - 2) - (3 - 4)) * (5 * 6) % -(-7) - !(a[i] + 1) / 2;",
            "  x = (1 - 2 - (3 - 4)) * (5 * 6) % - -7 - !(a[i] + 1) / 2;\n",
        ),
        ("x = (1 < 2) < (3 < 4);", "  x = 1 < 2 < (3 < 4);\n"),
        ("x = (1 || 2) && (3 && 4);", "  x = (1 || 2) && (3 && 4);\n"),
        ("sync; while (x) { }", "  sync;\n  while (x) {\n  }\n"),
    ];
    assert_each_canonical(&rt, rt.alloc(), &ROWS)
}

/// A name that is put together byte by byte.
#[test]
fn names_of_bytes(rt: HostRuntime) -> Result<(), Fail> {
    let mut name = Name::new(rt.alloc());
    assert_eq!(rt; name.items(), b"".as_slice());
    for byte in b"fib" {
        name.push(*byte)?;
    }
    assert_eq!(rt; name.items(), b"fib".as_slice());
    Ok(())
}

#[test]
fn canonical_programs(rt: HostRuntime) -> Result<(), Fail> {
    static ROWS: [(&str, &str); 5] = [
        (
            "int a[2];int main(){int i;for(i=0;i<2;i++)a[i]=-(-i)+1;}",
            "int a[2];\nint main() {\n  int i;\n  {\n    i = 0;\n    while (i < 2) {\n      a[i] = - -i + 1;\n      i = i + 1;\n    }\n  }\n}\n",
        ),
        (
            "cilk void f(void) { } int a[1], b[2]; void g(int x, int y) { } cilk int h(int n) { return n; } int c[3];",
            "int a[1];\nint b[2];\nint c[3];\ncilk void f() {\n}\nvoid g(int x, int y) {\n}\ncilk int h(int n) {\n  return n;\n}\n",
        ),
        (
            "int f(int a, int b, int c, int d, int e, int f, int g, int h, int i, int j, int k, int l, int m, int n, int o, int p) { }",
            "int f(int a, int b, int c, int d, int e, int f, int g, int h, int i, int j, int k, int l, int m, int n, int o, int p) {\n}\n",
        ),
        ("// nothing", ""),
        ("/* a */ /**/ /***/", ""),
    ];
    for &(source, wanted) in &ROWS {
        assert_canonical(&rt, rt.alloc(), source, wanted)?;
    }
    Ok(())
}
