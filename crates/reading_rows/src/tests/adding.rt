//! The rows of `fetch_add`: what text is one, where its levels and counts end, and how it is printed.
use super::{
    assert_each_canonical, assert_each_unexpected, assert_refusal, assert_refused, is_read,
    repeated,
};
use row_calls::{numbered, repeating};
use std::test::Fail;

#[test]
fn refused_additions(rt: HostRuntime) -> Result<(), Fail> {
    static ROWS: [(&str, &str); 25] = [
        ("int main() { fetch_add(a", ", 1); }"),
        ("int main() { fetch_add(a[0]", "); }"),
        ("int main() { fetch_add(a[0] ", "1); }"),
        ("int main() { fetch_add(a[0], 1", "; }"),
        ("int main() { fetch_add(a[0], 1", ", 2); }"),
        ("int main() { fetch_add(a[0", ", 1); }"),
        ("int main() { fetch_add(a[", "], 1); }"),
        ("int main() { fetch_add(a[0], ", "); }"),
        ("int main() { fetch_add", "[0]; }"),
        ("int main() { fetch_add(", "1[0], 1); }"),
        ("int main() { fetch_add ", "= 1; }"),
        ("int main() { fetch_add(a[0], 1) ", "+ 1; }"),
        (
            "int main() { x = fetch_add(a[0], ",
            "fetch_add(a[0], 1)); }",
        ),
        ("int main() { print(", "fetch_add(a[0], 1)); }"),
        ("int main() { x += ", "fetch_add(a[0], 1); }"),
        ("int main() { a[0] = ", "fetch_add(a[0], 1); }"),
        ("int main() { x = 1 + ", "fetch_add(a[0], 1); }"),
        ("int main() { spawn ", "fetch_add(a[0], 1); }"),
        ("int main() { x = spawn ", "fetch_add(a[0], 1); }"),
        ("int main() { for (", "fetch_add(a[0], 1); ; ) ; }"),
        ("int main() { for (; ; ", "fetch_add(a[0], 1)) ; }"),
        ("int main() { int ", "fetch_add; }"),
        ("int f(int ", "fetch_add) { }"),
        ("int ", "fetch_add[1];"),
        ("void ", "fetch_add() { }"),
    ];
    assert_each_unexpected(&rt, rt.alloc(), &ROWS)?;
    static ENDS: [&str; 12] = [
        "fetch_add",
        "fetch_add(",
        "fetch_add(a",
        "fetch_add(a[",
        "fetch_add(a[0",
        "fetch_add(a[0]",
        "fetch_add(a[0],",
        "fetch_add(a[0], 1",
        "fetch_add(a[0], 1)",
        "x = fetch_add",
        "x = fetch_add(a[0], 1)",
        "int x = fetch_add(a[0], 1)",
    ];
    for &end in &ENDS {
        let source = repeating(rt.alloc(), "int main() { ", "", 0, end)?;
        assert_refusal(&rt, rt.alloc(), source.as_str(), 103, source.len() as u64);
    }
    Ok(())
}

/// The brackets make one level, the parentheses none. A row has how many blocks stand around, what stands in them up to the
/// refusal, and what follows.
#[test]
fn levels_of_additions(rt: HostRuntime) -> Result<(), Fail> {
    static ROWS: [(usize, &str, &str); 4] = [
        (63, "fetch_add(a[", "0], 1); }"),
        (63, "x = fetch_add(a[", "0], 1); }"),
        (62, "fetch_add(a[(", "0)], 1); }"),
        (62, "fetch_add(a[0], ((", "1))); }"),
    ];
    for &(blocks, inside, after) in &ROWS {
        let row = repeated("int main() {", "{", blocks, inside, after, 104);
        assert_refused(&rt, rt.alloc(), row)?;
    }
    static KEPT: [(usize, &str); 3] = [
        (62, "fetch_add(a[0], (1));"),
        (62, "x = fetch_add(a[0], 1);"),
        (61, "int x = fetch_add(a[-y], ((1)));"),
    ];
    for &(blocks, inside) in &KEPT {
        let mut source = repeating(rt.alloc(), "int main() {", "{", blocks, inside)?;
        source.push_str(repeating(rt.alloc(), "", "}", blocks, "}")?.as_str())?;
        assert!(rt; is_read(rt.alloc(), source.as_str()), "{inside}");
    }
    Ok(())
}

/// Index and addend are counted apart.
#[test]
fn counts_of_additions(rt: HostRuntime) -> Result<(), Fail> {
    let operators = numbered(rt.alloc(), "+", 256, "")?;
    let operators = operators.as_str();
    let index = repeating(rt.alloc(), "int main() { fetch_add(a[0", operators, 1, "")?;
    let addend = repeating(rt.alloc(), index.as_str(), "], 0", 1, operators)?;
    let kept = repeating(rt.alloc(), addend.as_str(), "); print(1 + 1); }", 1, "")?;
    assert!(rt; is_read(rt.alloc(), kept.as_str()));
    for (before, more) in [(index.as_str(), "+1], 1); }"), (addend.as_str(), "+1); }")] {
        let past = repeating(rt.alloc(), before, more, 1, "")?;
        assert_refusal(&rt, rt.alloc(), past.as_str(), 105, before.len() as u64);
    }
    Ok(())
}

#[test]
fn canonical_additions(rt: HostRuntime) -> Result<(), Fail> {
    static ROWS: [(&str, &str); 6] = [
        ("fetch_add(a[0],1);", "  fetch_add(a[0], 1);\n"),
        (
            "x = fetch_add(a[(i) + 1], ((-y) * 2));",
            "  x = fetch_add(a[i + 1], -y * 2);\n",
        ),
        (
            "int x = fetch_add(a[0], 1), y;",
            "  int x;\n  x = fetch_add(a[0], 1);\n  int y;\n",
        ),
        (
            "for (x = fetch_add(a[0], 1); x < 9; y = fetch_add(a[1], 2)) fetch_add(b[x], x);",
            "  {\n    x = fetch_add(a[0], 1);\n    while (x < 9) {\n      fetch_add(b[x], x);\n      y = fetch_add(a[1], 2);\n    }\n  }\n",
        ),
        (
            "for (int i = fetch_add(a[0], 1); ; ) ;",
            "  {\n    int i;\n    i = fetch_add(a[0], 1);\n    while (1) {\n    }\n  }\n",
        ),
        (
            "if (x) fetch_add(a[0], 1); else while (x) y = fetch_add(a[b[0]], a[1]);",
            "  if (x) {\n    fetch_add(a[0], 1);\n  } else {\n    while (x) {\n      y = fetch_add(a[b[0]], a[1]);\n    }\n  }\n",
        ),
    ];
    assert_each_canonical(&rt, rt.alloc(), &ROWS)
}
