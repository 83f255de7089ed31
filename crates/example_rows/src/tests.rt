//! Each example is read, checked, compiled and run, and prints what the same program in C prints.
mod sources;

use backer_top::backer;
use outside::{MemShelf, MemSink};
use std::alloc::Global;
use std::process::Abort;
use std::test::Fail;

/// `serial` of the source ends with 0 and puts this on `out`, and nothing on `err`.
fn assert_prints(rt: &impl Abort, alloc: Global, source: &str, wanted: &str) -> Result<(), Fail> {
    let words = vec![in alloc;
        String::from_str(alloc, "serial")?,
        String::from_str(alloc, "f")?,
    ]?;
    let texts = vec![in alloc;
        (
            String::from_str(alloc, "f")?,
            source.as_bytes().to_vec(alloc)?
        ),
    ]?;
    let mut shelf = MemShelf::new(alloc, texts, Vec::new(alloc))?;
    let mut out = MemSink::new(alloc, 1_000, Vec::new(alloc))?;
    let mut err = MemSink::new(alloc, 1_000, Vec::new(alloc))?;
    let ended = backer(alloc, words.as_slice(), &mut shelf, &mut out, &mut err);
    assert_eq!(rt; ended.number(), 0, "{source}");
    assert_eq!(rt; out.held(), wanted.as_bytes(), "{source}");
    assert_eq!(rt; err.puts(), 0, "{source}");
    Ok(())
}

#[test]
fn examples(rt: HostRuntime) -> Result<(), Fail> {
    static ROWS: [(&str, &str); 11] = [
        (sources::FIB, "6765\n"),
        (sources::QUEENS, "2\n10\n4\n40\n"),
        (sources::MERGE_SORT, "1\n3\n5654\n10002\n"),
        (sources::SUM_BY_HALVES, "40500\n"),
        (sources::MATRIX_PRODUCT, "66\n13750\n68376\n"),
        (
            sources::STENCIL,
            "1000000\n755226\n532705\n348884\n211018\n117269\n59578\n27528\n",
        ),
        (sources::COUNTING, "100\n"),
        (sources::RACING, "2\n"),
        (sources::CHANGES, "7\n40\n"),
        (sources::STRAIGHT_LINE, "0\n1\n1\n2\n3\n5\n"),
        (sources::SUM, "40\n6\n"),
    ];
    for &(source, wanted) in &ROWS {
        assert_prints(&rt, rt.alloc(), source, wanted)?;
    }
    Ok(())
}
