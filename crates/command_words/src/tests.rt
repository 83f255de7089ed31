use crate::{Command, Offline, WordRefusal, read_words};
use std::alloc::{AllocError, Global};
use std::test::Fail;

// The words of a line, which blanks divide.
fn words_of(alloc: Global, line: &str) -> Result<Vec<String>, AllocError> {
    let mut words = Vec::new(alloc);
    for word in line.split(' ') {
        words.push(String::from_str(alloc, word)?)?;
    }
    Ok(words)
}

// A command's name, its file, and its budget or 0.
fn told(read: &Result<Command, WordRefusal>) -> (&str, &str, u64) {
    match read {
        Ok(Command::Offline(Offline::Check { file })) => ("check", file.as_str(), 0),
        Ok(Command::Offline(Offline::Serial { file, budget })) => {
            ("serial", file.as_str(), *budget)
        }
        Ok(Command::Offline(Offline::Race { file, budget })) => ("race", file.as_str(), *budget),
        Err(WordRefusal::Words) => ("refused", "", 0),
        Err(WordRefusal::Memory) => ("memory", "", 0),
    }
}

#[test]
fn words_are_read(rt: HostRuntime) -> Result<(), Fail> {
    static ROWS: [(&str, &str, &str, u64); 19] = [
        ("check a.cilk", "check", "a.cilk", 0),
        ("serial a=b", "serial", "a=b", 2_000_000),
        ("serial --budget 5 7", "serial", "7", 5),
        ("race 7 --budget 2000000", "race", "7", 2_000_000),
        ("race --budget=1 a", "race", "a", 1),
        ("race a", "race", "a", 2_000_000),
        ("check", "refused", "", 0),
        ("a", "refused", "", 0),
        ("serial ", "refused", "", 0),
        ("serial -a", "refused", "", 0),
        ("serial a b", "refused", "", 0),
        ("check a --budget 5", "refused", "", 0),
        ("serial a --budget", "refused", "", 0),
        ("serial a --budget=", "refused", "", 0),
        ("serial a --budget 05", "refused", "", 0),
        ("serial a --budget +5", "refused", "", 0),
        ("serial a --budget 0", "refused", "", 0),
        ("serial a --budget 2000001", "refused", "", 0),
        ("serial a --budget 5 --budget=5", "refused", "", 0),
    ];
    for &(line, name, file, budget) in &ROWS {
        let words = words_of(rt.alloc(), line)?;
        let read = read_words(rt.alloc(), words.as_slice());
        assert_eq!(rt; told(&read), (name, file, budget), "{line}");
    }
    Ok(())
}
