use crate::{
    Failed, MemShelf, MemSink, RealShelf, RealSink, Shelf, Sink, TextRefusal, Words, read_text,
};
use std::alloc::{AllocError, Global};
use std::io::{Error, ErrorKind, Result as IoResult, Write};
use std::test::Fail;

fn text(alloc: Global) -> Result<Vec<u8>, AllocError> {
    (0..5000u16).map(|i| (i % 251) as u8).collect(alloc)
}

// A shelf that holds a text of 5,000 bytes, and fails at one call.
fn shelf(alloc: Global, failing: u64) -> Result<MemShelf, AllocError> {
    let mut texts = Vec::new(alloc);
    texts.push((String::from_str(alloc, "a.cilk")?, text(alloc)?))?;
    MemShelf::new(alloc, texts, vec![in alloc; failing]?)
}

#[test]
fn reads_a_text_of_two_pieces(rt: HostRuntime) -> Result<(), Fail> {
    let alloc = rt.alloc();
    let mut shelf = shelf(alloc, 0)?;
    let read = read_text(alloc, &mut shelf, "a.cilk", 5000)?;
    assert!(rt; read == text(alloc)?);
    assert_eq!(rt; shelf.calls(), 3);
    Ok(())
}

#[test]
fn refuses_a_text(rt: HostRuntime) -> Result<(), Fail> {
    let alloc = rt.alloc();
    let second_fails = read_text(alloc, &mut shelf(alloc, 2)?, "a.cilk", 5000).err();
    assert_eq!(rt; second_fails, Some(TextRefusal::Fault));
    let not_held = read_text(alloc, &mut shelf(alloc, 0)?, "b.cilk", 5000).err();
    assert_eq!(rt; not_held, Some(TextRefusal::Fault));
    let too_long = read_text(alloc, &mut shelf(alloc, 0)?, "a.cilk", 4999).err();
    assert_eq!(rt; too_long, Some(TextRefusal::TooLong));
    let none_fits = read_text(alloc, &mut shelf(alloc, 0)?, "a.cilk", 0).err();
    assert_eq!(rt; none_fits, Some(TextRefusal::TooLong));
    Ok(())
}

#[test]
fn reads_files(rt: HostRuntime) -> Result<(), Fail> {
    let alloc = rt.alloc();
    let mut shelf = RealShelf::new(rt.clone()?);
    assert_eq!(rt; read_text(alloc, &mut shelf, "/dev/null", 10)?.len(), 0);
    let endless = read_text(alloc, &mut shelf, "/dev/zero", 5000).err();
    assert_eq!(rt; endless, Some(TextRefusal::TooLong));
    let missing = read_text(alloc, &mut shelf, "/dev/null/a.cilk", 10).err();
    assert_eq!(rt; missing, Some(TextRefusal::Fault));
    let mut piece = [1; 4];
    assert_eq!(rt; shelf.read_at("/dev/zero", 9000, &mut piece), Ok(4));
    assert_eq!(rt; piece, [0; 4]);
    // the other file is opened, though its place is the one that was reached
    assert_eq!(rt; shelf.read_at("/dev/null", 9004, &mut piece), Ok(0));
    assert_eq!(rt;
        shelf.read_at("/dev/null/a.cilk", 9004, &mut piece),
        Err(Failed)
    );
    Ok(())
}

#[test]
fn keeps_a_part_at_a_failing_put(rt: HostRuntime) -> Result<(), Fail> {
    let alloc = rt.alloc();
    let mut sink = MemSink::new(alloc, 7, vec![in alloc; (2, 3)]?)?;
    assert_eq!(rt; sink.put(b"abc"), Ok(()));
    assert_eq!(rt; sink.put(b"defgh"), Err(Failed));
    assert_eq!(rt; sink.put(b"i"), Ok(()));
    assert_eq!(rt; sink.put(b"j"), Err(Failed));
    assert_eq!(rt; sink.held(), b"abcdefi".as_slice());
    assert_eq!(rt; sink.puts(), 4);
    Ok(())
}

#[test]
fn puts_into_a_writer(rt: HostRuntime) -> Result<(), Fail> {
    let mut bytes = Vec::new(rt.alloc());
    let mut sink = RealSink::new(&mut bytes);
    assert_eq!(rt; sink.put(b"abc"), Ok(()));
    assert_eq!(rt; sink.put(b"d"), Ok(()));
    drop(sink);
    assert_eq!(rt; bytes.as_slice(), b"abcd".as_slice());
    Ok(())
}

/// A writer that counts its flushes, of which those after the first fail.
#[derive(Drop)]
struct Flushed<'a> {
    flushes: &'a mut u64,
}

impl<'a> Write for Flushed<'a> {
    fn write(&mut self, piece: &[u8]) -> IoResult<usize> {
        Ok(piece.len())
    }

    fn flush(&mut self) -> IoResult<()> {
        *self.flushes = self.flushes.saturating_add(1);
        if *self.flushes == 1 {
            Ok(())
        } else {
            Err(Error::from(ErrorKind::BrokenPipe))
        }
    }
}

#[test]
fn flushes_each_piece(rt: HostRuntime) -> Result<(), Fail> {
    let mut flushes = 0;
    let mut sink = RealSink::new(Flushed {
        flushes: &mut flushes,
    });
    assert_eq!(rt; sink.put(b"abc"), Ok(()));
    assert_eq!(rt; sink.put(b"d"), Err(Failed));
    drop(sink);
    assert_eq!(rt; flushes, 2);
    Ok(())
}

#[test]
fn lists_words(rt: HostRuntime) -> Result<(), Fail> {
    let mut words = Words::new(rt.alloc());
    words.push(-4)?;
    words.push(9)?;
    assert_eq!(rt; words.items(), [-4, 9].as_slice());
    Ok(())
}
