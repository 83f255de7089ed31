ghost use Rattle.std.specs.Prelude.{◌≡◌, ◌++◌, codes, IfOk, OnOk};
ghost use Rattle.std.specs.Fmt.{decimal};
ghost use Rattle.backer_top.specs.RaceLine.{access_words, place_of_access, race_line, word_words};

use cilk_tree::{Program, Shared};
use race_check::Race;
use span_tree::{Act, History, Place};
use std::alloc::{AllocError, Global};

/// The line that tells a race of a history of the program.
pub(crate) fn race_line(
    alloc: Global,
    program: &Program,
    history: &History,
    race: Race,
) -> Result<Vec<u8>, AllocError>
    ensures { IfOk result (λ line. line.items ≡ race_line program.now history.now race) }
{
    let mut line = Vec::from_slice(alloc, b"race on ")?;
    push_word(alloc, &mut line, program.shared.as_slice(), race.word)?;
    line.extend_from_slice(b": ")?;
    push_access(alloc, &mut line, history, race.first)?;
    line.extend_from_slice(b", ")?;
    push_access(alloc, &mut line, history, race.second)?;
    line.push(b'\n')?;
    Ok(line)
}

/// Adds a shared word in the words of the source.
fn push_word(
    alloc: Global,
    line: &mut Vec<u8>,
    arrays: &[Shared],
    word: u32,
) -> Result<(), AllocError>
    ensures { OnOk result (line.new.items ≡ line.old.items ++ word_words arrays.now word) }
{
    let mut index = word as u64;
    for array in arrays {
        if index < array.words {
            line.extend_from_slice(array.name.items())?;
            return push_index(alloc, line, index);
        }
        index -= array.words;
    }
    Ok(())
}

fn push_index(alloc: Global, line: &mut Vec<u8>, index: u64) -> Result<(), AllocError>
    ensures { OnOk result (line.new.items ≡ line.old.items ++ (codes "[" ++ decimal index ++ codes "]")) }
{
    let words = format!(in alloc; "[{index}]")?;
    line.extend_from_slice(words.as_bytes())
}

/// Adds the place of an access, and what it does.
fn push_access(
    alloc: Global,
    line: &mut Vec<u8>,
    history: &History,
    place: Place,
) -> Result<(), AllocError>
    ensures { OnOk result (line.new.items ≡ line.old.items ++ place_of_access history.now place) }
{
    let Place { row, act } = place;
    let words = format!(in alloc; "row {row} act {act} ")?;
    line.extend_from_slice(words.as_bytes())?;
    line.extend_from_slice(access_words(history.act(place)))
}

/// What an act does to its word.
fn access_words(act: Option<Act>) -> &'static [u8]
    ensures { result.now ≡ access_words act }
{
    match act {
        Some(Act::Read { .. }) => b"read",
        Some(Act::Write { .. }) => b"write",
        Some(Act::Add { .. }) => b"add",
        Some(Act::Print { .. } | Act::Spawn { .. } | Act::Sync) | None => b"",
    }
}
