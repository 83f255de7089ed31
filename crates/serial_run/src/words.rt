ghost use Rattle.std.specs.Prelude.{◌≡◌, ◌<◌, length, IfOk};
ghost use Rattle.cilk_meaning.specs.World.{sum_or_old};
ghost use Rattle.machine_code.specs.StandsFor.{start_words_of};
ghost use Rattle.machine_code.specs.Valid.{words_in};
ghost use Rattle.serial_run.specs.Elision.{AreWords};

use machine_code::Code;
use outside::Words;
use std::alloc::{AllocError, Global};

/// The shared words of a code at its start.
pub fn start_words(alloc: Global, code: &Code) -> Result<Vec<i64>, AllocError>
    ensures { IfOk result (λ words. AreWords (words_in code.now.shared) (start_words_of code.now) words.items) }
{
    let count = code.words();
    let mut words = Vec::with_capacity(alloc, count as usize)?;
    for word in 0..count {
        words.push(start_word(code, word))?;
    }
    Ok(words)
}

/// A number of the input, or 0.
fn start_word(code: &Code, word: u32) -> i64
    ensures { result ≡ start_words_of code.now word }
{
    if word < code.input_base {
        return 0;
    }
    match code.input.items().get((word - code.input_base) as usize) {
        Some(number) => *number,
        None => 0,
    }
}

/// What an add leaves: the sum where that is a value, and else what was there.
pub fn sum_or_old(old: i64, addend: i64) -> i64
    ensures { result ≡ sum_or_old old addend }
{
    old.checked_add(addend).unwrap_or(old)
}

/// A list of these values.
pub fn copied(alloc: Global, values: &[i64]) -> Result<Words, AllocError>
    ensures { IfOk result (λ words. words ≡ values.now) }
{
    let mut words = Words::new(alloc);
    for value in values {
        words.push(*value)?;
    }
    Ok(words)
}
