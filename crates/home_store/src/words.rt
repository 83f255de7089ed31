ghost use Rattle.std.specs.Prelude.{◌≡◌, ◌+◌, ◌<◌, ◌≤◌, ◌^◌, length, take, drop};
ghost use Rattle.std.specs.List.{slice_range};
ghost use Rattle.cilk_meaning.specs.World as world;
ghost use Rattle.machine_code.specs.StandsFor.{start_words_of};
ghost use Rattle.page_words.specs.Page.{IsMerged};

use machine_code::Code;
use page_words::merge_words;

/// The word at its start: a number of the input, or 0.
pub fn start_word(code: &Code, word: u64) -> i64
    ensures { result ≡ start_words_of code.now word }
{
    match word.checked_sub(u64::from(code.input_base)) {
        Some(place) => code.input.items().get(place as usize).copied().unwrap_or(0),
        None => 0,
    }
}

/// Sets the words whose bits are in the mask to those given, from this place on.
pub fn merge_at(words: &mut [i64], first: usize, mask: u64, given: &[i64])
    requires room { first + length given.now ≤ length words.old }
    requires few { length given.now ≤ 64 }
    requires bits { mask < 2 ^ length given.now }
    ensures before { take first words.new ≡ take first words.old }
    ensures merged { IsMerged mask given.now (slice_range words.old first (first + length given.now)) (slice_range words.new first (first + length given.now)) }
    ensures behind { drop (first + length given.now) words.new ≡ drop (first + length given.now) words.old }
{
    merge_words(&mut words[first..first + given.len()], mask, given);
}

/// What an add leaves: the sum where that is a value, and else what was there.
pub fn sum_or_old(old: i64, addend: i64) -> i64
    ensures { result ≡ world.sum_or_old old addend }
{
    old.checked_add(addend).unwrap_or(old)
}
