ghost use Rattle.command_words.specs.Numerals.{IsPlain};
ghost use Rattle.command_words.specs.Words.{IsNumber};
ghost use Rattle.std.specs.Prelude.{◌≡◌, ℕ, ◌<◌, ◌≤◌, ◌^◌, IfSome, IsTrue, ◌↔◌, None};
ghost use Rattle.std.specs.Fmt.{decimal};
ghost use Rattle.std.specs.Option.{option_map, option_to_list};

/// The numbers that an option may have, and the one that it has where it is not given.
#[derive(Clone, Copy)]
pub(crate) struct Range {
    pub(crate) least: u64,
    pub(crate) most: u64,
    pub(crate) default: u64,
}

impl Range {
    /// The option's number, where this is its value.
    pub(crate) fn number(self, value: Option<&str>) -> Option<u64>
        ensures some { IfSome result (λ n. IsNumber self.least self.most self.default (option_to_list (option_map (λ text. text.now) value.entry)) n) }
        ensures none { result ≡ None → (n : ℕ) → ¬ IsNumber self.least self.most self.default (option_to_list (option_map (λ text. text.now) value.entry)) n }
    {
        let Some(word) = value else {
            return Some(self.default);
        };
        let number = number_of(word)?;
        if number < self.least {
            return None;
        }
        if number > self.most {
            return None;
        }
        Some(number)
    }
}

/// The number that the word is in decimal.
fn number_of(word: &str) -> Option<u64>
    ensures some { IfSome result (λ n. word.now ≡ decimal n) }
    ensures none { result ≡ None → (n : ℕ) → n < 2 ^ 64 → ¬ (word.now ≡ decimal n) }
{
    if !is_plain(word) {
        return None;
    }
    word.parse::<u64>().ok()
}

/// Whether neither a plus stands in front nor a zero before another digit.
fn is_plain(word: &str) -> bool
    ensures { IsTrue result ↔ IsPlain word.now }
{
    if word.starts_with('+') {
        return false;
    }
    if word.starts_with('0') {
        return word.len() == 1;
    }
    true
}
