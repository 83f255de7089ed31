ghost use Rattle.command_words.specs.Gathering.{filled, parted, with_file, with_value, with_word, with_words, gathered_from};
ghost use Rattle.std.specs.Prelude.{◌≡◌, map, string_bytes};
ghost use Rattle.std.specs.Option.{option_map};

use crate::option_name::OptionName;
use std::marker::Model;

/// The file and the values that the words behind a command's name give, each at most once.
#[derive(Drop)]
pub(crate) struct Gathered<'a> {
    file: Option<&'a str>,
    budget: Option<&'a str>,
    /// the option whose value is the next word
    due: Option<OptionName>,
}

impl<'a> Model for Gathered<'a> {
    ghost use Rattle.command_words.specs.Gathering.{Gathered};
    ghost use Rattle.std.specs.Option.{option_map};

    ghost Value = { Gathered };

    ghost view = { λ g. record { file = option_map (λ text. text.now) g.file; budget = option_map (λ text. text.now) g.budget; due = g.due } };
}

impl<'a> Gathered<'a> {
    /// What all the words give, where none of it is given twice and no value is missing.
    pub(crate) fn of_words(words: &'a [String]) -> Option<Self>
        ensures { result ≡ gathered_from (map string_bytes words.now) }
    {
        let mut gathered = Gathered {
            file: None,
            budget: None,
            due: None,
        };
        for word in words {
            gathered = gathered.with_word(word.as_str())?;
        }
        if gathered.due.is_some() {
            return None;
        }
        Some(gathered)
    }

    pub(crate) fn file(&self) -> Option<&'a str>
        ensures { option_map (λ text. text.now) result ≡ self.now.file }
    {
        self.file
    }

    pub(crate) fn budget(&self) -> Option<&'a str>
        ensures { option_map (λ text. text.now) result ≡ self.now.budget }
    {
        self.budget
    }

    fn with_word(self, word: &'a str) -> Option<Self>
        ensures { result ≡ with_word self.entry word.now }
    {
        if let Some(option) = self.due {
            return self.with_value(option, word);
        }
        let (name, value) = parted(word);
        let Some(option) = OptionName::named(name) else {
            return self.with_file(word);
        };
        match value {
            Some(value) => self.with_value(option, value),
            None => Some(Gathered {
                due: Some(option),
                ..self
            }),
        }
    }

    fn with_value(self, option: OptionName, value: &'a str) -> Option<Self>
        ensures { result ≡ with_value self.entry option value.now }
    {
        match option {
            OptionName::Budget => Some(Gathered {
                budget: Some(filled(self.budget, value)?),
                due: None,
                ..self
            }),
        }
    }

    fn with_file(self, word: &'a str) -> Option<Self>
        ensures { result ≡ with_file self.entry word.now }
    {
        Some(Gathered {
            file: Some(filled(self.file, word)?),
            ..self
        })
    }
}

/// The word, where the slot that it is for is empty.
fn filled<'a>(slot: Option<&'a str>, word: &'a str) -> Option<&'a str>
    ensures { option_map (λ text. Some text.now) result ≡ filled (option_map (λ text. text.now) slot.entry) word.now }
{
    match slot {
        Some(_) => None,
        None => Some(word),
    }
}

/// What stands before the first `=`, and what behind it.
fn parted(word: &str) -> (&str, Option<&str>)
    ensures name { result.0.now ≡ (parted word.now).0 }
    ensures value { option_map (λ text. text.now) result.1 ≡ (parted word.now).1 }
{
    match word.split_once('=') {
        Some((name, value)) => (name, Some(value)),
        None => (word, None),
    }
}
