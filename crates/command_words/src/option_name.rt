ghost use Rattle.command_words.specs.Gathering.{option_named};
ghost use Rattle.std.specs.Prelude.{◌≡◌};

/// An option of a command. Each has a value.
#[derive(Clone, Copy, Debug, PartialEq, Eq)]
pub(crate) enum OptionName {
    Budget,
}

impl OptionName {
    /// The option that is written in this way.
    pub(crate) fn named(word: &str) -> Option<Self>
        ensures { result ≡ option_named word.now }
    {
        if word == "--budget" {
            return Some(OptionName::Budget);
        }
        None
    }
}
