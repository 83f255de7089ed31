ghost use Rattle.command_words.specs.declared.command.Offline.{Offline as OfflineCommand};
ghost use Rattle.command_words.specs.Gathering.{file_in, values_in};
ghost use Rattle.command_words.specs.Words.{IsFile, IsElisionBudget, IsOffline, IsCommand};
ghost use Rattle.std.specs.Prelude.{◌≡◌, List, ℕ, map, string_bytes, MatchResult, IfOk, IfSome, Err, None};

use crate::command::{Command, FileName, Offline};
use crate::gathered::Gathered;
use crate::number::Range;
use crate::option_name::OptionName;
use crate::refusal::WordRefusal;
use std::alloc::Global;

/// How many ticks a serial elision may make.
const ELISION_BUDGET: Range = Range {
    least: 1,
    most: 2_000_000,
    default: 2_000_000,
};

/// The command that the words are. `words` are those behind the program's name. `Words` comes exactly where they are no
/// command: memory is wanted only for one.
pub fn read_words(alloc: Global, words: &[String]) -> Result<Command, WordRefusal>
    ensures command { IfOk result (λ command. IsCommand (map string_bytes words.now) command) }
    ensures only { (command : Command) → IsCommand (map string_bytes words.now) command →
        MatchResult result (λ found. found ≡ command) (λ refusal. refusal ≡ WordRefusal.Memory) }
    ensures words { result ≡ Err WordRefusal.Words → (command : Command) → ¬ IsCommand (map string_bytes words.now) command }
    ensures memory { result ≡ Err WordRefusal.Memory → ((command : Command) × IsCommand (map string_bytes words.now) command) }
{
    let Some((name, others)) = words.split_first() else {
        return Err(WordRefusal::Words);
    };
    let Some(gathered) = Gathered::of_words(others) else {
        return Err(WordRefusal::Words);
    };
    let command = read_offline(alloc, name.as_str(), &gathered)?;
    Ok(Command::Offline(command))
}

fn read_offline(alloc: Global, name: &str, gathered: &Gathered) -> Result<Offline, WordRefusal>
    ensures command { IfOk result (λ command. IsOffline name.now (file_in gathered.now) (values_in gathered.now) command) }
    ensures words { result ≡ Err WordRefusal.Words → (command : OfflineCommand) →
        ¬ IsOffline name.now (file_in gathered.now) (values_in gathered.now) command }
    ensures memory { result ≡ Err WordRefusal.Memory → ((command : OfflineCommand) ×
        IsOffline name.now (file_in gathered.now) (values_in gathered.now) command) }
{
    let file = file_named(gathered).ok_or(WordRefusal::Words)?;
    match name {
        "check" if gathered.budget().is_none() => Ok(Offline::Check {
            file: FileName::new(alloc, file)?,
        }),
        "serial" => Ok(Offline::Serial {
            budget: elision_budget(gathered).ok_or(WordRefusal::Words)?,
            file: FileName::new(alloc, file)?,
        }),
        "race" => Ok(Offline::Race {
            budget: elision_budget(gathered).ok_or(WordRefusal::Words)?,
            file: FileName::new(alloc, file)?,
        }),
        _ => Err(WordRefusal::Words),
    }
}

fn file_named<'a>(gathered: &Gathered<'a>) -> Option<&'a str>
    ensures some { IfSome result (λ file. IsFile (file_in gathered.now) file.now) }
    ensures none { result ≡ None → (file : List ℕ) → ¬ IsFile (file_in gathered.now) file }
{
    let file = gathered.file()?;
    match file.as_bytes().first() {
        Some(first) if *first != b'-' => Some(file),
        _ => None,
    }
}

fn elision_budget(gathered: &Gathered) -> Option<u64>
    ensures some { IfSome result (λ budget. IsElisionBudget (values_in gathered.now OptionName.Budget) budget) }
    ensures none { result ≡ None → (budget : ℕ) → ¬ IsElisionBudget (values_in gathered.now OptionName.Budget) budget }
{
    ELISION_BUDGET.number(gathered.budget())
}
