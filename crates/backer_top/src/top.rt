ghost use Rattle.std.specs.Prelude.{◌≡◌, ◌≢◌, ◌↔◌, ◌≤◌, List, ℕ, true, false, None, Some, map, length, string_bytes, IfOk, IfErr};
ghost use Rattle.backer_top.specs.Lines.{IsLineOf, IsTelling, line_bytes};
ghost use Rattle.backer_top.specs.Outcome.{IsOutcome, IsReading, StopsWith};
ghost use Rattle.backer_top.specs.Output.{IsHalfTold, IsTold, sink_use};
ghost use Rattle.backer_top.specs.Reading.{ReadsWhole, StopsReading, file_of, shelf_use, source_limit};
ghost use Rattle.backer_top.specs.Run.{IsRun};
ghost use Rattle.backer_top.specs.Status.{HasFixedLine, is_shown};
ghost use Rattle.backer_top.specs.WordsRefused.{IsNoCommand};
ghost use Rattle.command_words.specs.declared.command.Offline.{Offline};
ghost use Rattle.command_words.specs.Words.{IsCommand};
ghost use Rattle.outside.specs.Device.{Rose};

use crate::answer::Answer;
use crate::making::{Reply, made};
use crate::status::{Ended, SourceRefusal, Status};
use crate::writing::write_all;
use cilk_checker::{CheckRefusal, Checked, check_program};
use cilk_reader::{ReadRefusal, read_program};
use command_words::{Command, Offline, WordRefusal, read_words};
use outside::{Failed, Shelf, Sink, TextRefusal, read_text};
use std::alloc::Global;

/// How many bytes a source may have.
const SOURCE_LIMIT: u64 = 1_048_576;

/// The whole program: takes the words after its name, and does what they say.
pub fn backer<L: Shelf, O: Sink, E: Sink>(
    alloc: Global,
    words: &[String],
    shelf: &mut L,
    out: &mut O,
    err: &mut E,
) -> Ended
    // The words are refused exactly where they are no command; then the shelf is not called, and the line is put on `err`.
    ensures words { (result.status ≡ Status.Words) ↔ IsNoCommand (map string_bytes words.now) }
    ensures no_call { result.status ≡ Status.Words → shelf.new ≡ shelf.old }
    ensures words_told { result.status ≡ Status.Words → (text : List ℕ) → IsTelling E.held E.took E.failed err.old err.new text result }

    // One text serves all that is said of a command.
    ensures command { (command : Offline) → IsCommand (map string_bytes words.now) (Command.Offline command) →
        ((text : List ℕ) × IsRun (shelf_use L.texts L.faults L.gave L.failed (file_of command) shelf.old shelf.new)
        (sink_use O.held O.faults O.took O.failed out.old out.new) command text result.status
        × IsTelling E.held E.took E.failed err.old err.new text result) }
    ensures nothing_written { is_shown result.status ≡ false → result.status ≢ Status.WriteFault → out.new ≡ out.old }

    // The shelf tells the same texts, and no count of faults falls.
    ensures texts { L.texts shelf.new ≡ L.texts shelf.old }
    ensures shelf_faults { (name : List ℕ) → L.faults shelf.old name ≤ L.faults shelf.new name }
    ensures out_faults { O.faults out.old ≤ O.faults out.new }
    ensures err_faults { E.faults err.old ≤ E.faults err.new }

    // A status that is shown on `out` puts nothing on `err`, and `mute` tells a put there that failed.
    ensures quiet { is_shown result.status ≡ true → (err.new ≡ err.old) × (result.mute ≡ false) }
    ensures mute { result.mute ≡ true → Rose (E.faults err.old) (E.faults err.new) }
{
    match read_words(alloc, words) {
        Ok(command) => offline(alloc, offline_of(&command), shelf, out, err),
        Err(WordRefusal::Words) => tell(&Answer::of(Status::Words), err),
        Err(WordRefusal::Memory) => tell(&Answer::of(Status::Memory), err),
    }
}

/// What a command says. All commands start no threads today.
fn offline_of(command: &Command) -> &Offline
    ensures { command.now ≡ Command.Offline result.now }
{
    match command {
        Command::Offline(offline) => offline,
    }
}

/// A command that starts no threads: reads the file that it names from the shelf, checks its program, and puts what the
/// command makes of it on `out`. A status that is not shown there is told in one line on `err`.
pub fn offline<L: Shelf, O: Sink, E: Sink>(
    alloc: Global,
    command: &Offline,
    shelf: &mut L,
    out: &mut O,
    err: &mut E,
) -> Ended
    // One text serves all that is said of the command.
    ensures run { (text : List ℕ) × IsRun (shelf_use L.texts L.faults L.gave L.failed (file_of command.now) shelf.old shelf.new)
        (sink_use O.held O.faults O.took O.failed out.old out.new) command.now text result.status
        × IsTelling E.held E.took E.failed err.old err.new text result }
    ensures nothing_written { is_shown result.status ≡ false → result.status ≢ Status.WriteFault → out.new ≡ out.old }
    ensures words { result.status ≢ Status.Words }

    // The shelf tells the same texts, and no count of faults falls.
    ensures texts { L.texts shelf.new ≡ L.texts shelf.old }
    ensures shelf_faults { (name : List ℕ) → L.faults shelf.old name ≤ L.faults shelf.new name }
    ensures out_faults { O.faults out.old ≤ O.faults out.new }
    ensures err_faults { E.faults err.old ≤ E.faults err.new }

    // A status that is shown on `out` puts nothing on `err`, and `mute` tells a put there that failed.
    ensures quiet { is_shown result.status ≡ true → (err.new ≡ err.old) × (result.mute ≡ false) }
    ensures mute { result.mute ≡ true → Rose (E.faults err.old) (E.faults err.new) }
{
    let answer = perform(alloc, command, shelf, out);
    tell(&answer, err)
}

/// Puts the answer's line on `err`, none at a status that is shown on `out`.
fn tell<E: Sink>(answer: &Answer, err: &mut E) -> Ended
    ensures status { result.status ≡ answer.now.status }
    ensures err_faults { E.faults err.old ≤ E.faults err.new }
    ensures quiet { is_shown result.status ≡ true → (err.new ≡ err.old) × (result.mute ≡ false) }
    ensures told { is_shown result.status ≡ false → result.mute ≡ false → IsTold E.held E.took err.old err.new (line_bytes answer.now.line) }
    ensures mute { result.mute ≡ true → Rose (E.faults err.old) (E.faults err.new) × IsHalfTold E.held E.failed err.old err.new (line_bytes answer.now.line) }
{
    let status = answer.status;
    let mute = !status.is_shown() && err.put(answer.line.bytes()).is_err();
    Ended { status, mute }
}

/// Reads the file, and puts what the command makes of its program on `out`.
fn perform<L: Shelf, O: Sink>(
    alloc: Global,
    command: &Offline,
    shelf: &mut L,
    out: &mut O,
) -> Answer
    ensures run { (text : List ℕ) × IsRun (shelf_use L.texts L.faults L.gave L.failed (file_of command.now) shelf.old shelf.new)
        (sink_use O.held O.faults O.took O.failed out.old out.new) command.now text result.status
        × IsLineOf text result.status (line_bytes result.line) }
    ensures nothing_written { is_shown result.status ≡ false → result.status ≢ Status.WriteFault → out.new ≡ out.old }
    ensures texts { L.texts shelf.new ≡ L.texts shelf.old }
    ensures shelf_faults { (name : List ℕ) → L.faults shelf.old name ≤ L.faults shelf.new name }
    ensures out_faults { O.faults out.old ≤ O.faults out.new }
{
    let text = match source(alloc, file_of(command), shelf) {
        Ok(text) => text,
        Err(status) => return Answer::of(status),
    };
    let reply = match reply(alloc, command, text.as_slice()) {
        Ok(reply) => reply,
        Err(answer) => return answer,
    };
    match write_all(out, reply.text.as_slice()) {
        Ok(()) => Answer::of(reply.status),
        Err(Failed) => Answer::of(Status::WriteFault),
    }
}

/// The file that a command names.
fn file_of(command: &Offline) -> &str
    ensures { result.now ≡ file_of command.now }
{
    match command {
        Offline::Check { file } => file.as_str(),
        Offline::Serial { file, budget: _ } => file.as_str(),
        Offline::Race { file, budget: _ } => file.as_str(),
    }
}

/// The text of the file.
fn source<L: Shelf>(alloc: Global, file: &str, shelf: &mut L) -> Result<Vec<u8>, Status>
    ensures whole { IfOk result (λ text. ReadsWhole (shelf_use L.texts L.faults L.gave L.failed file.now shelf.old shelf.new) text.items) }
    ensures stopped { IfErr result (λ status. (text : List ℕ) × StopsReading (shelf_use L.texts L.faults L.gave L.failed file.now shelf.old shelf.new) text status) }
    ensures fixed { IfErr result HasFixedLine }
    ensures texts { L.texts shelf.new ≡ L.texts shelf.old }
    ensures shelf_faults { (name : List ℕ) → L.faults shelf.old name ≤ L.faults shelf.new name }
{
    match read_text(alloc, shelf, file, SOURCE_LIMIT) {
        Ok(text) => Ok(text),
        Err(TextRefusal::Fault) => Err(Status::ReadFault),
        Err(TextRefusal::TooLong) => Err(Status::Source(SourceRefusal::TooLong)),
        Err(TextRefusal::Memory) => Err(Status::Memory),
    }
}

/// What the command makes of the text.
fn reply(alloc: Global, command: &Offline, text: &[u8]) -> Result<Reply, Answer>
    requires { length text.now ≤ source_limit }
    ensures outcome { IfOk result (IsOutcome command.now text.now) }
    ensures fixed { IfOk result (λ reply. HasFixedLine reply.status) }
    ensures stopped { IfErr result (λ answer. StopsWith command.now text.now answer.status) }
    ensures line { IfErr result (λ answer. IsLineOf text.now answer.status (line_bytes answer.line)) }
{
    let checked = match accepted(alloc, text) {
        Ok(checked) => checked,
        Err(answer) => return Err(answer),
    };
    match made(alloc, command, &checked) {
        Ok(reply) => Ok(reply),
        Err(_) => Err(Answer::of(Status::Memory)),
    }
}

/// The program that the text spells, checked.
fn accepted(alloc: Global, text: &[u8]) -> Result<Checked, Answer>
    requires { length text.now ≤ source_limit }
    ensures accepted { IfOk result (IsReading text.now) }
    ensures refused { IfErr result (λ answer. (command : Offline) → StopsWith command text.now answer.status) }
    ensures line { IfErr result (λ answer. IsLineOf text.now answer.status (line_bytes answer.line)) }
{
    let program = match read_program(alloc, text) {
        Ok(program) => program,
        Err(ReadRefusal::At { kind, offset }) => return Err(Answer::unread(alloc, kind, offset)),
        Err(ReadRefusal::Memory) => return Err(Answer::of(Status::Memory)),
    };
    match check_program(alloc, program) {
        Ok(checked) => Ok(checked),
        Err(CheckRefusal::At { kind, place }) => Err(Answer::unlawful(alloc, text, kind, place)),
        Err(CheckRefusal::Memory) => Err(Answer::of(Status::Memory)),
    }
}
