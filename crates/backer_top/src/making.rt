ghost use Rattle.std.specs.Prelude.{◌≡◌, IfOk, List, MatchOption, ℕ};
ghost use Rattle.backer_top.specs.Due.{Makes, Tells, TellsRace, done, only};
ghost use Rattle.backer_top.specs.Outcome.{IsElided};
ghost use Rattle.backer_top.specs.Output.{lines};
ghost use Rattle.command_words.specs.declared.command.Offline.TheVariants as offline;
ghost use Rattle.span_tree.specs.Memory.{output_of};

use crate::lines::lines_of;
use crate::race_line::race_line;
use crate::status::Status;
use cilk_checker::Checked;
use cilk_compiler::compile;
use cilk_meaning::NodeEnd;
use cilk_tree::{Program, print_program};
use command_words::Offline;
use race_check::find_race;
use serial_run::{SerialEnd, serial};
use span_tree::History;
use std::alloc::{AllocError, Global};
use std::marker::Model;

/// What a command answers: a status, and a text for `out`.
#[derive(Debug, Drop)]
pub(crate) struct Reply {
    pub(crate) status: Status,
    pub(crate) text: Vec<u8>,
}

impl Model for Reply {
    ghost use Rattle.backer_top.specs.Due.{Reply};

    ghost Value = { Reply };

    ghost view = { λ reply. record { status = reply.status; text = reply.text.items } };
}

impl Reply {
    fn done(text: Vec<u8>) -> Reply
        ensures { result ≡ done text.items }
    {
        Reply {
            status: Status::Done,
            text,
        }
    }

    /// A status without a text.
    fn only(alloc: Global, status: Status) -> Reply
        ensures { result ≡ only status }
    {
        Reply {
            status,
            text: Vec::new(alloc),
        }
    }
}

/// What the command makes of a lawful program.
pub(crate) fn made(alloc: Global, command: &Offline, checked: &Checked) -> Result<Reply, AllocError>
    ensures { IfOk result (Makes command.now checked.now) }
{
    match command {
        Offline::Check { .. } => Ok(Reply::done(print_program(alloc, checked.program())?)),
        Offline::Serial { budget, .. } => run(alloc, checked, *budget),
        Offline::Race { budget, .. } => look_for_race(alloc, checked, *budget),
    }
}

/// What the serial elision prints, each value on a line.
fn run(alloc: Global, checked: &Checked, budget: u64) -> Result<Reply, AllocError>
    ensures { IfOk result (λ reply. (file : List ℕ) → Makes (offline.Serial file budget) checked.now reply) }
{
    let ended = elide(alloc, checked, budget)?;
    match unfinished(alloc, ended.end) {
        Some(reply) => Ok(reply),
        None => printed(alloc, &ended.history),
    }
}

/// The first race of the serial elision's history, which is looked for where the elision finished.
fn look_for_race(alloc: Global, checked: &Checked, budget: u64) -> Result<Reply, AllocError>
    ensures { IfOk result (λ reply. (file : List ℕ) → Makes (offline.Race file budget) checked.now reply) }
{
    let ended = elide(alloc, checked, budget)?;
    match unfinished(alloc, ended.end) {
        Some(reply) => Ok(reply),
        None => first_race(alloc, checked.program(), &ended.history),
    }
}

/// What is told of a run that did not finish; None where it did.
fn unfinished(alloc: Global, end: NodeEnd) -> Option<Reply>
    ensures { MatchOption result (end ≡ NodeEnd.Finished) (Tells end (λ _. ⊥)) }
{
    match end {
        NodeEnd::Finished => None,
        NodeEnd::Trapped(kind) => Some(Reply::only(alloc, Status::Trap { kind, node: 0 })),
        NodeEnd::Budget => Some(Reply::only(alloc, Status::Budget { node: 0 })),
    }
}

/// The printed values of a history, each on a line.
fn printed(alloc: Global, history: &History) -> Result<Reply, AllocError>
    ensures { IfOk result (λ reply. reply ≡ done (lines (output_of history.now))) }
{
    let values = history.output(alloc)?;
    Ok(Reply::done(lines_of(alloc, values.as_slice())?))
}

/// The serial elision of the program.
fn elide(alloc: Global, checked: &Checked, budget: u64) -> Result<SerialEnd, AllocError>
    ensures { IfOk result (IsElided checked.now budget) }
{
    let code = compile(alloc, checked)?;
    serial(alloc, &code, budget)
}

/// The first race of a history, in a line.
fn first_race(alloc: Global, program: &Program, history: &History) -> Result<Reply, AllocError>
    ensures { IfOk result (TellsRace program.now history.now) }
{
    match find_race(alloc, history)? {
        Some(race) => Ok(Reply {
            status: Status::Race(race),
            text: race_line(alloc, program, history, race)?,
        }),
        None => Ok(Reply::done(Vec::from_slice(alloc, b"no race\n")?)),
    }
}
