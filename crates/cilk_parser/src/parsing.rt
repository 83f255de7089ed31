ghost use Rattle.cilk_parser.specs.Faults.{IsRefusedFor};
ghost use Rattle.cilk_parser.specs.Spots.{Refuses};
ghost use Rattle.cilk_parser.specs.Phrases.{HasProgram, answer_on};
ghost use Rattle.cilk_tree.specs.Lexeme.{Divides, tokens_of};
ghost use Rattle.cilk_tree.specs.Spelling.{IsFault, IsProgram};
ghost use Rattle.cilk_tree.specs.declared.ending.Ending.TheVariants.{Reached};
ghost use Rattle.cilk_tree.specs.declared.kind.Kind.{Kind};
ghost use Rattle.cilk_tree.specs.declared.tree.Program.{Program};
ghost use Rattle.std.specs.Prelude.{◌≡◌, List, ℕ, length, IfErr, IfOk, MatchResult};

use crate::parser::{End, Parser};
use crate::refusal::ParseRefusal;
use cilk_tree::{Placed, Program};
use sqlite_items::Items;
use std::alloc::Global;

/// The program whose tokens these are, in a text that ends so.
pub fn parse(alloc: Global, places: &[Placed], end: End) -> Result<Program, ParseRefusal>
    ensures whole { IfOk result (λ _. end.ending ≡ Reached) }
    ensures found { IfOk result (λ program. IsProgram (tokens_of places.now) program) }
    // They are those of no other program, and it is found unless memory runs out.
    ensures only { (program : Program) → end.ending ≡ Reached → IsProgram (tokens_of places.now) program →
        MatchResult result (λ read. read ≡ program) (λ refusal. refusal ≡ ParseRefusal.Memory) }
    // Where they are those of a text, this is how it is refused.
    ensures refused { (text : List ℕ) → Divides 0 text places.now end.ending → end.size ≡ length text → IfErr result (IsRefusedFor text) }
    // Where something is wrong with them, no program is found.
    ensures faultless { (kind : Kind) (offset : ℕ) → IsFault end.size places.now end.ending kind offset → IfOk result (λ _. ⊥) }
{
    program_of(alloc, places, end)
}

/// The same as the machine that the proofs speak of answers it.
fn program_of(alloc: Global, places: &[Placed], end: End) -> Result<Program, ParseRefusal>
    ensures { MatchResult result (λ program. HasProgram end places.now program) (λ refusal. Refuses (answer_on end places.now) refusal) }
{
    let mut parser = Parser::new(alloc, places, end);
    let mut program = Program {
        shared: Items::new(alloc),
        functions: Items::new(alloc),
    };
    while !parser.is_done() {
        parser.item(&mut program)?;
    }
    parser.finish()?;
    Ok(program)
}
