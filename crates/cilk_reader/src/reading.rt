ghost use Rattle.cilk_reader.specs.Refusals.{IsReason};
ghost use Rattle.cilk_tree.specs.Kind.{kind_number};
ghost use Rattle.cilk_tree.specs.Size.{program_size};
ghost use Rattle.cilk_tree.specs.Spelling.{IsRefusal, Spells};
ghost use Rattle.cilk_tree.specs.Writable.{IsWritable};
ghost use Rattle.cilk_tree.specs.declared.kind.Kind.{Kind};
ghost use Rattle.cilk_tree.specs.declared.tree.Program.{Program};
ghost use Rattle.std.specs.Prelude.{◌≡◌, ◌⊎◌, ◌≤◌, ◌*◌, ℕ, length, IfErr, IfOk, MatchResult};

use crate::lexer::divide;
use crate::refusal::ReadRefusal;
use cilk_parser::{End, parse};
use cilk_tree::Program;
use std::alloc::Global;

/// The program that the text spells. `At` comes exactly where it spells none: for what is wrong at the smallest
/// offset, and at one offset for the kind with the smallest number.
pub fn read_program(alloc: Global, text: &[u8]) -> Result<Program, ReadRefusal>
    ensures found { IfOk result (λ program. Spells text.now program) }
    // A text spells one program at most, and one that is spelled is read unless memory runs out.
    ensures unique { (one other : Program) → Spells text.now one → Spells text.now other → one ≡ other }
    ensures only { (program : Program) → Spells text.now program →
        MatchResult result (λ read. read ≡ program) (λ refusal. refusal ≡ ReadRefusal.Memory) }
    ensures refused { IfErr result (IsReason text.now) }
    // A text that is refused is refused so, unless memory runs out.
    ensures exact { (kind : Kind) (offset : ℕ) → IsRefusal text.now kind offset →
        MatchResult result (λ _. ⊥) (λ refusal. (refusal ≡ ReadRefusal.At (kind_number kind) offset) ⊎ (refusal ≡ ReadRefusal.Memory)) }
    ensures writable { IfOk result IsWritable }
    // It has at most twice as many arrays, functions, statements and expressions together as the text has bytes.
    ensures small { IfOk result (λ program. program_size program ≤ 2 * length text.now) }
{
    let division = divide(alloc, text)?;
    let end = End {
        size: text.len() as u64,
        ending: division.ending,
    };
    Ok(parse(alloc, division.places.as_slice(), end)?)
}
