ghost use Rattle.cilk_parser.specs.Phrases.{Lacks, Parses, addition_phrase};
ghost use Rattle.std.specs.Prelude.{MatchResult};

use crate::opening::Opening;
use crate::parser::Parser;
use crate::refusal::ParseRefusal;
use cilk_tree::{Expr, Name, Sign};

/// The array, the index and the addend of a `fetch_add`.
#[derive(Drop)]
pub(crate) struct Addition {
    pub(crate) name: Name,
    pub(crate) index: Expr,
    pub(crate) addend: Expr,
}

impl<'a> Parser<'a> {
    /// Reads `(a[i], e)` behind `fetch_add`. The index is one level deeper, since it stands in brackets.
    pub(crate) fn added(&mut self, level: u64) -> Result<Addition, ParseRefusal>
        ensures { MatchResult result (λ addition. Parses (addition_phrase level) self.old self.new addition) (λ refusal. Lacks (addition_phrase level) self.old refusal) }
    {
        self.sign(Sign::OpenParen, level)?;
        let name = self.name(level, &[])?;
        self.sign(Sign::OpenBracket, level)?;
        let index = self.enclosed(level + 1, Opening::Whole, Sign::CloseBracket, level)?;
        self.sign(Sign::Comma, level)?;
        let addend = self.enclosed(level, Opening::Whole, Sign::CloseParen, level)?;
        Ok(Addition {
            name,
            index,
            addend,
        })
    }
}
