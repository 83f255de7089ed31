ghost use Rattle.cilk_parser.specs.Spots.{is_name_before};
ghost use Rattle.cilk_parser.specs.Phrases.{Lacks, Parses, arguments_phrase, call_phrase, opened_phrase, spawn_phrase};
ghost use Rattle.std.specs.Prelude.{◌≡◌, IsTrue, MatchResult};

use crate::opening::Opening;
use crate::parser::Parser;
use crate::refusal::ParseRefusal;
use cilk_tree::{Count, Counted, Expr, Name, Sign};
use sqlite_items::Items;

/// The name that is called or spawned, and the arguments.
#[derive(Drop)]
pub(crate) struct Call {
    pub(crate) name: Name,
    pub(crate) arguments: Items<Expr>,
}

impl<'a> Parser<'a> {
    /// Reads arguments and the parenthesis behind them.
    pub(crate) fn arguments(&mut self, level: u64) -> Result<Items<Expr>, ParseRefusal>
        ensures { MatchResult result (λ trees. Parses (arguments_phrase level) self.old self.new trees) (λ refusal. Lacks (arguments_phrase level) self.old refusal) }
    {
        let mut arguments = Items::new(self.alloc());
        if self.is_at(Sign::CloseParen) {
            self.pass(level, &[])?;
            return Ok(arguments);
        }
        loop {
            let argument = self.expression(0, level, Opening::Argument)?;
            arguments.push(argument)?;
            if !self.is_at(Sign::Comma) {
                self.sign(Sign::CloseParen, level)?;
                return Ok(arguments);
            }
            self.pass(level, &[])?;
        }
    }

    /// Reads the parenthesis behind the name that is called, and the arguments.
    fn opened(&mut self, level: u64) -> Result<Items<Expr>, ParseRefusal>
        ensures { MatchResult result (λ trees. Parses (opened_phrase level) self.old self.new trees) (λ refusal. Lacks (opened_phrase level) self.old refusal) }
    {
        if !self.is_at(Sign::OpenParen) {
            return Err(self.unexpected());
        }
        self.pass(level, &[Count::Anew(Counted::Arguments)])?;
        self.arguments(level)
    }

    /// Reads the name that is called or spawned, and the arguments.
    pub(crate) fn call(&mut self, level: u64) -> Result<Call, ParseRefusal>
        ensures spawned { MatchResult result (λ call. Parses (spawn_phrase level) self.old self.new call) (λ refusal. Lacks (spawn_phrase level) self.old refusal) }
        ensures called { IsTrue (is_name_before Sign.OpenParen self.old.left) →
            MatchResult result (λ call. Parses (call_phrase level) self.old self.new call) (λ refusal. Lacks (call_phrase level) self.old refusal) }
    {
        let name = self.name(level, &[])?;
        let arguments = self.opened(level)?;
        Ok(Call { name, arguments })
    }
}
