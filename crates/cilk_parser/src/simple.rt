ghost use Rattle.cilk_parser.specs.Phrases.{Lacks, LacksSimple, Parses, declaration_phrase, declarator_phrase, right_phrase, simple_phrase};
ghost use Rattle.cilk_parser.specs.Starts.{starts_simple};
ghost use Rattle.std.specs.Prelude.{◌≡◌, IfOk, MatchResult, ℤ};

use crate::expression::binary;
use crate::opening::Opening;
use crate::parser::Parser;
use crate::refusal::ParseRefusal;
use crate::starts::SimpleStart;
use cilk_tree::{BinaryOp, Count, Counted, Expr, Keyword, Name, Sign, Stmt};
use sqlite_items::Items;
use std::alloc::{AllocError, Global};

impl<'a> Parser<'a> {
    /// Reads what stands behind `=`, as a statement that sets the target.
    pub(crate) fn right(&mut self, level: u64, target: Name) -> Result<Stmt, ParseRefusal>
        ensures { MatchResult result (λ tree. Parses (right_phrase level) self.old self.new (target, tree)) (λ refusal. Lacks (right_phrase level) self.old refusal) }
    {
        if self.is_at_keyword(Keyword::Spawn) {
            self.pass(level, &[])?;
            let call = self.call(level)?;
            return Ok(Stmt::Spawn(Some(target), call.name, call.arguments));
        }
        if self.is_at_keyword(Keyword::FetchAdd) {
            self.pass(level, &[])?;
            let addition = self.added(level)?;
            return Ok(Stmt::Add(Some(target), addition.name, addition.index, addition.addend));
        }
        if self.is_at_call() {
            let call = self.call(level)?;
            return Ok(Stmt::Call(Some(target), call.name, call.arguments));
        }
        let value = self.expression(0, level, Opening::Whole)?;
        Ok(Stmt::Assign(target, value))
    }

    /// Reads the names behind `int` and the semicolon, and adds what they declare and assign.
    pub(crate) fn declaration(
        &mut self,
        level: u64,
        into: &mut Items<Stmt>,
    ) -> Result<(), ParseRefusal>
        ensures { MatchResult result (λ _. Parses (declaration_phrase level) self.old self.new (into.old, into.new)) (λ refusal. Lacks (declaration_phrase level) self.old refusal) }
    {
        loop {
            self.declarator(level, into)?;
            if !self.is_at(Sign::Comma) {
                return self.sign(Sign::Semicolon, level);
            }
            self.pass(level, &[])?;
        }
    }

    /// Reads a name that is declared, with its value where it has one.
    fn declarator(&mut self, level: u64, into: &mut Items<Stmt>) -> Result<(), ParseRefusal>
        ensures { MatchResult result (λ _. Parses (declarator_phrase level) self.old self.new (into.old, into.new)) (λ refusal. Lacks (declarator_phrase level) self.old refusal) }
    {
        let name = self.name(level, &[Count::OneMore(Counted::Variables)])?;
        if !self.is_at(Sign::Assign) {
            into.push(Stmt::Declare(name))?;
            return Ok(());
        }
        self.pass(level, &[])?;
        into.push(Stmt::Declare(copy_of(self.alloc(), &name)?))?;
        let set = self.right(level, name)?;
        into.push(set)?;
        Ok(())
    }

    /// Reads an assignment, a step or a store behind its name, up to the sign behind it.
    pub(crate) fn simple(&mut self, level: u64, name: Name) -> Result<Stmt, ParseRefusal>
        ensures { MatchResult result (λ tree. Parses (simple_phrase level name) self.old self.new tree) (λ refusal. LacksSimple level name self.old refusal) }
    {
        match self.simple_start() {
            SimpleStart::Assign => {
                self.pass(level, &[])?;
                self.right(level, name)
            }
            SimpleStart::Change(operator) => self.change(operator, level, name),
            SimpleStart::Step(operator) => {
                self.pass(level, &[])?;
                Ok(changed(self.alloc(), operator, name, Expr::Number(1))?)
            }
            SimpleStart::Index => self.store(level, name),
            SimpleStart::Other => Err(self.unexpected()),
        }
    }

    /// Reads `+= e` or `-= e`. The sign is the first operator of the value, which is one level deeper.
    fn change(&mut self, operator: BinaryOp, level: u64, name: Name) -> Result<Stmt, ParseRefusal>
        requires { starts_simple self.old.left ≡ SimpleStart.Change operator }
        ensures { MatchResult result (λ tree. Parses (simple_phrase level name) self.old self.new tree) (λ refusal. LacksSimple level name self.old refusal) }
    {
        self.pass(
            level,
            &[
                Count::Anew(Counted::Operators),
                Count::OneMore(Counted::Operators),
            ],
        )?;
        let value = self.expression(0, level + 1, Opening::Inside)?;
        Ok(changed(self.alloc(), operator, name, value)?)
    }

    /// Reads `[i] = e`.
    fn store(&mut self, level: u64, name: Name) -> Result<Stmt, ParseRefusal>
        requires { starts_simple self.old.left ≡ SimpleStart.Index }
        ensures { MatchResult result (λ tree. Parses (simple_phrase level name) self.old self.new tree) (λ refusal. LacksSimple level name self.old refusal) }
    {
        self.pass(level, &[])?;
        let index = self.enclosed(level + 1, Opening::Whole, Sign::CloseBracket, level)?;
        self.sign(Sign::Assign, level)?;
        let value = self.expression(0, level, Opening::Whole)?;
        Ok(Stmt::Put(name, index, value))
    }

    /// How what follows the name begins.
    fn simple_start(&self) -> SimpleStart
        ensures { result ≡ starts_simple self.now.left }
    {
        self.first()
            .map_or(SimpleStart::Other, |token| SimpleStart::of(token))
    }
}

fn copy_of(alloc: Global, name: &Name) -> Result<Name, AllocError>
    ensures { IfOk result (λ copy. copy ≡ name.now) }
{
    Name::from_slice(alloc, name.items())
}

/// `x = x + e`, or with another operator.
fn changed(alloc: Global, operator: BinaryOp, name: Name, value: Expr) -> Result<Stmt, AllocError>
    ensures { IfOk result (λ tree. tree ≡ Stmt.Assign name (Expr.Binary operator (Expr.Local name) value)) }
{
    let local = Expr::Local(copy_of(alloc, &name)?);
    Ok(Stmt::Assign(name, binary(alloc, operator, local, value)?))
}
