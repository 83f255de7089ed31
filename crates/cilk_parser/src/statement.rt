ghost use Rattle.cilk_parser.specs.Spots.{is_sign};
ghost use Rattle.cilk_parser.specs.Phrases.{HasElse, Lacks, LacksElse, Parses, body_phrase, condition_phrase, for_condition_phrase, for_head_phrase, for_last_phrase, for_start_phrase, inner_phrase, inners_phrase, statement_phrase};
ghost use Rattle.cilk_parser.specs.Starts.{starts_statement};
ghost use Rattle.std.specs.Prelude.{◌≡◌, ◌++◌, ◌∷◌, [], false, IfOk, MatchResult};

use crate::opening::Opening;
use crate::parser::Parser;
use crate::refusal::ParseRefusal;
use crate::starts::StatementStart;
use cilk_tree::{Count, Counted, Expr, Keyword, Sign, Stmt};
use sqlite_items::Items;
use std::alloc::AllocError;

impl<'a> Parser<'a> {
    /// Reads statements of this level up to a brace of the level `closing`, and that brace.
    #[cycle(statement)]
    pub(crate) fn inners(&mut self, level: u64, closing: u64) -> Result<Items<Stmt>, ParseRefusal>
        ensures { MatchResult result (λ trees. Parses (inners_phrase level closing) self.old self.new trees) (λ refusal. Lacks (inners_phrase level closing) self.old refusal) }
    {
        let mut trees = Items::new(self.alloc());
        while !self.is_at(Sign::CloseBrace) {
            self.inner(level, &mut trees)?;
        }
        self.pass(closing, &[])?;
        Ok(trees)
    }

    /// Reads a declaration, a block or another statement, and adds what it gives.
    #[cycle(statement)]
    fn inner(&mut self, level: u64, into: &mut Items<Stmt>) -> Result<(), ParseRefusal>
        requires { is_sign Sign.CloseBrace self.old.left ≡ false }
        ensures { MatchResult result (λ _. Parses (inner_phrase level) self.old self.new (into.old, into.new)) (λ refusal. Lacks (inner_phrase level) self.old refusal) }
    {
        if self.is_at_keyword(Keyword::Int) {
            self.pass(level, &[])?;
            return self.declaration(level, into);
        }
        if !self.is_at(Sign::OpenBrace) {
            return self.statement(level, into);
        }
        self.pass(level, &[])?;
        let inside = self.inners(level + 1, level)?;
        into.push(Stmt::Block(inside))?;
        Ok(())
    }

    /// Reads what an `if`, an `else` or a loop holds, whose own level is `owner`.
    #[cycle(statement)]
    fn body(&mut self, level: u64, owner: u64) -> Result<Items<Stmt>, ParseRefusal>
        ensures { MatchResult result (λ trees. Parses (body_phrase level owner) self.old self.new trees) (λ refusal. Lacks (body_phrase level owner) self.old refusal) }
    {
        if self.is_at(Sign::OpenBrace) {
            self.pass(owner, &[])?;
            return self.inners(level, owner);
        }
        let mut trees = Items::new(self.alloc());
        self.statement(level, &mut trees)?;
        Ok(trees)
    }

    /// Reads a statement that is no declaration and no block, and adds what it gives.
    #[cycle(statement)]
    fn statement(&mut self, level: u64, into: &mut Items<Stmt>) -> Result<(), ParseRefusal>
        ensures { MatchResult result (λ _. Parses (statement_phrase level) self.old self.new (into.old, into.new)) (λ refusal. Lacks (statement_phrase level) self.old refusal) }
    {
        match self.statement_start() {
            StatementStart::Empty => self.pass(level, &[]),
            StatementStart::Name => self.named(level, into),
            StatementStart::Spawn => self.spawning(level, into),
            StatementStart::Add => self.adding(level, into),
            StatementStart::Sync => self.syncing(level, into),
            StatementStart::If => self.branch(level, into),
            StatementStart::While => self.while_loop(level, into),
            StatementStart::For => self.for_loop(level, into),
            StatementStart::Print => self.printing(level, into),
            StatementStart::Return => self.returning(level, into),
            StatementStart::Other => Err(self.unexpected()),
        }
    }

    /// Reads an `if`, with its `else` where one follows.
    #[cycle(statement)]
    fn branch(&mut self, level: u64, into: &mut Items<Stmt>) -> Result<(), ParseRefusal>
        requires { starts_statement self.old.left ≡ StatementStart.If }
        ensures { MatchResult result (λ _. Parses (statement_phrase level) self.old self.new (into.old, into.new)) (λ refusal. Lacks (statement_phrase level) self.old refusal) }
    {
        self.pass(level, &[])?;
        let condition = self.condition(level)?;
        let taken = self.body(level + 1, level)?;
        let otherwise = self.otherwise(level)?;
        into.push(Stmt::If(condition, taken, otherwise))?;
        Ok(())
    }

    /// Reads `else` and what it holds, where one follows.
    #[cycle(statement)]
    fn otherwise(&mut self, level: u64) -> Result<Items<Stmt>, ParseRefusal>
        ensures { MatchResult result (λ trees. HasElse level self.old self.new trees) (λ refusal. LacksElse level self.old refusal) }
    {
        if !self.is_at_keyword(Keyword::Else) {
            return Ok(Items::new(self.alloc()));
        }
        self.pass(level, &[])?;
        self.body(level + 1, level)
    }

    /// Reads a `while`.
    #[cycle(statement)]
    fn while_loop(&mut self, level: u64, into: &mut Items<Stmt>) -> Result<(), ParseRefusal>
        requires { starts_statement self.old.left ≡ StatementStart.While }
        ensures { MatchResult result (λ _. Parses (statement_phrase level) self.old self.new (into.old, into.new)) (λ refusal. Lacks (statement_phrase level) self.old refusal) }
    {
        self.pass(level, &[])?;
        let condition = self.condition(level)?;
        let body = self.body(level + 1, level)?;
        into.push(Stmt::While(condition, body))?;
        Ok(())
    }

    /// Reads a `for`.
    #[cycle(statement)]
    fn for_loop(&mut self, level: u64, into: &mut Items<Stmt>) -> Result<(), ParseRefusal>
        requires { starts_statement self.old.left ≡ StatementStart.For }
        ensures { MatchResult result (λ _. Parses (statement_phrase level) self.old self.new (into.old, into.new)) (λ refusal. Lacks (statement_phrase level) self.old refusal) }
    {
        let head = self.for_head(level)?;
        let body = self.body(level + 2, level)?;
        into.push(head.with_body(body)?)?;
        Ok(())
    }

    /// Reads the word `for` and what stands between the parentheses.
    fn for_head(&mut self, level: u64) -> Result<ForHead, ParseRefusal>
        requires { starts_statement self.old.left ≡ StatementStart.For }
        ensures { MatchResult result (λ head. Parses (for_head_phrase level) self.old self.new head) (λ refusal. Lacks (statement_phrase level) self.old refusal) }
    {
        self.pass(level, &[])?;
        self.sign(Sign::OpenParen, level)?;
        let mut start = Items::new(self.alloc());
        self.for_start(level + 1, &mut start)?;
        let condition = self.for_condition(level + 1)?;
        let mut last = Items::new(self.alloc());
        self.for_last(level + 2, level, &mut last)?;
        Ok(ForHead {
            start,
            condition,
            last,
        })
    }

    /// Reads the first part of a `for` and the semicolon behind it.
    fn for_start(&mut self, level: u64, into: &mut Items<Stmt>) -> Result<(), ParseRefusal>
        ensures { MatchResult result (λ _. Parses (for_start_phrase level) self.old self.new (into.old, into.new)) (λ refusal. Lacks (for_start_phrase level) self.old refusal) }
    {
        if self.is_at(Sign::Semicolon) {
            return self.pass(level, &[]);
        }
        if self.is_at_keyword(Keyword::Int) {
            self.pass(level, &[])?;
            return self.declaration(level, into);
        }
        let name = self.name(level, &[])?;
        let start = self.simple(level, name)?;
        into.push(start)?;
        self.sign(Sign::Semicolon, level)
    }

    /// Reads the condition of a `for`, which is 1 where it is left out, and the semicolon behind it.
    fn for_condition(&mut self, level: u64) -> Result<Expr, ParseRefusal>
        ensures { MatchResult result (λ tree. Parses (for_condition_phrase level) self.old self.new tree) (λ refusal. Lacks (for_condition_phrase level) self.old refusal) }
    {
        if self.is_at(Sign::Semicolon) {
            self.pass(level, &[])?;
            return Ok(Expr::Number(1));
        }
        self.enclosed(level, Opening::Whole, Sign::Semicolon, level)
    }

    /// Reads the last part of a `for`, where it has one, and the parenthesis behind it, which has the level `owner`.
    fn for_last(
        &mut self,
        level: u64,
        owner: u64,
        into: &mut Items<Stmt>,
    ) -> Result<(), ParseRefusal>
        ensures { MatchResult result (λ _. Parses (for_last_phrase level owner) self.old self.new (into.old, into.new)) (λ refusal. Lacks (for_last_phrase level owner) self.old refusal) }
    {
        if self.is_at(Sign::CloseParen) {
            return self.pass(owner, &[]);
        }
        let name = self.name(level, &[])?;
        let last = self.simple(level, name)?;
        into.push(last)?;
        self.sign(Sign::CloseParen, owner)
    }

    /// Reads an expression in parentheses that do not count as a level.
    fn condition(&mut self, level: u64) -> Result<Expr, ParseRefusal>
        ensures { MatchResult result (λ tree. Parses (condition_phrase level) self.old self.new tree) (λ refusal. Lacks (condition_phrase level) self.old refusal) }
    {
        self.sign(Sign::OpenParen, level)?;
        self.enclosed(level, Opening::Whole, Sign::CloseParen, level)
    }

    /// Reads a statement that begins with a name: a call, an assignment, a step or a store.
    fn named(&mut self, level: u64, into: &mut Items<Stmt>) -> Result<(), ParseRefusal>
        requires { starts_statement self.old.left ≡ StatementStart.Name }
        ensures { MatchResult result (λ _. Parses (statement_phrase level) self.old self.new (into.old, into.new)) (λ refusal. Lacks (statement_phrase level) self.old refusal) }
    {
        let name = self.name(level, &[])?;
        if !self.is_at(Sign::OpenParen) {
            let simple = self.simple(level, name)?;
            into.push(simple)?;
            return self.sign(Sign::Semicolon, level);
        }
        self.pass(level, &[Count::Anew(Counted::Arguments)])?;
        let arguments = self.arguments(level)?;
        into.push(Stmt::Call(None, name, arguments))?;
        self.sign(Sign::Semicolon, level)
    }

    /// Reads a spawn whose value is dropped.
    fn spawning(&mut self, level: u64, into: &mut Items<Stmt>) -> Result<(), ParseRefusal>
        requires { starts_statement self.old.left ≡ StatementStart.Spawn }
        ensures { MatchResult result (λ _. Parses (statement_phrase level) self.old self.new (into.old, into.new)) (λ refusal. Lacks (statement_phrase level) self.old refusal) }
    {
        self.pass(level, &[])?;
        let call = self.call(level)?;
        into.push(Stmt::Spawn(None, call.name, call.arguments))?;
        self.sign(Sign::Semicolon, level)
    }

    /// Reads an addition whose old value is dropped.
    fn adding(&mut self, level: u64, into: &mut Items<Stmt>) -> Result<(), ParseRefusal>
        requires { starts_statement self.old.left ≡ StatementStart.Add }
        ensures { MatchResult result (λ _. Parses (statement_phrase level) self.old self.new (into.old, into.new)) (λ refusal. Lacks (statement_phrase level) self.old refusal) }
    {
        self.pass(level, &[])?;
        let addition = self.added(level)?;
        into.push(Stmt::Add(None, addition.name, addition.index, addition.addend))?;
        self.sign(Sign::Semicolon, level)
    }

    /// Reads `sync;`
    fn syncing(&mut self, level: u64, into: &mut Items<Stmt>) -> Result<(), ParseRefusal>
        requires { starts_statement self.old.left ≡ StatementStart.Sync }
        ensures { MatchResult result (λ _. Parses (statement_phrase level) self.old self.new (into.old, into.new)) (λ refusal. Lacks (statement_phrase level) self.old refusal) }
    {
        self.pass(level, &[])?;
        into.push(Stmt::Sync)?;
        self.sign(Sign::Semicolon, level)
    }

    /// Reads a `print`.
    fn printing(&mut self, level: u64, into: &mut Items<Stmt>) -> Result<(), ParseRefusal>
        requires { starts_statement self.old.left ≡ StatementStart.Print }
        ensures { MatchResult result (λ _. Parses (statement_phrase level) self.old self.new (into.old, into.new)) (λ refusal. Lacks (statement_phrase level) self.old refusal) }
    {
        self.pass(level, &[])?;
        let value = self.condition(level)?;
        into.push(Stmt::Print(value))?;
        self.sign(Sign::Semicolon, level)
    }

    /// Reads a `return`.
    fn returning(&mut self, level: u64, into: &mut Items<Stmt>) -> Result<(), ParseRefusal>
        requires { starts_statement self.old.left ≡ StatementStart.Return }
        ensures { MatchResult result (λ _. Parses (statement_phrase level) self.old self.new (into.old, into.new)) (λ refusal. Lacks (statement_phrase level) self.old refusal) }
    {
        self.pass(level, &[])?;
        if self.is_at(Sign::Semicolon) {
            into.push(Stmt::Return(None))?;
            return self.pass(level, &[]);
        }
        let value = self.enclosed(level, Opening::Whole, Sign::Semicolon, level)?;
        into.push(Stmt::Return(Some(value)))?;
        Ok(())
    }

    /// How the statement begins that stands first.
    fn statement_start(&self) -> StatementStart
        ensures { result ≡ starts_statement self.now.left }
    {
        self.first()
            .map_or(StatementStart::Other, |token| StatementStart::of(token))
    }
}

/// What stands between the parentheses of a `for`: the statements of its first part, the condition, and those of its last part.
#[derive(Drop)]
struct ForHead {
    start: Items<Stmt>,
    condition: Expr,
    last: Items<Stmt>,
}

impl ForHead {
    /// The `for` with this body: a block of its first part and a loop, whose body has the last part at its end.
    fn with_body(self, mut body: Items<Stmt>) -> Result<Stmt, AllocError>
        ensures { IfOk result (λ tree. tree ≡ Stmt.Block (self.start ++ Stmt.While self.condition (body ++ self.last) ∷ [])) }
    {
        let ForHead {
            mut start,
            condition,
            last,
        } = self;
        body.append(last)?;
        start.push(Stmt::While(condition, body))?;
        Ok(Stmt::Block(start))
    }
}
