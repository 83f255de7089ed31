ghost use Rattle.cilk_tree.specs.Lawful.Flow.{inside, with_scope};
ghost use Rattle.cilk_tree.specs.Lawful.Scope.{declared, local_named};
ghost use Rattle.std.specs.Prelude.{◌≡◌, ◌≤◌, ◌<◌, ◌-◌, [], None, length, drop, OnOk};

use crate::name_map::NameMap;
use std::alloc::{AllocError, Global};
use std::marker::Model;

/// A parameter or local in scope: its name, and its number among those of its function.
#[derive(Clone, Copy)]
struct Local<'a> {
    name: &'a [u8],
    number: usize,
}

/// A point of a function's body: the number of the next statement, the number that the next local gets, and the
/// parameters and locals in scope. Contracts see the point.
#[derive(Drop)]
pub(crate) struct Locals<'a> {
    statement: u32,
    local: usize,
    stack: Vec<Local<'a>>,
    numbers: NameMap<'a, usize>,
}

impl<'a> Model for Locals<'a> {
    ghost use Rattle.cilk_tree.specs.Lawful.Scope.{Point};

    ghost Value = { Point };

    ghost use Rattle.cilk_checker.specs.Scopes.{point_of, IsTidy};

    ghost view = { point_of };

    ghost invariant = { IsTidy };
}

impl<'a> Locals<'a> {
    /// The point where a function begins, before its parameters.
    pub(crate) fn new(alloc: Global) -> Self
        ensures { result ≡ record { statement = 0; local = 0; scope = [] } }
    {
        Locals {
            statement: 0,
            local: 0,
            stack: Vec::new(alloc),
            numbers: NameMap::new(alloc),
        }
    }

    /// The number of the next statement.
    pub(crate) fn statement(&self) -> u32
        ensures { result ≡ self.now.statement }
    {
        self.statement
    }

    /// The number that the next local gets.
    pub(crate) fn next_local(&self) -> usize
        ensures { result ≡ self.now.local }
    {
        self.local
    }

    /// How many parameters and locals are in scope.
    pub(crate) fn depth(&self) -> usize
        ensures { result ≡ length self.now.scope }
    {
        self.stack.as_slice().len()
    }

    /// The number of the parameter or local that the name stands for.
    pub(crate) fn number(&self, name: &[u8]) -> Option<usize>
        ensures { result ≡ local_named self.now.scope name.now }
    {
        self.numbers.get(name)
    }

    /// Goes on to the next statement. More statements than their numbers reach fit no memory that there is.
    pub(crate) fn advance(&mut self) -> Result<(), AllocError>
        ensures { OnOk result (self.new ≡ inside self.old) }
    {
        self.statement = self.statement.checked_add(1).ok_or(AllocError)?;
        Ok(())
    }

    /// Brings a parameter or local of this name into scope.
    pub(crate) fn declare(&mut self, name: &'a [u8]) -> Result<(), AllocError>
        requires { local_named self.old.scope name.now ≡ None }
        ensures { OnOk result (self.new ≡ declared self.old name.now) }
    {
        let number = self.local;
        let next = number.checked_add(1).ok_or(AllocError)?;
        self.stack.push(Local { name, number })?;
        // The table and the stack have the same locals where memory is wanting, too.
        if let Err(error) = self.numbers.insert(name, number) {
            self.stack.pop();
            return Err(error);
        }
        self.local = next;
        Ok(())
    }

    /// Takes all but the first `depth` parameters and locals out of scope.
    pub(crate) fn leave(&mut self, depth: usize)
        ensures { self.new ≡ with_scope (drop (length self.old.scope - depth) self.old.scope) self.old }
    {
        while self.depth() > depth {
            self.forget_latest();
        }
    }

    /// Takes the latest local out of scope.
    fn forget_latest(&mut self)
        ensures { self.new ≡ with_scope (drop 1 self.old.scope) self.old }
    {
        if let Some(local) = self.stack.pop() {
            self.numbers.remove(local.name);
        }
    }
}
