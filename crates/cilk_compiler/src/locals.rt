ghost use Rattle.cilk_meaning.specs.Resolving.{local_number, target_number};
ghost use Rattle.cilk_tree.specs.Lawful.Flow.{inside, with_scope};
ghost use Rattle.cilk_tree.specs.Lawful.Scope.{declared};
ghost use Rattle.std.specs.Prelude.{◌≡◌, ◌-◌, [], length, drop, OnOk};

use cilk_tree::Name;
use std::alloc::{AllocError, Global};
use std::marker::Model;

/// A parameter or local in scope: its name, and its number among those of its function.
#[derive(Clone, Copy)]
struct Local<'a> {
    name: &'a [u8],
    number: u32,
}

/// A point of a function's body: the number of the next statement, the number that the next local gets, and the
/// parameters and locals in scope. Contracts see the point.
#[derive(Drop)]
pub(crate) struct Locals<'a> {
    statement: u32,
    next: u32,
    stack: Vec<Local<'a>>,
}

impl<'a> Model for Locals<'a> {
    ghost use Rattle.cilk_tree.specs.Lawful.Scope.{Point};

    ghost Value = { Point };

    ghost use Rattle.cilk_compiler.specs.Scopes.{point_of};

    ghost view = { point_of };
}

impl<'a> Locals<'a> {
    /// The point where a function begins, before its parameters.
    pub(crate) fn new(alloc: Global) -> Self
        ensures { result ≡ record { statement = 0; local = 0; scope = [] } }
    {
        Locals {
            statement: 0,
            next: 0,
            stack: Vec::new(alloc),
        }
    }

    /// Goes back to the point where a function begins.
    pub(crate) fn restart(&mut self)
        ensures { self.new ≡ record { statement = 0; local = 0; scope = [] } }
    {
        self.statement = 0;
        self.next = 0;
        self.stack.clear();
    }

    /// The number that the next local gets.
    pub(crate) fn next(&self) -> u32
        ensures { result ≡ self.now.local }
    {
        self.next
    }

    /// How many parameters and locals are in scope.
    pub(crate) fn depth(&self) -> usize
        ensures { result ≡ length self.now.scope }
    {
        self.stack.len()
    }

    /// The number of the parameter or local that the name stands for, the latest one of that name.
    pub(crate) fn number(&self, name: &[u8]) -> u32
        ensures { result ≡ local_number self.now.scope name.now }
    {
        match self.stack.iter().rev().find(|local| local.name == name) {
            Some(local) => local.number,
            None => 0,
        }
    }

    /// The number of a target, where there is one.
    pub(crate) fn target(&self, target: &Option<Name>) -> Option<u32>
        ensures { result ≡ target_number self.now.scope target.now }
    {
        match target {
            Some(name) => Some(self.number(name.items())),
            None => None,
        }
    }

    /// Goes on to the next statement. More statements than their numbers reach fit no memory that there is.
    pub(crate) fn advance(&mut self) -> Result<(), AllocError>
        ensures { OnOk result (self.new ≡ inside self.old) }
    {
        self.statement = self.statement.checked_add(1).ok_or(AllocError)?;
        Ok(())
    }

    /// Brings a parameter or local of this name into scope.
    pub(crate) fn declare(&mut self, name: &'a [u8]) -> Result<(), AllocError>
        ensures { OnOk result (self.new ≡ declared self.old name.now) }
    {
        let number = self.next;
        self.next = number.checked_add(1).ok_or(AllocError)?;
        self.stack.push(Local { name, number })?;
        Ok(())
    }

    /// Takes all but the first `depth` parameters and locals out of scope.
    pub(crate) fn leave(&mut self, depth: usize)
        ensures { self.new ≡ with_scope (drop (length self.old.scope - depth) self.old.scope) self.old }
    {
        self.stack.truncate(depth);
    }
}
