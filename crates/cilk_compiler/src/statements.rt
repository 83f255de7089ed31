ghost use Rattle.cilk_compiler.specs.Emitting.{array_in, behind, behind_all, behind_list, expr_in, exprs_in, function_in, local_in, returned_in, statements_in, target_in, valued, with_code, with_declared, with_instr, with_stmt};
ghost use Rattle.cilk_meaning.specs.Resolved.{Add, Assign, Call, Print, Put, Return, Spawn, Sync, Number};
ghost use Rattle.cilk_meaning.specs.Resolving.{resolving};
ghost use Rattle.cilk_tree.specs.Lawful.Scope.{declared};
ghost use Rattle.compiled_code.specs.Emitted.{sync_code, target_code};
ghost use Rattle.std.specs.Prelude.{◌≡◌, pos, OnOk};

use crate::emitter::Emitter;
use cilk_tree::{Expr, Name, Stmt};
use machine_code::Instr;
use std::alloc::AllocError;

impl<'s, 'a> Emitter<'s, 'a> {
    /// Adds the code of statements, one after another. What they declare stays in scope.
    #[cycle(statement)]
    pub(crate) fn statements(&mut self, statements: &'a [Stmt]) -> Result<(), AllocError>
        ensures { OnOk result (self.new ≡ behind_all (statements_in self.old statements.now) self.old) }
    {
        for statement in statements {
            self.statement(statement)?;
        }
        Ok(())
    }

    /// Adds the code of a list that a statement holds. What it declares is out of scope behind it.
    #[cycle(statement)]
    fn list(&mut self, list: &'a [Stmt]) -> Result<(), AllocError>
        ensures { OnOk result (self.new ≡ behind_list (statements_in self.old list.now) self.old) }
    {
        let depth = self.locals.depth();
        self.statements(list)?;
        self.locals.leave(depth);
        Ok(())
    }

    /// Adds the code of a statement.
    #[cycle(statement)]
    fn statement(&mut self, statement: &'a Stmt) -> Result<(), AllocError>
        ensures { OnOk result (self.new ≡ behind (resolving self.old.globals.now statement.now) self.old) }
    {
        self.locals.advance()?;
        match statement {
            Stmt::Declare(name) => self.declare(name),
            Stmt::Assign(name, value) => self.assign(name, value),
            Stmt::Put(name, index, value) => self.put(name, index, value),
            Stmt::Print(value) => self.print(value),
            Stmt::If(condition, met, unmet) => {
                let fork = self.fork(condition)?;
                self.list(met.as_slice())?;
                let met_end = self.part(fork)?;
                self.list(unmet.as_slice())?;
                self.meet(met_end);
                Ok(())
            }
            Stmt::While(condition, body) => {
                let start = self.instrs.end();
                self.push(Instr::Turn)?;
                let fork = self.fork(condition)?;
                self.list(body.as_slice())?;
                self.turn_back(start, fork)
            }
            Stmt::Block(inside) => self.list(inside.as_slice()),
            Stmt::Call(target, name, arguments) => self.call(target, name, arguments.as_slice()),
            Stmt::Spawn(target, name, arguments) => self.spawn(target, name, arguments.as_slice()),
            Stmt::Add(target, name, index, addend) => self.add(target, name, index, addend),
            Stmt::Sync => self.push(Instr::SyncAll),
            Stmt::Return(value) => self.give_back(value),
        }
    }

    fn declare(&mut self, name: &'a Name) -> Result<(), AllocError>
        ensures { OnOk result (self.new ≡ with_declared name.now self.old) }
    {
        let local = self.locals.next();
        self.need(1);
        self.push(Instr::Const(0))?;
        self.push(Instr::Store(local))?;
        self.locals.declare(name.items())
    }

    fn assign(&mut self, name: &Name, value: &Expr) -> Result<(), AllocError>
        ensures { OnOk result (self.new ≡ with_stmt (Assign (local_in self.old name.now) (expr_in self.old value.now)) self.old) }
    {
        self.value(value)?;
        let local = self.locals.number(name.items());
        self.push(Instr::Store(local))
    }

    fn put(&mut self, name: &Name, index: &Expr, value: &Expr) -> Result<(), AllocError>
        ensures { OnOk result (self.new ≡ with_stmt (Put (array_in self.old name.now) (expr_in self.old index.now) (expr_in self.old value.now)) self.old) }
    {
        self.two_values(index, value)?;
        let array = self.globals.array(name.items());
        self.push(Instr::WriteShared(array))
    }

    fn print(&mut self, value: &Expr) -> Result<(), AllocError>
        ensures { OnOk result (self.new ≡ with_stmt (Print (expr_in self.old value.now)) self.old) }
    {
        self.value(value)?;
        self.push(Instr::PrintTop)
    }

    fn call(
        &mut self,
        target: &Option<Name>,
        name: &Name,
        arguments: &[Expr],
    ) -> Result<(), AllocError>
        ensures { OnOk result (self.new ≡ with_stmt (Call (target_in self.old target.now) (function_in self.old name.now) (exprs_in self.old arguments.now)) self.old) }
    {
        let operands = self.arguments(arguments)?;
        // Every call leaves a value, also one that takes none.
        self.need(operands.max(1));
        let function = self.globals.function(name.items());
        self.push(Instr::Call(function))?;
        self.take(target)
    }

    fn spawn(
        &mut self,
        target: &Option<Name>,
        name: &Name,
        arguments: &[Expr],
    ) -> Result<(), AllocError>
        ensures { OnOk result (self.new ≡ with_stmt (Spawn (target_in self.old target.now) (function_in self.old name.now) (exprs_in self.old arguments.now)) self.old) }
    {
        let operands = self.arguments(arguments)?;
        self.need(operands);
        let procedure = self.globals.function(name.items());
        let target = self.locals.target(target);
        self.push(Instr::Spawn(procedure, target))
    }

    fn add(
        &mut self,
        target: &Option<Name>,
        name: &Name,
        index: &Expr,
        addend: &Expr,
    ) -> Result<(), AllocError>
        ensures { OnOk result (self.new ≡ with_stmt (Add (target_in self.old target.now) (array_in self.old name.now) (expr_in self.old index.now) (expr_in self.old addend.now)) self.old) }
    {
        self.two_values(index, addend)?;
        let array = self.globals.array(name.items());
        self.push(Instr::AddShared(array))?;
        self.take(target)
    }

    fn give_back(&mut self, value: &Option<Expr>) -> Result<(), AllocError>
        ensures { OnOk result (self.new ≡ with_stmt (Return (returned_in self.old value.now)) self.old) }
    {
        self.sync()?;
        self.returned(value)?;
        self.push(Instr::Return)
    }

    /// Adds the code of what a `return` gives.
    fn returned(&mut self, value: &Option<Expr>) -> Result<(), AllocError>
        ensures { OnOk result (self.new ≡ valued (returned_in self.old value.now) self.old) }
    {
        match value {
            Some(value) => self.value(value),
            None => self.zero(),
        }
    }

    /// A value goes to the target, or is dropped.
    fn take(&mut self, target: &Option<Name>) -> Result<(), AllocError>
        ensures { OnOk result (self.new ≡ with_instr (target_code (target_in self.old target.now)) self.old) }
    {
        match self.locals.target(target) {
            Some(local) => self.push(Instr::Store(local)),
            None => self.push(Instr::Pop),
        }
    }

    /// The sync that a `cilk` procedure makes before it returns.
    pub(crate) fn sync(&mut self) -> Result<(), AllocError>
        ensures { OnOk result (self.new ≡ with_code (λ at. sync_code self.old.cilk) self.old) }
    {
        if self.cilk {
            self.push(Instr::SyncAll)
        } else {
            Ok(())
        }
    }

    /// Adds the code of the value 0.
    fn zero(&mut self) -> Result<(), AllocError>
        ensures { OnOk result (self.new ≡ valued (Number (pos 0)) self.old) }
    {
        self.need(1);
        self.push(Instr::Const(0))
    }
}
