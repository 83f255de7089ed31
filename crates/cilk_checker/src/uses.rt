ghost use Rattle.cilk_checker.specs.Meanings.{seen};
ghost use Rattle.cilk_checker.specs.Seeing.{meaning_in, IsSumOf, with_use, with_uses};
ghost use Rattle.cilk_checker.specs.Tables.{IsComplete};
ghost use Rattle.cilk_tree.specs.declared.tree.Stmt.{out-Stmt};
ghost use Rattle.cilk_tree.specs.Lawful.Flow.{head_of};
ghost use Rattle.cilk_tree.specs.Lawful.Rules.{NeedsVariable, NeedsArray, NeedsFunction, uses, head_uses, target_uses, function_use, value_uses};
ghost use Rattle.cilk_tree.specs.Lawful.Scope.{meaning};
ghost use Rattle.std.specs.List.{flat_map};
ghost use Rattle.std.specs.Prelude.{◌≡◌, ◌∷◌, ◌++◌, IfOk, OnOk};

use crate::globals::Globals;
use crate::locals::Locals;
use crate::meaning::Meaning;
use cilk_tree::{Expr, Name, Stmt};
use sqlite_items::Items;
use std::alloc::{AllocError, Global};

/// The names in scope at a point.
#[derive(Clone, Copy)]
pub(crate) struct InScope<'s, 'a> {
    pub(crate) globals: &'s Globals<'a>,
    pub(crate) locals: &'s Locals<'a>,
}

impl<'s, 'a> InScope<'s, 'a> {
    /// What the name stands for there.
    pub(crate) fn meaning(self, name: &Name) -> Meaning<'a>
        requires { IsComplete self.globals.now }
        ensures { seen result ≡ meaning_in self.entry name.now }
    {
        match self.locals.number(name.items()) {
            Some(number) => Meaning::Variable(number),
            None => self.globals.meaning(name),
        }
    }
}

/// What the names stand for that a statement uses, taken together.
#[derive(Debug, Drop)]
pub(crate) struct Uses {
    /// one of them stands for nothing
    pub(crate) unknown: bool,
    /// one of them stands for something else than it has to
    pub(crate) wrong: bool,
    /// the parameters and locals among them that are variables, by their numbers
    pub(crate) touched: Items<usize>,
}

impl Uses {
    /// Those of the statement itself: an `if` or a `while` answers for its condition alone.
    pub(crate) fn of(alloc: Global, names: InScope, statement: &Stmt) -> Result<Self, AllocError>
        requires { IsComplete names.globals.now }
        ensures { IfOk result (λ uses. IsSumOf uses names.entry (head_of (out-Stmt statement.now))) }
    {
        let mut uses = Uses {
            unknown: false,
            wrong: false,
            touched: Items::new(alloc),
        };
        uses.read_head(names, statement)?;
        Ok(uses)
    }

    fn read_head(&mut self, names: InScope, statement: &Stmt) -> Result<(), AllocError>
        requires { IsComplete names.globals.now }
        ensures { OnOk result (self.new ≡ with_uses (meaning_in names.entry) self.old (head_uses (head_of (out-Stmt statement.now)))) }
    {
        match statement {
            Stmt::Declare(_) | Stmt::Block(_) | Stmt::Sync => Ok(()),
            Stmt::Assign(name, value) => {
                self.add_variable(names, name)?;
                self.read(names, value)
            }
            Stmt::Put(name, index, value) => {
                self.add_array(names, name);
                self.read(names, index)?;
                self.read(names, value)
            }
            Stmt::Print(value) | Stmt::If(value, _, _) | Stmt::While(value, _) => self.read(
                names, value,
            ),
            Stmt::Call(target, name, arguments) | Stmt::Spawn(target, name, arguments) => {
                self.read_call(names, target, name, arguments.as_slice())
            }
            Stmt::Add(target, name, index, addend) => {
                self.read_target(names, target)?;
                self.add_array(names, name);
                self.read(names, index)?;
                self.read(names, addend)
            }
            Stmt::Return(value) => self.read_value(names, value),
        }
    }

    fn read_call(
        &mut self,
        names: InScope,
        target: &Option<Name>,
        name: &Name,
        arguments: &[Expr],
    ) -> Result<(), AllocError>
        requires { IsComplete names.globals.now }
        ensures { OnOk result (self.new ≡ with_uses (meaning_in names.entry) self.old (target_uses target.now ++ function_use name.now ∷ flat_map uses arguments.now)) }
    {
        self.read_target(names, target)?;
        self.add_function(names, name);
        for argument in arguments {
            self.read(names, argument)?;
        }
        Ok(())
    }

    fn read_target(&mut self, names: InScope, target: &Option<Name>) -> Result<(), AllocError>
        requires { IsComplete names.globals.now }
        ensures { OnOk result (self.new ≡ with_uses (meaning_in names.entry) self.old (target_uses target.now)) }
    {
        match target {
            Some(name) => self.add_variable(names, name),
            None => Ok(()),
        }
    }

    fn read_value(&mut self, names: InScope, value: &Option<Expr>) -> Result<(), AllocError>
        requires { IsComplete names.globals.now }
        ensures { OnOk result (self.new ≡ with_uses (meaning_in names.entry) self.old (value_uses value.now)) }
    {
        match value {
            Some(value) => self.read(names, value),
            None => Ok(()),
        }
    }

    /// Adds the names that the expression uses.
    fn read(&mut self, names: InScope, expression: &Expr) -> Result<(), AllocError>
        requires { IsComplete names.globals.now }
        ensures { OnOk result (self.new ≡ with_uses (meaning_in names.entry) self.old (uses expression.now)) }
    {
        match expression {
            Expr::Number(_) => Ok(()),
            Expr::Local(name) => self.add_variable(names, name),
            Expr::Get(name, index) => {
                self.add_array(names, name);
                self.read(names, index.get())
            }
            Expr::Unary(_, operand) => self.read(names, operand.get()),
            Expr::Binary(_, left, right) => {
                self.read(names, left.get())?;
                self.read(names, right.get())
            }
        }
    }

    fn add_variable(&mut self, names: InScope, name: &Name) -> Result<(), AllocError>
        requires { IsComplete names.globals.now }
        ensures { OnOk result (self.new ≡ with_use NeedsVariable (meaning_in names.entry name.now) self.old) }
    {
        match names.meaning(name) {
            Meaning::Variable(number) => self.touched.push(number)?,
            Meaning::Unknown => self.unknown = true,
            Meaning::Array | Meaning::Procedure(_) => self.wrong = true,
        }
        Ok(())
    }

    fn add_array(&mut self, names: InScope, name: &Name)
        requires { IsComplete names.globals.now }
        ensures { self.new ≡ with_use NeedsArray (meaning_in names.entry name.now) self.old }
    {
        match names.meaning(name) {
            Meaning::Array => {}
            Meaning::Unknown => self.unknown = true,
            Meaning::Variable(_) | Meaning::Procedure(_) => self.wrong = true,
        }
    }

    fn add_function(&mut self, names: InScope, name: &Name)
        requires { IsComplete names.globals.now }
        ensures { self.new ≡ with_use NeedsFunction (meaning_in names.entry name.now) self.old }
    {
        match names.meaning(name) {
            Meaning::Procedure(_) => {}
            Meaning::Unknown => self.unknown = true,
            Meaning::Variable(_) | Meaning::Array => self.wrong = true,
        }
    }
}
