ghost use Rattle.cilk_compiler.specs.Emitting.{expr_in, exprs_in, with_expr, with_exprs, valued, valued_two};
ghost use Rattle.compiled_code.specs.Emitted.{expr_operands, exprs_operands};
ghost use Rattle.std.specs.Prelude.{◌≡◌, suc, max, IfOk, OnOk};

use crate::emitter::Emitter;
use crate::join::unary_instr;
use cilk_tree::Expr;
use machine_code::Instr;
use std::alloc::AllocError;

impl<'s, 'a> Emitter<'s, 'a> {
    /// Adds the code of an expression, and tells how many operands it has at once at most.
    pub(crate) fn expression(&mut self, expr: &Expr) -> Result<u32, AllocError>
        ensures code { OnOk result (self.new ≡ with_expr (expr_in self.old expr.now) self.old) }
        ensures operands { IfOk result (λ operands. operands ≡ expr_operands (expr_in self.old expr.now)) }
    {
        match expr {
            Expr::Number(value) => {
                self.push(Instr::Const(*value))?;
                Ok(1)
            }
            Expr::Local(name) => {
                let local = self.locals.number(name.items());
                self.push(Instr::Load(local))?;
                Ok(1)
            }
            Expr::Get(name, index) => {
                let operands = self.expression(index.get())?;
                let array = self.globals.array(name.items());
                self.push(Instr::ReadShared(array))?;
                Ok(operands)
            }
            Expr::Unary(operator, operand) => {
                let operands = self.expression(operand.get())?;
                self.push(unary_instr(*operator))?;
                Ok(operands)
            }
            Expr::Binary(operator, left, right) => {
                let below = self.expression(left.get())?;
                let join = self.open(*operator)?;
                let above = self.expression(right.get())?;
                let operands = either_or_above(below, above)?;
                self.close(join)?;
                Ok(operands)
            }
        }
    }

    /// Adds the code of an expression, whose operands have room.
    pub(crate) fn value(&mut self, expr: &Expr) -> Result<(), AllocError>
        ensures { OnOk result (self.new ≡ valued (expr_in self.old expr.now) self.old) }
    {
        let operands = self.expression(expr)?;
        self.need(operands);
        Ok(())
    }

    /// Adds the code of two expressions, the second of which is evaluated above the value of the first.
    pub(crate) fn two_values(&mut self, first: &Expr, second: &Expr) -> Result<(), AllocError>
        ensures { OnOk result (self.new ≡ valued_two (expr_in self.old first.now) (expr_in self.old second.now) self.old) }
    {
        let below = self.expression(first)?;
        let above = self.expression(second)?;
        self.need(either_or_above(below, above)?);
        Ok(())
    }

    /// Adds the code of arguments, one above the other, and tells how many operands they have at once at most.
    pub(crate) fn arguments(&mut self, arguments: &[Expr]) -> Result<u32, AllocError>
        ensures code { OnOk result (self.new ≡ with_exprs (exprs_in self.old arguments.now) self.old) }
        ensures operands { IfOk result (λ operands. operands ≡ exprs_operands 0 (exprs_in self.old arguments.now)) }
    {
        let mut operands = 0;
        let mut before: u32 = 0;
        for argument in arguments {
            let above = self.expression(argument)?;
            operands = operands.max(before.checked_add(above).ok_or(AllocError)?);
            before = before.checked_add(1).ok_or(AllocError)?;
        }
        Ok(operands.max(before))
    }
}

/// How many operands there are at most, where so many are there first and then so many above one.
fn either_or_above(below: u32, above: u32) -> Result<u32, AllocError>
    ensures { IfOk result (λ operands. operands ≡ max below (suc above)) }
{
    Ok(below.max(above.checked_add(1).ok_or(AllocError)?))
}
