//! The accesses of expressions.

ghost use Rattle.std.specs.Prelude.{OnOk, option_map, map};
ghost use Rattle.gm_ast.specs.Accesses.{reads, loops_in, reads_of_all, loops_in_all, option_reads, loops_in_option};
ghost use Rattle.gm_ast.specs.Tree.{expr_of};
ghost use Rattle.gm_race.specs.Walks.{around_of, Finds};

use crate::walks::Walker;
use gm_ast::tree::Expr;
use std::alloc::AllocError;

impl<'a> Walker<'a> {
    // Finds the accesses of an expression.
    pub fn reads(&mut self, e: &'a Expr) -> Result<(), AllocError>
        ensures { OnOk result (Finds self.old self.new (reads (expr_of e.now) (around_of self.old) self.old.next) (loops_in (expr_of e.now))) }
    {
        match e {
            Expr::Const(_) | Expr::EdgeProperty { .. } | Expr::NodeCount | Expr::EdgeCount => {
                Ok(())
            }
            Expr::Var { variable, place } => {
                self.scalar_read(*variable, *place)?;
                Ok(())
            }
            Expr::Property {
                owner,
                property,
                place,
            } => {
                self.property_read(*owner, *property, *place)?;
                Ok(())
            }
            Expr::Degree { owner, place, .. } => {
                self.scalar_read(*owner, *place)?;
                Ok(())
            }
            Expr::Live { variable, place } => {
                self.scalar_read(*variable, *place)?;
                Ok(())
            }
            Expr::Unary { inner, .. } => {
                self.reads(inner)?;
                Ok(())
            }
            Expr::Binary { left, right, .. } => {
                self.reads(left)?;
                self.reads(right)?;
                Ok(())
            }
            Expr::Both(left, right) => {
                self.reads(left)?;
                self.reads(right)?;
                Ok(())
            }
            Expr::Either(left, right) => {
                self.reads(left)?;
                self.reads(right)?;
                Ok(())
            }
            Expr::Choose(test, yes, no) => {
                self.reads(test)?;
                self.reads(yes)?;
                self.reads(no)?;
                Ok(())
            }
            Expr::Fold {
                head,
                filter,
                body,
                ..
            } => {
                self.scalar_read(head.owner, head.place)?;
                self.enter(head.iterator, head.domain)?;
                self.reads(filter)?;
                self.reads(body)?;
                self.leave();
                Ok(())
            }
        }
    }

    // Finds the accesses of expressions one after another.
    pub fn reads_of_all(&mut self, values: &'a [Expr]) -> Result<(), AllocError>
        ensures { OnOk result (Finds self.old self.new (reads_of_all (map expr_of values.now) (around_of self.old) self.old.next) (loops_in_all (map expr_of values.now))) }
    {
        for value in values {
            self.reads(value)?;
        }
        Ok(())
    }

    // Finds the accesses of a value that may be absent.
    pub fn option_reads(&mut self, value: &'a Option<Expr>) -> Result<(), AllocError>
        ensures { OnOk result (Finds self.old self.new (option_reads (option_map expr_of value.now) (around_of self.old) self.old.next) (loops_in_option (option_map expr_of value.now))) }
    {
        match value {
            None => Ok(()),
            Some(value) => {
                self.reads(value)?;
                Ok(())
            }
        }
    }
}
