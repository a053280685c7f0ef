//! Expressions: reads and reductions that a vertex program cannot do.

ghost use Rattle.std.specs.Prelude.{◌≡◌, OnOk, map, option_map};
ghost use Rattle.gm_ast.specs.Canonical.{within, reads_broken, option_broken, all_broken};
ghost use Rattle.gm_ast.specs.Tree.{expr_of};
ghost use Rattle.gm_canon.specs.Around.{code_of, around_of, Notes};

use crate::loops::Code;
use crate::walks::Walker;
use gm_ast::tree::Expr;
use std::alloc::AllocError;

impl<'a> Walker<'a> {
    // Judges an expression.
    pub fn reads(&mut self, e: &Expr) -> Result<(), AllocError>
        ensures { OnOk result (Notes self.old self.new (reads_broken (expr_of e.now) (around_of self.old))) }
    {
        match e {
            Expr::Property { owner, place, .. } => {
                self.read(*owner, *place);
                Ok(())
            }
            Expr::Degree { owner, place, .. } => {
                self.read(*owner, *place);
                Ok(())
            }
            Expr::Unary { inner, .. } => {
                self.reads(inner)?;
                Ok(())
            }
            Expr::Binary { left, right, .. } => {
                self.reads(left)?;
                self.reads(right)?;
                Ok(())
            }
            Expr::Both(left, right) => {
                self.reads(left)?;
                self.reads(right)?;
                Ok(())
            }
            Expr::Either(left, right) => {
                self.reads(left)?;
                self.reads(right)?;
                Ok(())
            }
            Expr::Choose(test, yes, no) => {
                self.reads(test)?;
                self.reads(yes)?;
                self.reads(no)?;
                Ok(())
            }
            Expr::Fold {
                head,
                filter,
                body,
                ..
            } => {
                self.range(*head);
                self.enter(Code::Reduction, head.iterator)?;
                self.reads(filter)?;
                self.reads(body)?;
                self.leave();
                Ok(())
            }
            _ => Ok(()),
        }
    }

    // Judges an expression in one more loop.
    pub fn reads_within(&mut self, code: Code, iterator: u32, e: &Expr) -> Result<(), AllocError>
        ensures { OnOk result (Notes self.old self.new (reads_broken (expr_of e.now) (within (around_of self.old) (code_of code) iterator))) }
    {
        self.enter(code, iterator)?;
        self.reads(e)?;
        self.leave();
        Ok(())
    }

    // Judges a value that may be absent.
    pub fn optional(&mut self, e: &Option<Expr>) -> Result<(), AllocError>
        ensures { OnOk result (Notes self.old self.new (option_broken (option_map expr_of e.now) (around_of self.old))) }
    {
        match e {
            None => Ok(()),
            Some(e) => {
                self.reads(e)?;
                Ok(())
            }
        }
    }

    // Judges several expressions.
    pub fn all(&mut self, values: &[Expr]) -> Result<(), AllocError>
        ensures { OnOk result (Notes self.old self.new (all_broken (map expr_of values.now) (around_of self.old))) }
    {
        for value in values {
            self.reads(value)?;
        }
        Ok(())
    }
}
