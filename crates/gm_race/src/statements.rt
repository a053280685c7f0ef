//! The accesses of statements.

ghost use Rattle.std.specs.Prelude.{◌+◌, OnOk, map};
ghost use Rattle.gm_ast.specs.Program.{sequence};
ghost use Rattle.gm_ast.specs.Accesses.{accesses_of, loops_of, within};
ghost use Rattle.gm_ast.specs.Tree.{expr_of, stmt_of};
ghost use Rattle.gm_race.specs.Walks.{around_of, Finds};
ghost use Rattle.gm_race.specs.Parts.{filtered, loops_filtered};

use crate::found::Reduction;
use crate::walks::Walker;
use gm_ast::tree::{Domain, Expr, Stmt};
use std::alloc::AllocError;

impl<'a> Walker<'a> {
    // Finds the accesses of a condition and then those of what stands under it.
    #[cycle(walking)]
    fn filtered(&mut self, body: &'a Stmt, filter: &'a Expr) -> Result<(), AllocError>
        ensures { OnOk result (Finds self.old self.new (filtered (expr_of filter.now) (stmt_of body.now) (around_of self.old) self.old.next) (loops_filtered (expr_of filter.now) (stmt_of body.now))) }
    {
        self.reads(filter)?;
        self.statement(body)?;
        Ok(())
    }

    // Finds the accesses of a parallel loop: those of its filter, and then those of its body.
    #[cycle(walking)]
    fn turns(
        &mut self,
        body: &'a Stmt,
        filter: &'a Expr,
        iterator: u32,
        domain: Domain,
    ) -> Result<(), AllocError>
        ensures { OnOk result (Finds self.old self.new (filtered (expr_of filter.now) (stmt_of body.now) (within (around_of self.old) self.old.next iterator domain) (self.old.next + 1)) (1 + loops_filtered (expr_of filter.now) (stmt_of body.now))) }
    {
        self.enter(iterator, domain)?;
        self.reads(filter)?;
        self.statement(body)?;
        self.leave();
        Ok(())
    }

    // Finds the accesses of the statements of a block.
    #[cycle(walking)]
    fn block(&mut self, stmts: &'a Vec<Stmt>) -> Result<(), AllocError>
        ensures { OnOk result (Finds self.old self.new (accesses_of (sequence (map stmt_of stmts.now.items)) (around_of self.old) self.old.next) (loops_of (sequence (map stmt_of stmts.now.items)))) }
    {
        for stmt in stmts {
            self.statement(stmt)?;
        }
        Ok(())
    }

    // Finds the accesses of a statement.
    #[cycle(walking)]
    pub fn statement(&mut self, s: &'a Stmt) -> Result<(), AllocError>
        ensures { OnOk result (Finds self.old self.new (accesses_of (stmt_of s.now) (around_of self.old) self.old.next) (loops_of (stmt_of s.now))) }
    {
        match s {
            Stmt::Block(stmts) => {
                self.block(stmts)?;
                Ok(())
            }
            Stmt::Declare { value, .. } => {
                self.option_reads(value)?;
                Ok(())
            }
            Stmt::DeclareEdge { .. } => Ok(()),
            Stmt::Assign { target, value, .. } => {
                self.plain_write(*target)?;
                self.reads(value)?;
                Ok(())
            }
            Stmt::Defer { target, value, .. } => {
                self.deferred_write(*target)?;
                self.reads(value)?;
                Ok(())
            }
            Stmt::Reduce {
                reduce,
                targets,
                values,
                ..
            } => {
                self.reductions(Reduction {
                    reduce: *reduce,
                    targets,
                })?;
                self.reads_of_all(values)?;
                Ok(())
            }
            Stmt::Group {
                place,
                graph,
                property,
                value,
                ..
            } => {
                self.enter(*graph, Domain::Nodes)?;
                self.property_write(*graph, *property, *place)?;
                self.reads(value)?;
                self.leave();
                Ok(())
            }
            Stmt::Foreach {
                head,
                filter,
                body,
                ..
            } => {
                self.scalar_read(head.owner, head.place)?;
                self.turns(body, filter, head.iterator, head.domain)?;
                Ok(())
            }
            Stmt::For {
                head,
                filter,
                body,
                ..
            } => {
                self.scalar_read(head.owner, head.place)?;
                self.filtered(body, filter)?;
                Ok(())
            }
            Stmt::If { test, yes, no, .. } => {
                self.reads(test)?;
                self.statement(yes)?;
                self.statement(no)?;
                Ok(())
            }
            Stmt::While { test, body, .. } => {
                self.filtered(body, test)?;
                Ok(())
            }
            Stmt::Do { body, test, .. } => {
                self.statement(body)?;
                self.reads(test)?;
                Ok(())
            }
            Stmt::InBfs {
                search,
                filter,
                body,
                ..
            } => {
                self.scalar_read(search.root, search.place)?;
                self.turns(body, filter, search.iterator, Domain::Nodes)?;
                Ok(())
            }
            Stmt::InBfsBoth {
                search,
                filter,
                body,
                back_filter,
                back,
                ..
            } => {
                self.scalar_read(search.root, search.place)?;
                self.turns(body, filter, search.iterator, Domain::Nodes)?;
                self.turns(back, back_filter, search.iterator, Domain::Nodes)?;
                Ok(())
            }
            Stmt::Return { value, .. } => {
                self.option_reads(value)?;
                Ok(())
            }
        }
    }
}
