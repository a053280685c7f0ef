//! Statements: what stands where a vertex program cannot do it.

ghost use Rattle.std.specs.Prelude.{◌≡◌, OnOk, map, ◌++◌};
ghost use Rattle.gm_base.specs.Rules.{least_from};
ghost use Rattle.gm_base.specs.declared.rules.Rule.TheVariants.{C9};
ghost use Rattle.gm_ast.specs.Loops as Loops;
ghost use Rattle.gm_ast.specs.Canonical.{Filter, Search, within, ways_broken, reads_broken, forms_broken};
ghost use Rattle.gm_ast.specs.declared.tree.Key.{Key};
ghost use Rattle.gm_ast.specs.Program.{Foreach, For, sequence};
ghost use Rattle.gm_ast.specs.Tree.{expr_of, stmt_of};
ghost use Rattle.gm_canon.specs.Around.{around_of, Notes};

use crate::loops::{Code, is_directly_parallel};
use crate::walks::{Walker, target_place};
use gm_ast::tree::{Expr, Head, Stmt};
use gm_base::Place;
use gm_push_pull::ways_in_loop;
use std::alloc::{AllocError, Global};

impl<'a> Walker<'a> {
    // Notes the reads of edges in an inner loop that go against the way of a message.
    fn ways(
        &mut self,
        alloc: Global,
        head: &Head,
        filter: &Expr,
        body: &Stmt,
    ) -> Result<(), AllocError>
        ensures { OnOk result (Notes self.old self.new (ways_broken (around_of self.old).loops head.now (expr_of filter.now) (stmt_of body.now))) }
    {
        if is_directly_parallel(&self.loops) {
            let found = ways_in_loop(alloc, head, filter, body)?;
            self.note_least(found.against);
        }
        Ok(())
    }

    // Judges the statements of a block, one after another.
    #[cycle(forms)]
    fn block(&mut self, alloc: Global, stmts: &Vec<Stmt>) -> Result<(), AllocError>
        ensures { OnOk result (Notes self.old self.new (forms_broken (sequence (map stmt_of stmts.now.items)) (around_of self.old))) }
    {
        for stmt in stmts {
            self.forms(alloc, stmt)?;
        }
        Ok(())
    }

    // Judges the filter and the body of a search, or those of its way back.
    #[cycle(forms)]
    fn searched(
        &mut self,
        alloc: Global,
        iterator: u32,
        body: &Stmt,
        filter: &Expr,
    ) -> Result<(), AllocError>
        ensures { OnOk result (Notes self.old self.new (reads_broken (expr_of filter.now) (within (around_of self.old) Filter iterator)
            ++ forms_broken (stmt_of body.now) (within (around_of self.old) Search iterator))) }
    {
        self.reads_within(Code::Filter, iterator, filter)?;
        self.enter(Code::Search, iterator)?;
        self.forms(alloc, body)?;
        self.leave();
        Ok(())
    }

    // Judges a parallel loop.
    #[cycle(forms)]
    fn foreach(
        &mut self,
        alloc: Global,
        place: Place,
        head: &Head,
        body: &Stmt,
        filter: &Expr,
    ) -> Result<(), AllocError>
        ensures { (key : Key) → OnOk result (Notes self.old self.new (forms_broken (Foreach key place head.now (expr_of filter.now) (stmt_of body.now)) (around_of self.old))) }
    {
        self.not_inner(place);
        self.range(*head);
        self.reads_within(Code::Body, head.iterator, filter)?;
        self.enter(Code::Body, head.iterator)?;
        self.forms(alloc, body)?;
        self.leave();
        self.ways(alloc, head, filter, body)?;
        Ok(())
    }

    // Judges a sequential loop.
    #[cycle(forms)]
    fn for_loop(
        &mut self,
        alloc: Global,
        place: Place,
        head: &Head,
        body: &Stmt,
        filter: &Expr,
    ) -> Result<(), AllocError>
        ensures { (key : Key) → OnOk result (Notes self.old self.new (forms_broken (For key place head.now (expr_of filter.now) (stmt_of body.now)) (around_of self.old))) }
    {
        self.phase_only(place);
        self.range(*head);
        self.reads(filter)?;
        self.forms(alloc, body)?;
        Ok(())
    }

    // Judges a statement.
    #[cycle(forms)]
    pub fn forms(&mut self, alloc: Global, s: &Stmt) -> Result<(), AllocError>
        ensures { OnOk result (Notes self.old self.new (forms_broken (stmt_of s.now) (around_of self.old))) }
    {
        match s {
            Stmt::Block(stmts) => self.block(alloc, stmts)?,
            Stmt::Declare { value, .. } => self.optional(value)?,
            Stmt::DeclareEdge {
                iterator,
                place,
                ..
            } => self.edge(*iterator, *place),
            Stmt::Assign { target, value, .. } => {
                self.assignment(*target);
                self.reads(value)?;
            }
            Stmt::Defer { target, value, .. } => {
                let place = target_place(*target);
                self.parallel_only(place);
                self.not_inner(place);
                self.reads(value)?;
            }
            Stmt::Reduce { values, .. } => self.all(values)?,
            Stmt::Group {
                place,
                graph,
                value,
                ..
            } => {
                self.phase_only(*place);
                self.reads_within(Code::Group, *graph, value)?;
            }
            Stmt::Foreach {
                place,
                head,
                filter,
                body,
                ..
            } => self.foreach(alloc, *place, head, body, filter)?,
            Stmt::For {
                place,
                head,
                filter,
                body,
                ..
            } => self.for_loop(alloc, *place, head, body, filter)?,
            Stmt::If { test, yes, no, .. } => {
                self.reads(test)?;
                self.forms(alloc, yes)?;
                self.forms(alloc, no)?;
            }
            Stmt::While {
                place,
                test,
                body,
                ..
            } => {
                self.phase_only(*place);
                self.reads(test)?;
                self.forms(alloc, body)?;
            }
            Stmt::Do {
                place,
                body,
                test,
                ..
            } => {
                self.phase_only(*place);
                self.forms(alloc, body)?;
                self.reads(test)?;
            }
            Stmt::InBfs {
                place,
                search,
                filter,
                body,
                ..
            } => {
                self.phase_only(*place);
                self.searched(alloc, search.iterator, body, filter)?;
            }
            Stmt::InBfsBoth {
                place,
                search,
                filter,
                body,
                back_filter,
                back,
                ..
            } => {
                self.phase_only(*place);
                self.searched(alloc, search.iterator, body, filter)?;
                self.searched(alloc, search.iterator, back, back_filter)?;
            }
            Stmt::Return { place, value, .. } => {
                self.phase_only(*place);
                self.optional(value)?;
            }
        }
        Ok(())
    }
}
