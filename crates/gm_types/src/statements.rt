//! Statements, each part judged once.

ghost use Rattle.std.specs.Prelude.{◌≡◌, ◌+◌, Some, Ok, length, take, IfOk, OnOk, map, option_map};
ghost use Rattle.gm_ast.specs.Judged.{both_of, part_by, broken_by};
ghost use Rattle.gm_ast.specs.Names.{operators_of, known_as, both, numbered};
ghost use Rattle.gm_ast.specs.Surface.{sequence, Loop, InBfs};
ghost use Rattle.gm_ast.specs.Program as Program;
ghost use Rattle.gm_ast.specs.Typing.{typed};
ghost use Rattle.gm_ast.specs.Statements.{assignment, assigned, grouped, group_target, in_group, deferred, names_graph, test, searched, checked, rooted, graph_searched};
ghost use Rattle.gm_ast.specs.SurfaceTree as SurfaceTree;
ghost use Rattle.gm_ast.specs.SurfaceTree.{name_of, target_of};
ghost use Rattle.gm_ast.specs.Tree.{expr_of, stmt_of};
ghost use Rattle.gm_types.specs.Boxes.{boxed_of, half_of, back_of};
ghost use Rattle.gm_types.specs.Parts.{part_of};
ghost use Rattle.gm_types.specs.Groups.{group_of};
ghost use Rattle.gm_types.specs.Views.{env_of, Judges, Follows};
ghost use Rattle.gm_types.specs.Shapes.{branch_in, deferred_at, reduced_at, increment_at, return_at};

use crate::assembled::{
    Back, Half, back_with, bfs_both_with, bfs_with, block_of, boxed, do_with, enclosed, half_with,
    if_with, loop_with, loops_of, skip, while_with,
};
use crate::assignments::{GroupGoal, assign, defer, give_back, group, group_goal, increment};
use crate::expressions::start_of;
use crate::leaves::is_node;
use crate::lists::pushed;
use crate::names::Checker;
use crate::notes::note;
use crate::parts::{Part, condition};
use gm_ast::kinds::Binding;
use gm_ast::surface::{LoopWord, Name, SpelledExpr, SpelledHead, SpelledStmt, SpelledTarget};
use gm_ast::tree::{Expr, Key, Sort, Stage, Stmt};
use gm_base::{Place, Rule};
use gm_value::{Reduce, Value};
use std::alloc::{AllocError, Global};

// Where a statement began: the key around it, and how many names were known.
#[derive(Clone, Copy)]
pub struct Around {
    pub key: Key,
    pub known: usize,
}

impl<'a> Checker<'a> {
    // Begins a statement: it takes the next number, and its operators have its key.
    pub fn begin(&mut self) -> Result<Around, AllocError>
        ensures around { IfOk result (λ a. a ≡ record { key = self.old.key; known = length self.old.scope.names.entries }) }
        ensures begun { OnOk result (self.new ≡ record self.old { number = self.old.number + 1; key = operators_of self.old.number }) }
    {
        let around = Around {
            key: self.key,
            known: self.scope.names.len(),
        };
        let statement = self.number;
        self.take_numbers(1)?;
        self.key = Key {
            statement,
            stage: Stage::Operator,
        };
        Ok(around)
    }

    // Ends a statement that is a scope of its own: the names declared in it are forgotten.
    pub fn end(&mut self, around: Around)
        ensures known { self.new.scope.names.entries ≡ take around.known self.old.scope.names.entries }
        ensures rest { self.new ≡ record self.old { scope = self.new.scope; key = around.key } }
    {
        self.scope.names.truncate(around.known);
        self.key = around.key;
    }

    // A condition.
    pub fn test(&mut self, alloc: Global, e: &'a SpelledExpr) -> Result<Option<Expr>, AllocError>
        ensures { IfOk result (λ r. Judges self.old self.new (test (SurfaceTree.expr_of e.now) (env_of self.old)) (option_map expr_of r)) }
    {
        let part = self.typed(alloc, e)?;
        Ok(condition(start_of(e), part, &mut self.least))
    }

    // A filter, which may be absent.
    fn filter(
        &mut self,
        alloc: Global,
        e: &'a Option<SpelledExpr>,
    ) -> Result<Option<Expr>, AllocError>
        ensures { IfOk result (λ r. Judges self.old self.new (test (SurfaceTree.test_of e.now) (env_of self.old)) (option_map expr_of r)) }
    {
        match e {
            None => Ok(Some(Expr::Const(Value::Flag(true)))),
            Some(e) => {
                let test = self.test(alloc, e)?;
                Ok(test)
            }
        }
    }

    // Whether a name is that of the graph.
    fn names_graph(&self, name: &Name) -> bool
        ensures { result ≡ names_graph (known_as (env_of self.now).known (name_of name.now).text) }
    {
        match self.scope.meaning(&name.text) {
            None => false,
            Some(binding) => binding.variable.sort == Sort::Graph,
        }
    }

    // The right side of a group assignment, which is parallel code.
    fn grouped_value(
        &mut self,
        alloc: Global,
        value: &'a SpelledExpr,
    ) -> Result<Option<Part>, AllocError>
        ensures { IfOk result (λ r. Judges self.old self.new (in_group (typed (SurfaceTree.expr_of value.now)) (env_of self.old)) (option_map part_of r)) }
    {
        let group = self.group;
        let depth = self.depth;
        let Some(inner) = depth.checked_add(1) else {
            return Err(AllocError);
        };
        self.group = true;
        self.depth = inner;
        let part = self.typed(alloc, value)?;
        self.group = group;
        self.depth = depth;
        Ok(part)
    }

    // The left side of a group assignment.
    fn group_target(&mut self, graph: &Name, property: &Name) -> Option<GroupGoal>
        ensures { Judges self.old self.new (group_target (name_of graph.now) (name_of property.now) (env_of self.old)) (option_map group_of result) }
    {
        let owner = self.used(graph);
        let found = self.used(property);
        group_goal(graph.place, owner, found, &mut self.least)
    }

    // A property's values at all nodes.
    fn grouped(
        &mut self,
        alloc: Global,
        graph: &Name,
        property: &Name,
        place: Place,
        value: &'a SpelledExpr,
    ) -> Result<Option<Stmt>, AllocError>
        ensures { IfOk result (λ r. Judges self.old self.new (grouped (name_of graph.now) (name_of property.now) place (SurfaceTree.expr_of value.now) (env_of self.old)) (option_map stmt_of r)) }
    {
        let key = self.key;
        let goal = self.group_target(graph, property);
        let part = self.grouped_value(alloc, value)?;
        let stmt = group(alloc, key, graph.place, place, goal, part, &mut self.least)?;
        Ok(stmt)
    }

    // An assignment that is no group assignment.
    fn assigned(
        &mut self,
        alloc: Global,
        target: &SpelledTarget,
        place: Place,
        value: &'a SpelledExpr,
    ) -> Result<Option<Stmt>, AllocError>
        ensures { IfOk result (λ r. Judges self.old self.new (assigned (target_of target.now) place (SurfaceTree.expr_of value.now) (env_of self.old)) (option_map stmt_of r)) }
    {
        let key = self.key;
        let goal = self.goal(false, target);
        let part = self.typed(alloc, value)?;
        let stmt = assign(alloc, key, place, goal, part, &mut self.least)?;
        Ok(stmt)
    }

    // An assignment to a property, which is a group assignment where it is one of the graph.
    fn property_assigned(
        &mut self,
        alloc: Global,
        target: &SpelledTarget,
        property: &Name,
        place: Place,
        value: &'a SpelledExpr,
    ) -> Result<Option<Stmt>, AllocError>
        ensures { IfOk result (λ r. Judges self.old self.new (assignment (Some (name_of property.now)) (target_of target.now) place (SurfaceTree.expr_of value.now) (env_of self.old)) (option_map stmt_of r)) }
    {
        if self.names_graph(&target.owner) {
            self.grouped(alloc, &target.owner, property, place, value)
        } else {
            self.assigned(alloc, target, place, value)
        }
    }

    // An assignment, which is a group assignment where it is to a property of the graph.
    fn assignment(
        &mut self,
        alloc: Global,
        target: &SpelledTarget,
        place: Place,
        value: &'a SpelledExpr,
    ) -> Result<Option<Stmt>, AllocError>
        ensures { IfOk result (λ r. Judges self.old self.new (assignment (target_of target.now).property (target_of target.now) place (SurfaceTree.expr_of value.now) (env_of self.old)) (option_map stmt_of r)) }
    {
        match &target.property {
            None => self.assigned(alloc, target, place, value),
            Some(property) => self.property_assigned(alloc, target, property, place, value),
        }
    }

    // A deferred assignment.
    fn deferred(
        &mut self,
        alloc: Global,
        target: &SpelledTarget,
        place: Place,
        value: &'a SpelledExpr,
    ) -> Result<Option<Stmt>, AllocError>
        ensures { IfOk result (λ r. Judges self.old self.new (deferred (target_of target.now) place (SurfaceTree.expr_of value.now) (env_of self.old)) (option_map stmt_of r)) }
    {
        let key = self.key;
        let goal = self.goal(true, target);
        let part = self.typed(alloc, value)?;
        let stmt = defer(alloc, key, place, goal, part, &mut self.least)?;
        Ok(stmt)
    }

    // A deferred assignment, with its iterator after `@`.
    fn deferred_at(
        &mut self,
        alloc: Global,
        target: &SpelledTarget,
        place: Place,
        value: &'a SpelledExpr,
        iterator: &Option<Name>,
    ) -> Result<Option<Stmt>, AllocError>
        ensures { IfOk result (λ r. Judges self.old self.new (deferred_at (target_of target.now) place (SurfaceTree.expr_of value.now) (option_map name_of iterator.now) (env_of self.old)) (option_map stmt_of r)) }
    {
        let stmt = self.deferred(alloc, target, place, value)?;
        let enclosing = self.at_iterator(iterator);
        Ok(enclosed(stmt, enclosing))
    }

    // A reduction assignment, with its iterator after `@`.
    fn reduced_at(
        &mut self,
        alloc: Global,
        targets: &[SpelledTarget],
        reduce: Reduce,
        place: Place,
        values: &'a [SpelledExpr],
        iterator: &Option<Name>,
    ) -> Result<Option<Stmt>, AllocError>
        ensures { IfOk result (λ r. Judges self.old self.new (reduced_at (map target_of targets.now) reduce place (map SurfaceTree.expr_of values.now) (option_map name_of iterator.now) (env_of self.old)) (option_map stmt_of r)) }
    {
        let stmt = self.reduced(alloc, targets, reduce, place, values)?;
        let enclosing = self.at_iterator(iterator);
        Ok(enclosed(stmt, enclosing))
    }

    // `++`.
    fn incremented(
        &mut self,
        alloc: Global,
        target: &SpelledTarget,
        place: Place,
    ) -> Result<Option<Stmt>, AllocError>
        ensures { IfOk result (λ r. Judges self.old self.new (increment_at (target_of target.now) place (env_of self.old)) (option_map stmt_of r)) }
    {
        let key = self.key;
        let goal = self.goal(false, target);
        let stmt = increment(alloc, key, place, goal, &mut self.least)?;
        Ok(stmt)
    }

    // The end of the procedure, with or without a value.
    fn returned(
        &mut self,
        alloc: Global,
        place: Place,
        value: &'a Option<SpelledExpr>,
    ) -> Result<Option<Stmt>, AllocError>
        ensures { IfOk result (λ r. Judges self.old self.new (return_at place (option_map SurfaceTree.expr_of value.now) (env_of self.old)) (option_map stmt_of r)) }
    {
        let key = self.key;
        let wanted = self.result;
        match value {
            None => {
                if wanted.is_none() {
                    return Ok(Some(Stmt::Return {
                        key,
                        place,
                        value: None,
                    }));
                }
                note(&mut self.least, Rule::T14, place);
                Ok(None)
            }
            Some(e) => {
                let part = self.typed(alloc, e)?;
                let stmt = give_back(alloc, key, place, wanted, part, &mut self.least)?;
                Ok(stmt)
            }
        }
    }

    // The variable that holds the root of a search.
    fn rooted(&mut self, name: &Name) -> Option<Binding>
        ensures { Judges self.old self.new (rooted (name_of name.now) (env_of self.old)) result }
    {
        let found = self.used(name)?;
        if is_node(found.variable) {
            return Some(found);
        }
        note(&mut self.least, Rule::T6, name.place);
        None
    }

    // The graph of a search.
    fn graph_searched(&mut self, name: &Name) -> Option<Binding>
        ensures { Judges self.old self.new (graph_searched (name_of name.now) (env_of self.old)) result }
    {
        let found = self.used(name)?;
        if found.variable.sort == Sort::Graph {
            return Some(found);
        }
        note(&mut self.least, Rule::T6, name.place);
        None
    }

    // The statements of a block, one after another.
    #[cycle(stating)]
    pub fn block(
        &mut self,
        alloc: Global,
        stmts: &'a Vec<SpelledStmt>,
    ) -> Result<Option<Stmt>, AllocError>
        ensures { IfOk result (λ r. Judges self.old self.new (checked (sequence (map SurfaceTree.stmt_of stmts.now.items)) (env_of self.old)) (option_map stmt_of r)) }
    {
        let known = self.scope.names.len();
        let mut held = Some(Vec::new(alloc));
        for stmt in stmts {
            let around = self.begin()?;
            let part = self.checked(alloc, stmt)?;
            self.key = around.key;
            held = pushed(held, part)?;
        }
        self.scope.names.truncate(known);
        Ok(block_of(held))
    }

    // A statement that is a scope of its own, in a box.
    #[cycle(stating)]
    fn scoped(&mut self, alloc: Global, s: &'a SpelledStmt) -> Result<Option<Box<Stmt>>, AllocError>
        ensures { IfOk result (λ r. Judges self.old self.new (numbered (checked (SurfaceTree.stmt_of s.now)) (env_of self.old)) (option_map boxed_of r)) }
    {
        let around = self.begin()?;
        let part = self.checked(alloc, s)?;
        self.end(around);
        let held = boxed(alloc, part)?;
        Ok(held)
    }

    // A branch, which may be absent.
    #[cycle(stating)]
    fn otherwise(
        &mut self,
        alloc: Global,
        branch: &'a Option<Box<SpelledStmt>>,
    ) -> Result<Option<Box<Stmt>>, AllocError>
        ensures { IfOk result (λ r. Judges self.old self.new (numbered (checked (branch_in branch.now)) (env_of self.old)) (option_map boxed_of r)) }
    {
        match branch {
            None => {
                self.take_numbers(1)?;
                let absent = skip(alloc)?;
                Ok(Some(absent))
            }
            Some(branch) => self.scoped(alloc, branch),
        }
    }

    // A filter and the body under it.
    #[cycle(stating)]
    fn judge_half(
        &mut self,
        alloc: Global,
        body: &'a SpelledStmt,
        filter: &'a Option<SpelledExpr>,
    ) -> Result<Option<Half>, AllocError>
        ensures { IfOk result (λ r. Judges self.old self.new (both (test (SurfaceTree.test_of filter.now)) (numbered (checked (SurfaceTree.stmt_of body.now))) (env_of self.old)) (option_map half_of r)) }
    {
        let asked = self.filter(alloc, filter)?;
        let inner = self.scoped(alloc, body)?;
        Ok(half_with(asked, inner))
    }

    // The part of a search after InReverse.
    #[cycle(stating)]
    fn judge_back(
        &mut self,
        alloc: Global,
        body: &'a SpelledStmt,
        filter: &'a Option<SpelledExpr>,
    ) -> Result<Option<Back>, AllocError>
        ensures { IfOk result (λ r. Judges self.old self.new (numbered (searched (test (SurfaceTree.test_of filter.now)) (numbered (checked (SurfaceTree.stmt_of body.now)))) (env_of self.old)) (option_map back_of r)) }
    {
        let around = self.begin()?;
        let key = self.key;
        let half = self.judge_half(alloc, body, filter)?;
        self.key = around.key;
        Ok(back_with(key, half))
    }

    // A loop over nodes or neighbours.
    #[cycle(stating)]
    fn judge_loop(
        &mut self,
        alloc: Global,
        place: Place,
        word: LoopWord,
        head: &'a SpelledHead,
        body: &'a SpelledStmt,
        filter: &'a Option<SpelledExpr>,
    ) -> Result<Option<Stmt>, AllocError>
        ensures { IfOk result (λ r. Judges self.old self.new (checked (Loop place word (SurfaceTree.head_of head.now) (SurfaceTree.test_of filter.now) (SurfaceTree.stmt_of body.now)) (env_of self.old)) (option_map stmt_of r)) }
    {
        let key = self.key;
        let owner = self.ranged(head);
        let known = self.scope.names.len();
        let depth = self.depth;
        let iterator = self.enter(alloc, &head.iterator, loops_of(word))?;
        let half = self.judge_half(alloc, body, filter)?;
        self.leave(known, depth);
        Ok(loop_with(word, key, place, head, owner, iterator, half))
    }

    // A search without a part after InReverse.
    #[cycle(stating)]
    fn judge_search(
        &mut self,
        alloc: Global,
        place: Place,
        iterator: &'a Name,
        graph: &Name,
        root: &Name,
        body: &'a SpelledStmt,
        filter: &'a Option<SpelledExpr>,
    ) -> Result<Option<Stmt>, AllocError>
        ensures { IfOk result (λ r. Judges self.old self.new (checked (InBfs place (name_of iterator.now) (name_of graph.now) (name_of root.now) (SurfaceTree.test_of filter.now) (SurfaceTree.stmt_of body.now)) (env_of self.old)) (option_map stmt_of r)) }
    {
        let key = self.key;
        let around = self.graph_searched(graph);
        let start = self.rooted(root);
        let known = self.scope.names.len();
        let depth = self.depth;
        let visited = self.enter(alloc, iterator, 1)?;
        let half = self.judge_half(alloc, body, filter)?;
        self.leave(known, depth);
        Ok(bfs_with(key, place, root, around, start, visited, half))
    }

    // A statement among the names that are known.
    #[cycle(stating)]
    pub fn checked(&mut self, alloc: Global, s: &'a SpelledStmt) -> Result<Option<Stmt>, AllocError>
        ensures { IfOk result (λ r. Follows self.old self.new (SurfaceTree.stmt_of s.now) (checked (SurfaceTree.stmt_of s.now) (env_of self.old)) (option_map stmt_of r)) }
    {
        let key = self.key;
        match s {
            SpelledStmt::Block(stmts) => self.block(alloc, stmts),
            SpelledStmt::Declare { vtype, names } => self.declare_plainly(alloc, vtype, names),
            SpelledStmt::DeclareAs {
                vtype,
                name,
                equals,
                value,
            } => self.declare_with(alloc, vtype, name, *equals, value),
            SpelledStmt::Assign {
                target,
                equals,
                value,
            } => self.assignment(alloc, target, *equals, value),
            SpelledStmt::Defer {
                target,
                arrow,
                value,
                iterator,
            } => self.deferred_at(alloc, target, *arrow, value, iterator),
            SpelledStmt::Reduce {
                targets,
                reduce,
                place,
                values,
                iterator,
            } => self.reduced_at(alloc, targets, *reduce, *place, values, iterator),
            SpelledStmt::Increment { target, place } => self.incremented(alloc, target, *place),
            SpelledStmt::Call { procedure, .. } => {
                note(&mut self.least, Rule::T15, procedure.place);
                Ok(None)
            }
            SpelledStmt::Loop {
                place,
                word,
                head,
                filter,
                body,
            } => self.judge_loop(alloc, *place, *word, head, body, filter),
            SpelledStmt::If { test, yes, no, .. } => {
                let asked = self.test(alloc, test)?;
                let first = self.scoped(alloc, yes)?;
                let second = self.otherwise(alloc, no)?;
                Ok(if_with(key, asked, first, second))
            }
            SpelledStmt::While { place, test, body } => {
                let asked = self.test(alloc, test)?;
                let inner = self.scoped(alloc, body)?;
                Ok(while_with(key, *place, asked, inner))
            }
            SpelledStmt::Do { place, body, test } => {
                let inner = self.scoped(alloc, body)?;
                let asked = self.test(alloc, test)?;
                Ok(do_with(key, *place, inner, asked))
            }
            SpelledStmt::InBfs {
                place,
                iterator,
                graph,
                root,
                filter,
                body,
            } => self.judge_search(alloc, *place, iterator, graph, root, body, filter),
            SpelledStmt::InBfsBoth {
                place,
                iterator,
                graph,
                root,
                filter,
                body,
                back_filter,
                back,
                ..
            } => {
                let around = self.graph_searched(graph);
                let start = self.rooted(root);
                let known = self.scope.names.len();
                let depth = self.depth;
                let visited = self.enter(alloc, iterator, 1)?;
                let front = self.judge_half(alloc, body, filter)?;
                let behind = self.judge_back(alloc, back, back_filter)?;
                self.leave(known, depth);
                Ok(bfs_both_with(key, *place, root, around, start, visited, front, behind))
            }
            SpelledStmt::Return { place, value } => self.returned(alloc, *place, value),
        }
    }
}
