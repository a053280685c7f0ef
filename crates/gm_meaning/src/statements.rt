//! Statements of sequential phases, one after another.

ghost use Rattle.std.specs.Prelude.{◌≡◌, ◌<◌, ◌≤◌, suc, map, IfOk};
ghost use Rattle.gm_ast.specs.Program as program;
ghost use Rattle.gm_ast.specs.Program.{sequence};
ghost use Rattle.gm_ast.specs.Tree.{expr_of, stmt_of};
ghost use Rattle.gm_semantics.specs.Levels.{nodes};
ghost use Rattle.gm_semantics.specs.Statements.{sequential, repeated, in_turns};
ghost use Rattle.gm_loops.specs.Bounds.{bound_of};
ghost use Rattle.gm_loops.specs.LoopEnds.{AtRest};
ghost use Rattle.gm_meaning.specs.Phases.{run_of, asked, turn_of, Runs};
ghost use Rattle.gm_graph.specs.Serving.{Serve};
ghost use Rattle.gm_loops.specs.Asking.{goes_outward, reads_outward};

use crate::phases::{Course, Phase};
use gm_ast::tree::{Expr, Key, Stmt};
use gm_base::{NoMemory, Place};
use gm_loops::{Setting, is_true};
use gm_value::Value;

impl Phase {
    // Statements one after another.
    #[cycle(running)]
    fn block<'x>(
        &mut self,
        setting: &'x Setting<'x>,
        stmts: &'x Vec<Stmt>,
    ) -> Result<Course, NoMemory>
        requires rest { AtRest setting.now self.old.going }
        requires bound { bound_of (sequence (map stmt_of stmts.now.items)) ≤ setting.now.variables }
        requires asked { Serve setting.now.in_rows.now (goes_outward (sequence (map stmt_of stmts.now.items))) }
        ensures { IfOk result (λ c. Runs setting.now self.old self.new c (sequential (sequence (map stmt_of stmts.now.items)) (run_of setting.now))) }
    {
        for stmt in stmts {
            match self.statement(setting, stmt)? {
                Course::Goes => {}
                course => return Ok(course),
            }
        }
        Ok(Course::Goes)
    }

    // A loop whose test is asked before each turn. No more turns can begin than the bound, so the test is asked at
    // most once more than that.
    #[cycle(running)]
    fn repeats<'x>(
        &mut self,
        setting: &'x Setting<'x>,
        key: Key,
        body: &'x Stmt,
        test: &Expr,
    ) -> Result<Course, NoMemory>
        requires rest { AtRest setting.now self.old.going }
        requires bound { bound_of (stmt_of body.now) ≤ setting.now.variables }
        requires test_asked { Serve setting.now.in_rows.now (reads_outward (expr_of test.now)) }
        requires body_asked { Serve setting.now.in_rows.now (goes_outward (stmt_of body.now)) }
        ensures { IfOk result (λ c. Runs setting.now self.old self.new c
            (repeated (suc setting.now.bound) (run_of setting.now) (asked setting.now key (expr_of test.now)) (sequential (stmt_of body.now) (run_of setting.now)))) }
    {
        let mut left = setting.bound;
        'rounds: loop {
            match self.value(setting, key, test) {
                Err(fault) => return Ok(Course::Faults(fault)),
                Ok(value) => if !is_true(value) {
                    return Ok(Course::Goes);
                },
            }
            if !self.begin_turn(setting) {
                return Ok(Course::Stops);
            }
            match self.statement(setting, body)? {
                Course::Goes => {}
                course => return Ok(course),
            }
            if left == 0 {
                return Ok(Course::Stops);
            }
            left -= 1;
        }
    }

    // A turn of a For at a node.
    #[cycle(running)]
    fn turn_at<'x>(
        &mut self,
        setting: &'x Setting<'x>,
        key: Key,
        iterator: u32,
        body: &'x Stmt,
        filter: &Expr,
        node: u32,
    ) -> Result<Course, NoMemory>
        requires rest { AtRest setting.now self.old.going }
        requires iterator { iterator < setting.now.variables }
        requires bound { bound_of (stmt_of body.now) ≤ setting.now.variables }
        requires filter_asked { Serve setting.now.in_rows.now (reads_outward (expr_of filter.now)) }
        requires body_asked { Serve setting.now.in_rows.now (goes_outward (stmt_of body.now)) }
        ensures { IfOk result (λ c. Runs setting.now self.old self.new c (turn_of (run_of setting.now) key iterator (expr_of filter.now) (stmt_of body.now) node)) }
    {
        self.going.store.set_scalar(iterator, Value::At(Some(node)));
        match self.value(setting, key, filter) {
            Err(fault) => Ok(Course::Faults(fault)),
            Ok(value) => {
                if is_true(value) {
                    self.statement(setting, body)
                } else {
                    Ok(Course::Goes)
                }
            }
        }
    }

    // A For: a turn at each node, in order.
    #[cycle(running)]
    fn turns<'x>(
        &mut self,
        setting: &'x Setting<'x>,
        key: Key,
        iterator: u32,
        body: &'x Stmt,
        filter: &Expr,
    ) -> Result<Course, NoMemory>
        requires rest { AtRest setting.now self.old.going }
        requires iterator { iterator < setting.now.variables }
        requires bound { bound_of (stmt_of body.now) ≤ setting.now.variables }
        requires filter_asked { Serve setting.now.in_rows.now (reads_outward (expr_of filter.now)) }
        requires body_asked { Serve setting.now.in_rows.now (goes_outward (stmt_of body.now)) }
        ensures { IfOk result (λ c. Runs setting.now self.old self.new c
            (in_turns (run_of setting.now) (nodes setting.now.graph.now) (turn_of (run_of setting.now) key iterator (expr_of filter.now) (stmt_of body.now)))) }
    {
        for node in 0..setting.graph.node_count() {
            if !self.begin_turn(setting) {
                return Ok(Course::Stops);
            }
            match self.turn_at(setting, key, iterator, body, filter, node)? {
                Course::Goes => {}
                course => return Ok(course),
            }
        }
        Ok(Course::Goes)
    }

    // A turn of a statement before a loop whose test is asked before each further one.
    #[cycle(running)]
    fn repeats_after<'x>(
        &mut self,
        setting: &'x Setting<'x>,
        key: Key,
        place: Place,
        body: &'x Stmt,
        test: &Expr,
    ) -> Result<Course, NoMemory>
        requires rest { AtRest setting.now self.old.going }
        requires bound { bound_of (stmt_of body.now) ≤ setting.now.variables }
        requires test_asked { Serve setting.now.in_rows.now (reads_outward (expr_of test.now)) }
        requires body_asked { Serve setting.now.in_rows.now (goes_outward (stmt_of body.now)) }
        ensures { IfOk result (λ c. Runs setting.now self.old self.new c (sequential (program.Do key place (stmt_of body.now) (expr_of test.now)) (run_of setting.now))) }
    {
        if !self.begin_turn(setting) {
            return Ok(Course::Stops);
        }
        match self.statement(setting, body)? {
            Course::Goes => self.repeats(setting, key, body, test),
            course => Ok(course),
        }
    }

    // A statement.
    #[cycle(running)]
    #[tactic(auto, using(gm_loops::proofs::Serving::block_served, gm_loops::proofs::Serving::assign_value, gm_loops::proofs::Serving::reduce_values, gm_loops::proofs::Serving::foreach_filter, gm_loops::proofs::Serving::foreach_body, gm_loops::proofs::Serving::if_test, gm_loops::proofs::Serving::if_first, gm_loops::proofs::Serving::if_other, crate::proofs::Serving::declared_value, crate::proofs::Serving::group_value, crate::proofs::Serving::for_filter, crate::proofs::Serving::for_body, crate::proofs::Serving::while_test, crate::proofs::Serving::while_body, crate::proofs::Serving::do_body, crate::proofs::Serving::do_test, crate::proofs::Serving::search_filter, crate::proofs::Serving::search_body, crate::proofs::Serving::both_filter, crate::proofs::Serving::both_body, crate::proofs::Serving::both_back_filter, crate::proofs::Serving::both_back, crate::proofs::Serving::returned_value))]
    pub fn statement<'x>(
        &mut self,
        setting: &'x Setting<'x>,
        s: &'x Stmt,
    ) -> Result<Course, NoMemory>
        requires rest { AtRest setting.now self.old.going }
        requires bound { bound_of (stmt_of s.now) ≤ setting.now.variables }
        requires asked { Serve setting.now.in_rows.now (goes_outward (stmt_of s.now)) }
        ensures { IfOk result (λ c. Runs setting.now self.old self.new c (sequential (stmt_of s.now) (run_of setting.now))) }
    {
        match s {
            Stmt::Block(stmts) => self.block(setting, stmts),
            Stmt::Declare {
                variable,
                value: None,
                key,
            } => Ok(self.declare_first(setting, *key, *variable)),
            Stmt::Declare {
                key,
                variable,
                value: Some(value),
            } => Ok(self.declare_value(setting, *key, *variable, value)),
            Stmt::Assign { key, target, value } => self.assign(setting, *key, target, value),
            Stmt::Reduce {
                key,
                total,
                reduce,
                targets,
                values,
            } => self.reduces(
                setting,
                *key,
                *total,
                *reduce,
                targets.as_slice(),
                values.as_slice(),
            ),
            Stmt::Group {
                key,
                place,
                graph,
                property,
                value,
            } => self.group(setting, *key, *place, *graph, *property, value),
            Stmt::Foreach {
                key,
                place,
                head,
                filter,
                body,
            } => self.foreach(setting, *key, *place, head, filter, body),
            Stmt::For {
                key,
                head,
                filter,
                body,
                ..
            } => self.turns(setting, *key, head.iterator, body, filter),
            Stmt::If { key, test, yes, no } => match self.value(setting, *key, test) {
                Err(fault) => Ok(Course::Faults(fault)),
                Ok(value) => {
                    if is_true(value) {
                        self.statement(setting, yes)
                    } else {
                        self.statement(setting, no)
                    }
                }
            },
            Stmt::While {
                key,
                test,
                body,
                ..
            } => self.repeats(setting, *key, body, test),
            Stmt::Do {
                key,
                place,
                body,
                test,
            } => self.repeats_after(setting, *key, *place, body, test),
            Stmt::InBfs {
                key,
                place,
                search,
                filter,
                body,
            } => self.search(setting, *key, *place, search, filter, body),
            Stmt::InBfsBoth {
                key,
                place,
                search,
                filter,
                body,
                back_key,
                back_filter,
                back,
            } => self.search_both(
                setting,
                *key,
                *place,
                search,
                filter,
                body,
                *back_key,
                back_filter,
                back,
            ),
            Stmt::Return { value: None, .. } => Ok(Course::Returns(None)),
            Stmt::Return {
                key,
                place,
                value: Some(value),
            } => Ok(self.return_value(setting, *key, *place, value)),
            Stmt::DeclareEdge { .. } | Stmt::Defer { .. } => Ok(Course::Goes),
        }
    }
}
