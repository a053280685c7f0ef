//! Breadth-first searches of sequential phases, level by level.

ghost use Rattle.std.specs.Prelude.{◌≡◌, ◌<◌, ◌≤◌, Some, IfOk, All, reverse};
ghost use Rattle.gm_model.specs.Graphs.{HasNode};
ghost use Rattle.gm_ast.specs.Program as program;
ghost use Rattle.gm_ast.specs.Tree.{expr_of, stmt_of};
ghost use Rattle.gm_semantics.specs.Expressions.{node_of};
ghost use Rattle.gm_semantics.specs.Statements.{sequential, loops, in_turns, then_do};
ghost use Rattle.gm_loops.specs.Bounds.{bound_of};
ghost use Rattle.gm_loops.specs.LoopEnds.{AtRest};
ghost use Rattle.gm_loops.specs.Sights.{level_in, Fits};
ghost use Rattle.gm_meaning.specs.Phases.{run_of, state_of, seen_by, Runs};
ghost use Rattle.gm_meaning.specs.Searches.{AreNodes, AreLevels};
ghost use Rattle.gm_graph.specs.Serving.{Serve};
ghost use Rattle.gm_loops.specs.Asking.{goes_outward, reads_outward};

use crate::phases::{Course, Phase, sight};
use gm_ast::tree::{Expr, Key, Search, Stmt};
use gm_base::{NoMemory, Place};
use gm_graph::Graph;
use gm_levels::{Levels, levels_from};
use gm_loops::{Around, Body, LoopNodes, Scope, Setting};
use gm_semantics::faults::Fault;
use std::alloc::Global;

// The levels of the search from a root.
fn found(alloc: Global, graph: &Graph, root: u32) -> Result<Levels, NoMemory>
    requires { HasNode graph.now root }
    ensures { IfOk result (AreLevels graph.now root) }
{
    levels_from(alloc, graph, root)
}

impl Phase {
    // The root of a search, or its fault.
    fn root(&self, setting: &Setting, key: Key, search: &Search) -> Result<u32, Fault>
        requires { Fits setting.now self.now.going.store }
        ensures root { result ≡ node_of (seen_by setting.now (state_of setting.now self.now) key) search.now.root search.now.place }
        ensures known { IfOk result (HasNode setting.now.graph.now) }
    {
        sight(setting, key).node_of(
            &Scope::Nothing,
            &self.going.store,
            search.root,
            search.place,
        )
    }

    // A turn of a search: the loop over the nodes of a level.
    fn level<'x>(
        &mut self,
        setting: &'x Setting<'x>,
        levels: &'x Levels,
        key: Key,
        iterator: u32,
        filter: &Expr,
        body: &'x Stmt,
        nodes: &'x [u32],
    ) -> Result<Course, NoMemory>
        requires rest { AtRest setting.now self.old.going }
        requires iterator { iterator < setting.now.variables }
        requires bound { bound_of (stmt_of body.now) ≤ setting.now.variables }
        requires known { AreNodes setting.now.graph.now nodes.now }
        requires filter_asked { Serve setting.now.in_rows.now (reads_outward (expr_of filter.now)) }
        requires body_asked { Serve setting.now.in_rows.now (goes_outward (stmt_of body.now)) }
        ensures { IfOk result (λ c. Runs setting.now self.old self.new c
            (loops (run_of setting.now) (level_in (Some levels.now)) iterator key (expr_of filter.now) (stmt_of body.now) nodes.now)) }
    {
        let around = Around {
            setting,
            levels: Some(levels),
            outer: iterator,
            body: Body::Statement(body),
        };
        self.loops(&around, key, filter, LoopNodes::Listed(nodes))
    }

    // The levels of a search in order, each a turn.
    fn upwards<'x>(
        &mut self,
        setting: &'x Setting<'x>,
        levels: &'x Levels,
        key: Key,
        iterator: u32,
        filter: &Expr,
        body: &'x Stmt,
    ) -> Result<Course, NoMemory>
        requires rest { AtRest setting.now self.old.going }
        requires iterator { iterator < setting.now.variables }
        requires bound { bound_of (stmt_of body.now) ≤ setting.now.variables }
        requires known { All (AreNodes setting.now.graph.now) levels.now.lists }
        requires filter_asked { Serve setting.now.in_rows.now (reads_outward (expr_of filter.now)) }
        requires body_asked { Serve setting.now.in_rows.now (goes_outward (stmt_of body.now)) }
        ensures { IfOk result (λ c. Runs setting.now self.old self.new c
            (in_turns (run_of setting.now) levels.now.lists
            (loops (run_of setting.now) (level_in (Some levels.now)) iterator key (expr_of filter.now) (stmt_of body.now)))) }
    {
        for k in 0..levels.count() {
            if !self.begin_turn(setting) {
                return Ok(Course::Stops);
            }
            match self.level(
                setting,
                levels,
                key,
                iterator,
                filter,
                body,
                levels.nodes(k),
            )? {
                Course::Goes => {}
                course => return Ok(course),
            }
        }
        Ok(Course::Goes)
    }

    // The levels of a search from the greatest one down, each a turn.
    fn downwards<'x>(
        &mut self,
        setting: &'x Setting<'x>,
        levels: &'x Levels,
        key: Key,
        iterator: u32,
        filter: &Expr,
        body: &'x Stmt,
    ) -> Result<Course, NoMemory>
        requires rest { AtRest setting.now self.old.going }
        requires iterator { iterator < setting.now.variables }
        requires bound { bound_of (stmt_of body.now) ≤ setting.now.variables }
        requires known { All (AreNodes setting.now.graph.now) levels.now.lists }
        requires filter_asked { Serve setting.now.in_rows.now (reads_outward (expr_of filter.now)) }
        requires body_asked { Serve setting.now.in_rows.now (goes_outward (stmt_of body.now)) }
        ensures { IfOk result (λ c. Runs setting.now self.old self.new c
            (in_turns (run_of setting.now) (reverse levels.now.lists)
            (loops (run_of setting.now) (level_in (Some levels.now)) iterator key (expr_of filter.now) (stmt_of body.now)))) }
    {
        let mut left = levels.count();
        while left > 0 {
            left -= 1;
            if !self.begin_turn(setting) {
                return Ok(Course::Stops);
            }
            match self.level(
                setting,
                levels,
                key,
                iterator,
                filter,
                body,
                levels.nodes(left),
            )? {
                Course::Goes => {}
                course => return Ok(course),
            }
        }
        Ok(Course::Goes)
    }

    // A search.
    pub fn search<'x>(
        &mut self,
        setting: &'x Setting<'x>,
        key: Key,
        place: Place,
        search: &Search,
        filter: &Expr,
        body: &'x Stmt,
    ) -> Result<Course, NoMemory>
        requires rest { AtRest setting.now self.old.going }
        requires iterator { search.now.iterator < setting.now.variables }
        requires bound { bound_of (stmt_of body.now) ≤ setting.now.variables }
        requires filter_asked { Serve setting.now.in_rows.now (reads_outward (expr_of filter.now)) }
        requires body_asked { Serve setting.now.in_rows.now (goes_outward (stmt_of body.now)) }
        ensures { IfOk result (λ c. Runs setting.now self.old self.new c
            (sequential (program.InBfs key place search.now (expr_of filter.now) (stmt_of body.now)) (run_of setting.now))) }
    {
        match self.root(setting, key, search) {
            Ok(root) => {
                let levels = found(self.going.alloc, setting.graph, root)?;
                self.upwards(setting, &levels, key, search.iterator, filter, body)
            }
            Err(fault) => Ok(Course::Faults(fault)),
        }
    }

    // The levels of a search in order, and then from the greatest one down.
    fn both_ways<'x>(
        &mut self,
        setting: &'x Setting<'x>,
        levels: &'x Levels,
        key: Key,
        iterator: u32,
        filter: &Expr,
        body: &'x Stmt,
        back_key: Key,
        back_filter: &Expr,
        back: &'x Stmt,
    ) -> Result<Course, NoMemory>
        requires rest { AtRest setting.now self.old.going }
        requires iterator { iterator < setting.now.variables }
        requires bound { bound_of (stmt_of body.now) ≤ setting.now.variables }
        requires back { bound_of (stmt_of back.now) ≤ setting.now.variables }
        requires known { All (AreNodes setting.now.graph.now) levels.now.lists }
        requires filter_asked { Serve setting.now.in_rows.now (reads_outward (expr_of filter.now)) }
        requires body_asked { Serve setting.now.in_rows.now (goes_outward (stmt_of body.now)) }
        requires back_filter_asked { Serve setting.now.in_rows.now (reads_outward (expr_of back_filter.now)) }
        requires back_asked { Serve setting.now.in_rows.now (goes_outward (stmt_of back.now)) }
        ensures { IfOk result (λ c. Runs setting.now self.old self.new c (λ s. then_do
            (in_turns (run_of setting.now) levels.now.lists
            (loops (run_of setting.now) (level_in (Some levels.now)) iterator key (expr_of filter.now) (stmt_of body.now)) s)
            (in_turns (run_of setting.now) (reverse levels.now.lists)
            (loops (run_of setting.now) (level_in (Some levels.now)) iterator back_key (expr_of back_filter.now) (stmt_of back.now))))) }
    {
        match self.upwards(setting, levels, key, iterator, filter, body)? {
            Course::Goes => self.downwards(setting, levels, back_key, iterator, back_filter, back),
            course => Ok(course),
        }
    }

    // A search with a part that goes back.
    pub fn search_both<'x>(
        &mut self,
        setting: &'x Setting<'x>,
        key: Key,
        place: Place,
        search: &Search,
        filter: &Expr,
        body: &'x Stmt,
        back_key: Key,
        back_filter: &Expr,
        back: &'x Stmt,
    ) -> Result<Course, NoMemory>
        requires rest { AtRest setting.now self.old.going }
        requires iterator { search.now.iterator < setting.now.variables }
        requires bound { bound_of (stmt_of body.now) ≤ setting.now.variables }
        requires back { bound_of (stmt_of back.now) ≤ setting.now.variables }
        requires filter_asked { Serve setting.now.in_rows.now (reads_outward (expr_of filter.now)) }
        requires body_asked { Serve setting.now.in_rows.now (goes_outward (stmt_of body.now)) }
        requires back_filter_asked { Serve setting.now.in_rows.now (reads_outward (expr_of back_filter.now)) }
        requires back_asked { Serve setting.now.in_rows.now (goes_outward (stmt_of back.now)) }
        ensures { IfOk result (λ c. Runs setting.now self.old self.new c
            (sequential (program.InBfsBoth key place search.now (expr_of filter.now) (stmt_of body.now) back_key (expr_of back_filter.now) (stmt_of back.now)) (run_of setting.now))) }
    {
        match self.root(setting, key, search) {
            Ok(root) => {
                let levels = found(self.going.alloc, setting.graph, root)?;
                self.both_ways(
                    setting,
                    &levels,
                    key,
                    search.iterator,
                    filter,
                    body,
                    back_key,
                    back_filter,
                    back,
                )
            }
            Err(fault) => Ok(Course::Faults(fault)),
        }
    }
}
