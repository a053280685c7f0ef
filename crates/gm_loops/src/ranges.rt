//! The steps of loops and reductions.

ghost use Rattle.std.specs.Prelude.{◌≡◌, ◌<◌, ◌≤◌, ◌+◌, false, Some, IfSome, OnOk, length, map, slice_get};
ghost use Rattle.gm_model.specs.Graphs.{in_steps, node_count};
ghost use Rattle.gm_semantics.specs.Levels.{is_next};
ghost use Rattle.gm_semantics.specs.Expressions.{View, steps_of, steps_in};
ghost use Rattle.gm_loops.specs.Sights.{levels_of, view_of, Fits};
ghost use Rattle.gm_loops.specs.Ranges.{all_steps, levels_by, step_of, steps_along, steps_at, takes, with_hop, HasStart};
ghost use Rattle.gm_graph.specs.Serving.{AreRowsOf, Serve};
ghost use Rattle.gm_loops.specs.Asking.{runs_outward};

use crate::scopes::Scope;
use crate::sights::Sight;
use gm_ast::tree::{Domain, Head};
use gm_base::NoMemory;
use gm_graph::{Graph, InRows};
use gm_levels::Levels;
use gm_store::Store;

// The edges of a range: none, one to each node, those from a node, or those to a node, with the rows of such edges.
#[derive(Clone, Copy)]
pub(crate) enum Edges<'a> {
    NoStep,
    AllNodes,
    From(u32),
    To(&'a InRows<'a>, u32),
}

// Which of the edges are steps: all, those from a level to the next that is this one, or those from this level to the
// next.
#[derive(Clone, Copy)]
pub(crate) enum Course {
    Any,
    Above(Option<u32>),
    Below(Option<u32>),
}

// A node, and the row of the edge that leads to it, if one does.
#[derive(Clone, Copy)]
pub(crate) struct Hop {
    pub node: u32,
    pub row: Option<u32>,
}

// The steps of a loop or a reduction.
#[derive(Clone, Copy)]
pub(crate) struct Range<'a> {
    pub graph: &'a Graph,
    pub levels: Option<&'a Levels>,
    pub edges: Edges<'a>,
    pub course: Course,
}

impl Range<'_> {
    // How many edges there are.
    pub fn count(&self) -> u32
        requires { HasStart self.now.graph.now self.now.edges }
        ensures count { result ≡ length (all_steps self.now) }
        ensures few { result ≤ 2147483647 }
    {
        match self.edges {
            Edges::NoStep => 0,
            Edges::AllNodes => self.graph.node_count(),
            Edges::From(node) => self.graph.out_degree(node),
            Edges::To(rows, node) => rows.degree(node),
        }
    }

    // The k-th edge, with the node to which it leads.
    #[inline(always)]
    fn hop(&self, k: u32) -> Hop
        requires start { HasStart self.now.graph.now self.now.edges }
        requires within { k < length (all_steps self.now) }
        ensures step { slice_get (all_steps self.now) k ≡ Some (step_of self.now.graph.now result) }
        ensures known { result.node < node_count self.now.graph.now }
    {
        match self.edges {
            Edges::NoStep => unreachable!(),
            Edges::AllNodes => Hop { node: k, row: None },
            Edges::From(node) => Hop {
                node: self.graph.out_target(node, k),
                row: Some(self.graph.out_row(node, k)),
            },
            Edges::To(rows, node) => Hop {
                node: rows.source(node, k),
                row: Some(rows.row(node, k)),
            },
        }
    }

    // The level of a node.
    fn level(&self, node: u32) -> Option<u32>
        ensures { result ≡ levels_by self.now node }
    {
        match self.levels {
            Some(found) => found.level(node),
            None => None,
        }
    }

    // Whether the course takes a step to a node.
    #[inline(always)]
    fn takes(&self, node: u32) -> bool
        ensures { result ≡ takes (levels_by self.now) self.now.course node }
    {
        match self.course {
            Course::Any => true,
            Course::Above(level) => is_next(self.level(node), level),
            Course::Below(level) => is_next(level, self.level(node)),
        }
    }

    // The k-th edge, if the course takes it.
    #[inline(always)]
    pub fn at(&self, k: u32) -> Option<Hop>
        requires start { HasStart self.now.graph.now self.now.edges }
        requires within { k < length (all_steps self.now) }
        ensures step { steps_at self.now k ≡ with_hop self.now.graph.now result (steps_at self.now (k + 1)) }
        ensures known { IfSome result (λ hop. hop.node < node_count self.now.graph.now) }
    {
        let hop = self.hop(k);
        if self.takes(hop.node) {
            Some(hop)
        } else {
            None
        }
    }

    // All steps in their order, in place of what a list had.
    pub fn gather(&self, hops: &mut Vec<Hop>) -> Result<(), NoMemory>
        requires { HasStart self.now.graph.now self.now.edges }
        ensures { OnOk result (map (step_of self.now.graph.now) hops.new.items ≡ steps_at self.now 0) }
    {
        let count = self.count();
        hops.clear();
        hops.reserve(count as usize)?;
        for k in 0..count {
            if let Some(hop) = self.at(k) {
                hops.push_reserved(hop);
            }
        }
        Ok(())
    }
}

// Whether the second level is one farther than the first.
fn is_next(a: Option<u32>, b: Option<u32>) -> bool
    ensures { result ≡ is_next a b }
{
    match (a, b) {
        (Some(j), Some(k)) => j < u32::MAX && j + 1 == k,
        _ => false,
    }
}

impl Sight<'_> {
    // The steps of a loop or a reduction.
    pub(crate) fn range(&self, scope: &Scope, store: &Store, head: &Head) -> Range<'_>
        requires fits { Fits self.now.setting.now store.now }
        requires asked { Serve self.now.setting.now.in_rows.now (runs_outward head.now.domain) }
        ensures steps { steps_at result 0 ≡ steps_in (view_of self.now scope.now store.now) head.now }
        ensures start { HasStart self.now.setting.now.graph.now result.edges }
        ensures graph { result.graph.now ≡ self.now.setting.now.graph.now }
    {
        let owner = self
            .setting
            .node_in(self.setting.scalar(scope, store, head.owner));
        self.range_from(head.domain, owner)
    }

    // The steps from a node.
    fn range_from(&self, domain: Domain, owner: Option<u32>) -> Range<'_>
        requires owner { IfSome owner (λ n. n < node_count self.now.setting.now.graph.now) }
        requires rows { AreRowsOf self.now.setting.now.graph.now self.now.setting.now.in_rows.now }
        requires asked { Serve self.now.setting.now.in_rows.now (runs_outward domain) }
        ensures steps { (w : View) → w.graph ≡ self.now.setting.now.graph.now → w.levels ≡ levels_of self.now
            → steps_at result 0 ≡ steps_of w domain owner }
        ensures start { HasStart self.now.setting.now.graph.now result.edges }
        ensures graph { result.graph.now ≡ self.now.setting.now.graph.now }
    {
        let (edges, course) = match (domain, owner) {
            (Domain::Nodes, _) => (Edges::AllNodes, Course::Any),
            (_, None) => (Edges::NoStep, Course::Any),
            (Domain::OutNbrs, Some(node)) => (Edges::From(node), Course::Any),
            (Domain::InNbrs, Some(node)) => (self.edges_to(node), Course::Any),
            (Domain::UpNbrs, Some(node)) => (self.edges_to(node), Course::Above(self.level(node))),
            (Domain::DownNbrs, Some(node)) => (Edges::From(node), Course::Below(self.level(node))),
        };
        Range {
            graph: self.setting.graph,
            levels: self.levels,
            edges,
            course,
        }
    }

    // The edges to a node.
    fn edges_to(&self, node: u32) -> Edges<'_>
        requires node { node < node_count self.now.setting.now.graph.now }
        requires rows { AreRowsOf self.now.setting.now.graph.now self.now.setting.now.in_rows.now }
        requires asked { Serve self.now.setting.now.in_rows.now false }
        ensures steps { steps_along self.now.setting.now.graph.now result ≡ in_steps self.now.setting.now.graph.now node }
        ensures start { HasStart self.now.setting.now.graph.now result }
    {
        match self.setting.in_rows {
            Some(rows) => Edges::To(rows, node),
            None => unreachable!(),
        }
    }

    // The level of a node.
    fn level(&self, node: u32) -> Option<u32>
        ensures { result ≡ levels_of self.now node }
    {
        match self.levels {
            Some(found) => found.level(node),
            None => None,
        }
    }
}
