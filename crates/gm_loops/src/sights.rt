//! What expressions and statements see.

ghost use Rattle.std.specs.Prelude.{◌≡◌, ◌<◌, true, IfOk, slice_index_or};
ghost use Rattle.gm_value.specs.declared.values.Value.TheVariants.{At};
ghost use Rattle.gm_model.specs.Graphs.{node_count};
ghost use Rattle.gm_graph.specs.Walks.{edge_at};
ghost use Rattle.gm_semantics.specs.Levels.{node_in};
ghost use Rattle.gm_semantics.specs.Expressions.{View, node_of, at_node, degree_of};
ghost use Rattle.gm_store.specs.Held.{scalar_of, node_of as held_node};
ghost use Rattle.gm_loops.specs.Scopes.{scalar_in};
ghost use Rattle.gm_loops.specs.Sights.{edges_in, values_in, view_of, Fits};
ghost use Rattle.gm_graph.specs.Serving.{AreRowsOf, Serve};
ghost use Rattle.gm_loops.specs.Asking.{counts_outward};

use crate::parts::Answer;
use crate::scopes::Scope;
use gm_ast::tree::{Declaration, Direction, Key};
use gm_base::Place;
use gm_graph::{Graph, InRows};
use gm_levels::Levels;
use gm_semantics::faults::Fault;
use gm_store::Store;
use gm_value::{FaultKind, Value};

/// Where the values of an edge property stand: in a column of the graph, if it is an input that has one, and else
/// each edge has the first value of its type.
#[derive(Clone, Copy)]
pub struct EdgeColumn {
    pub column: Option<u32>,
    pub first: Value,
}

/// What stays the same over a run: the graph, the rows of the edges that lead to nodes, where the program asks for them, the
/// declarations, the columns of edge properties by variable, how many scalars and rows the store has, and the bound on
/// turns.
#[derive(Clone, Copy)]
pub struct Setting<'a> {
    pub graph: &'a Graph,
    pub in_rows: &'a Option<InRows<'a>>,
    pub declarations: &'a [Declaration],
    pub edges: &'a [EdgeColumn],
    pub variables: usize,
    pub bound: u64,
}

/// What an expression sees beside the store: the levels of the search around it, whether it is parallel code, the
/// row of the edge of the inner loop around it, and the key of its operators' faults.
#[derive(Clone, Copy)]
pub struct Sight<'a> {
    pub setting: &'a Setting<'a>,
    pub levels: Option<&'a Levels>,
    pub parallel: bool,
    pub row: Option<u32>,
    pub key: Key,
}

// The value of an edge property at an edge, by its row.
#[inline(always)]
fn edge_value(graph: &Graph, column: &EdgeColumn, row: Option<u32>) -> Value
    ensures { result ≡ slice_index_or (values_in graph.now column.now.column) (edge_at graph.now row) column.now.first }
{
    match column.column {
        Some(index) => graph.value_in(row, index).unwrap_or(column.first),
        None => column.first,
    }
}

// How many edges lead from a node, or to it.
#[inline(always)]
pub(crate) fn degree_of(setting: &Setting, direction: Direction, node: u32) -> Value
    requires node { node < node_count setting.now.graph.now }
    requires rows { AreRowsOf setting.now.graph.now setting.now.in_rows.now }
    requires asked { Serve setting.now.in_rows.now (counts_outward direction) }
    ensures { (w : View) → w.graph ≡ setting.now.graph.now → result ≡ degree_of w direction node }
{
    match direction {
        Direction::Out => Value::I32(setting.graph.out_degree(node) as i32),
        Direction::In => match setting.in_rows {
            Some(rows) => Value::I32(rows.degree(node) as i32),
            None => unreachable!(),
        },
    }
}

impl Setting<'_> {
    // The value of a scalar.
    #[inline(always)]
    fn held_scalar(&self, store: &Store, x: u32) -> Value
        requires { Fits self.now store.now }
        ensures { result ≡ scalar_of store.now x }
    {
        if (x as usize) < self.variables {
            store.scalar(x)
        } else {
            Value::I32(0)
        }
    }

    // The value of a scalar inside reductions.
    pub fn scalar(&self, scope: &Scope, store: &Store, x: u32) -> Value
        requires { Fits self.now store.now }
        ensures { result ≡ scalar_in scope.now (scalar_of store.now) x }
    {
        match *scope {
            Scope::Nothing => self.held_scalar(store, x),
            Scope::Bound {
                iterator,
                node,
                outer,
            } => {
                if iterator == x {
                    Value::At(Some(node))
                } else {
                    self.scalar(outer, store, x)
                }
            }
        }
    }

    // The value of a property at a node.
    #[inline(always)]
    pub fn property(&self, store: &Store, property: u32, node: u32) -> Value
        requires fits { Fits self.now store.now }
        requires node { node < node_count self.now.graph.now }
        ensures { result ≡ held_node store.now property node }
    {
        if (property as usize) < self.variables {
            store.node(property, node)
        } else {
            Value::I32(0)
        }
    }

    // The value of an edge property at an edge, by its row.
    #[inline(always)]
    pub fn edge_property(&self, property: u32, row: Option<u32>) -> Value
        ensures { result ≡ edges_in self.now property (edge_at self.now.graph.now row) }
    {
        match self.edges.get(property as usize) {
            Some(column) => edge_value(self.graph, column, row),
            None => Value::I32(0),
        }
    }

    // The node of the graph that a value is, if it is one.
    #[inline(always)]
    pub fn node_in(&self, value: Value) -> Option<u32>
        ensures { result ≡ node_in self.now.graph.now value }
    {
        match value {
            Value::At(Some(node)) => {
                if node < self.graph.node_count() {
                    Some(node)
                } else {
                    None
                }
            }
            _ => None,
        }
    }
}

impl Sight<'_> {
    // The property of the node that a variable holds.
    pub fn property(
        &self,
        scope: &Scope,
        store: &Store,
        x: u32,
        property: u32,
        place: Place,
    ) -> Answer
        requires { Fits self.now.setting.now store.now }
        ensures { result ≡ at_node (view_of self.now scope.now store.now) x place (held_node store.now property) }
    {
        match self.node_of(scope, store, x, place) {
            Ok(node) => Ok(self.setting.property(store, property, node)),
            Err(fault) => Err(fault),
        }
    }

    // The degree of the node that a variable holds.
    pub fn degree(
        &self,
        scope: &Scope,
        store: &Store,
        direction: Direction,
        x: u32,
        place: Place,
    ) -> Answer
        requires fits { Fits self.now.setting.now store.now }
        requires asked { Serve self.now.setting.now.in_rows.now (counts_outward direction) }
        ensures { let w = view_of self.now scope.now store.now in result ≡ at_node w x place (degree_of w direction) }
    {
        match self.node_of(scope, store, x, place) {
            Ok(node) => Ok(degree_of(self.setting, direction, node)),
            Err(fault) => Err(fault),
        }
    }

    // The node that a variable holds, as a value.
    pub fn live(&self, scope: &Scope, store: &Store, x: u32, place: Place) -> Answer
        requires { Fits self.now.setting.now store.now }
        ensures { result ≡ at_node (view_of self.now scope.now store.now) x place (λ n. At (Some n)) }
    {
        match self.node_of(scope, store, x, place) {
            Ok(node) => Ok(Value::At(Some(node))),
            Err(fault) => Err(fault),
        }
    }

    // What the filter or the braces of a reduction see.
    #[inline(always)]
    pub fn entered(&self, key: Key) -> Self
        ensures { result ≡ record self.now { parallel = true; key = key } }
    {
        Sight {
            parallel: true,
            key,
            ..*self
        }
    }
    // The node that a variable holds, or NilNode at the variable's place.
    pub fn node_of(&self, scope: &Scope, store: &Store, x: u32, place: Place) -> Result<u32, Fault>
        requires { Fits self.now.setting.now store.now }
        ensures node { result ≡ node_of (view_of self.now scope.now store.now) x place }
        ensures known { IfOk result (λ n. n < node_count self.now.setting.now.graph.now) }
    {
        match self.setting.node_in(self.setting.scalar(scope, store, x)) {
            Some(node) => Ok(node),
            None => Err(Fault {
                kind: FaultKind::NilNode,
                shown: place,
                key: self.key,
                place,
            }),
        }
    }
}
