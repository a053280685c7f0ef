//! The outcome of a run.

ghost use Rattle.std.specs.Prelude.{◌≡◌, ◌<◌, ◌≤◌, ◌+◌, IsTrue, IfOk, IfSome, length, map};
ghost use Rattle.gm_columns.specs.Columns.{CanHold, IsStorable};
ghost use Rattle.gm_model.specs.Graphs.{node_count};
ghost use Rattle.gm_ast.specs.Tree.{program_of};
ghost use Rattle.gm_ast.specs.declared.tree.Sort.TheVariants as sorts;
ghost use Rattle.gm_semantics.specs.Levels.{nodes};
ghost use Rattle.gm_semantics.specs.Outcomes.{outputs_of, result_of, done, outcome_of};
ghost use Rattle.gm_store.specs.Held.{scalar_of, node_of};
ghost use Rattle.gm_loops.specs.Sights.{Fits};
ghost use Rattle.gm_meaning.specs.Ends.{values_below};
ghost use Rattle.gm_meaning.specs.Phases.{course_of, state_of};

use crate::first_stores::{is_of, variable_at};
use crate::phases::{Course, Phase};
use gm_ast::tree::{Sort, Tree};
use gm_base::{Items, NoMemory};
use gm_columns::{Column, Values};
use gm_graph::Graph;
use gm_loops::Setting;
use gm_model::Outcome;
use gm_store::Store;
use gm_value::{VType, Value};
use std::alloc::Global;

// Whether a value has a place in a row of its type.
fn is_storable(value: Value) -> bool
    ensures { IsTrue result → IsStorable value }
{
    match value {
        Value::At(Some(node)) => node < u32::MAX,
        _ => true,
    }
}

// Whether a value is one that a column of a type can hold.
fn can_hold(vtype: VType, value: Value) -> bool
    ensures { IsTrue result → CanHold vtype value }
{
    value.type_of() == vtype && is_storable(value)
}

// The values of a property at all nodes in a column of a type, if it can hold them all.
fn typed_values(
    alloc: Global,
    store: &Store,
    x: u32,
    nodes: u32,
    vtype: VType,
) -> Result<Option<Column>, NoMemory>
    requires property { x < length store.now.rows }
    requires nodes { nodes ≡ store.now.nodes }
    ensures { IfOk result (λ found. IfSome found (λ column. column.values ≡ values_below store.now x nodes)) }
{
    let mut column = Column::new(alloc, vtype);
    for node in 0..nodes {
        let value = store.node(x, node);
        if !can_hold(vtype, value) {
            return Ok(None);
        }
        column.push(value)?;
    }
    Ok(Some(column))
}

// The values of a property at all nodes, one by one.
fn mixed_values(alloc: Global, store: &Store, x: u32, nodes: u32) -> Result<Vec<Value>, NoMemory>
    requires property { x < length store.now.rows }
    requires nodes { nodes ≡ store.now.nodes }
    ensures { IfOk result (λ values. values.items ≡ values_below store.now x nodes) }
{
    let mut values = Vec::new(alloc);
    for node in 0..nodes {
        values.push(store.node(x, node))?;
    }
    Ok(values)
}

// The values of a property at all nodes, in a column of its type where that can hold them all.
fn values_of(
    alloc: Global,
    store: &Store,
    x: u32,
    nodes: u32,
    vtype: VType,
) -> Result<Values, NoMemory>
    requires property { x < length store.now.rows }
    requires nodes { nodes ≡ store.now.nodes }
    ensures { IfOk result (λ values. values ≡ values_below store.now x nodes) }
{
    match typed_values(alloc, store, x, nodes, vtype)? {
        Some(column) => Ok(Values::new(column)),
        None => Ok(Values::of_any_type(mixed_values(alloc, store, x, nodes)?)),
    }
}

// The values of the scalar outputs, in the order of their declarations.
fn scalar_outputs(
    alloc: Global,
    tree: &Tree,
    store: &Store,
    variables: u32,
) -> Result<Vec<Value>, NoMemory>
    requires outputs { tree.now.inputs + tree.now.outputs ≤ variables }
    requires scalars { length store.now.scalars ≡ variables }
    ensures { IfOk result (λ values. values.items ≡ map (scalar_of store.now) (outputs_of (program_of tree.now) sorts.Scalar)) }
{
    let mut values = Vec::new(alloc);
    for x in tree.inputs..tree.inputs + tree.outputs {
        if is_of(tree, Sort::Scalar, x) {
            values.push(store.scalar(x))?;
        }
    }
    Ok(values)
}

// The values of the output properties, in the order of their declarations.
fn property_outputs(
    alloc: Global,
    tree: &Tree,
    graph: &Graph,
    store: &Store,
    variables: u32,
) -> Result<Vec<Values>, NoMemory>
    requires outputs { tree.now.inputs + tree.now.outputs ≤ variables }
    requires rows { length store.now.rows ≡ variables }
    requires nodes { store.now.nodes ≡ node_count graph.now }
    ensures { IfOk result (λ lists. lists.items ≡ map (λ x. map (node_of store.now x) (nodes graph.now)) (outputs_of (program_of tree.now) sorts.NodeProperty)) }
{
    let mut lists = Vec::new(alloc);
    for x in tree.inputs..tree.inputs + tree.outputs {
        if is_of(tree, Sort::NodeProperty, x) {
            let vtype = variable_at(tree, x).vtype;
            lists.push(values_of(alloc, store, x, graph.node_count(), vtype)?)?;
        }
    }
    Ok(lists)
}

// What is returned: without a value the first value of the result's type.
fn result_of(vtype: Option<VType>, value: Option<Value>) -> Option<Value>
    ensures { result ≡ result_of vtype value }
{
    match (value, vtype) {
        (Some(value), _) => Some(value),
        (None, Some(vtype)) => Some(vtype.zero()),
        (None, None) => None,
    }
}

// The outcome of a run to its end.
fn done(
    alloc: Global,
    tree: &Tree,
    setting: &Setting,
    phase: &Phase,
    value: Option<Value>,
    variables: u32,
) -> Result<Outcome, NoMemory>
    requires outputs { tree.now.inputs + tree.now.outputs ≤ variables }
    requires fits { Fits setting.now phase.now.going.store }
    requires variables { setting.now.variables ≡ variables }
    ensures { IfOk result (λ outcome. outcome ≡ done (program_of tree.now) setting.now.graph.now value (state_of setting.now phase.now)) }
{
    let store = &phase.going.store;
    let scalars = scalar_outputs(alloc, tree, store, variables)?;
    let nodes = property_outputs(alloc, tree, setting.graph, store, variables)?;
    Ok(Outcome::Done {
        scalars: Items::new(scalars),
        result: result_of(tree.result, value),
        nodes: Items::new(nodes),
        turns: phase.turns,
    })
}

// The outcome of a run whose body led to a course.
pub(crate) fn outcome(
    alloc: Global,
    tree: &Tree,
    setting: &Setting,
    phase: &Phase,
    course: Course,
    variables: u32,
) -> Result<Outcome, NoMemory>
    requires outputs { tree.now.inputs + tree.now.outputs ≤ variables }
    requires fits { Fits setting.now phase.now.going.store }
    requires variables { setting.now.variables ≡ variables }
    ensures { IfOk result (λ outcome. outcome ≡ outcome_of (program_of tree.now) setting.now.graph.now setting.now.bound (course_of course (state_of setting.now phase.now))) }
{
    match course {
        Course::Goes => done(alloc, tree, setting, phase, None, variables),
        Course::Returns(value) => done(alloc, tree, setting, phase, value, variables),
        Course::Faults(fault) => Ok(Outcome::Fault {
            kind: fault.kind,
            place: fault.shown,
        }),
        Course::Stops => Ok(Outcome::Cut {
            turns: setting.bound,
        }),
    }
}
