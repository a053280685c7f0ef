//! The values with which a run begins: inputs from the arguments and the graph's columns, and else first values.

ghost use Rattle.std.specs.Prelude.{◌≡◌, ◌<◌, ◌≤◌, ◌+◌, ℕ, [], nat_eq, IfOk, OnOk, length, slice_index_or, if◌then◌else◌};
ghost use Rattle.gm_model.specs.Graphs.{node_count};
ghost use Rattle.gm_ast.specs.Tree.{program_of};
ghost use Rattle.gm_ast.specs.declared.tree.Sort.TheVariants as sorts;
ghost use Rattle.gm_semantics.specs.Outcomes.{is_of, count_before, input_value, column_value, first_store};
ghost use Rattle.gm_semantics.specs.Statements.{variable_at};
ghost use Rattle.gm_store.specs.Held.{node_of, shape_of, store_of};
ghost use Rattle.gm_loops.specs.Sights.{edges_of};
ghost use Rattle.gm_meaning.specs.Inputs.{first_scalars, first_columns, edge_column, IsRoomFor};

use gm_ast::tree::{Sort, Tree, Variable};
use gm_base::NoMemory;
use gm_graph::Graph;
use gm_loops::{EdgeColumn, bound_of};
use gm_semantics::slots::Slot;
use gm_store::Store;
use gm_value::{VType, Value};
use std::alloc::Global;

// How many variables a run has room for: all that are declared, are inputs or outputs, or are written.
pub(crate) fn variable_count(tree: &Tree) -> Result<u32, NoMemory>
    ensures { IfOk result (IsRoomFor (program_of tree.now)) }
{
    let passed = tree.inputs as usize + tree.outputs as usize;
    let named = usize::max(tree.declarations.len(), bound_of(&tree.body));
    match u32::try_from(usize::max(passed, named)) {
        Ok(count) => Ok(count),
        Err(_) => Err(NoMemory),
    }
}

// The variable of an index.
pub(crate) fn variable_at(tree: &Tree, x: u32) -> Variable
    ensures { result ≡ variable_at tree.now.declarations.items x }
{
    match tree.declarations.get(x as usize) {
        Some(declaration) => declaration.variable,
        None => Variable {
            sort: Sort::Scalar,
            vtype: VType::I32,
            depth: 0,
        },
    }
}

// Whether a variable is of a sort.
pub(crate) fn is_of(tree: &Tree, sort: Sort, x: u32) -> bool
    ensures { result ≡ is_of tree.now.declarations.items sort x }
{
    sort == variable_at(tree, x).sort
}

// How many variables of a sort are declared up to one, from how many are before it.
fn counted(tree: &Tree, sort: Sort, x: u32, before: u32) -> u32
    requires within { x < 4294967295 }
    requires before { before ≡ count_before tree.now.declarations.items sort x }
    ensures { result ≡ count_before tree.now.declarations.items sort (x + 1) }
{
    if is_of(tree, sort, x) {
        before + 1
    } else {
        before
    }
}

// The first value of a scalar, of which so many are declared before.
fn first_scalar(tree: &Tree, args: &[Value], x: u32, passed: u32) -> Value
    requires { passed ≡ count_before tree.now.declarations.items sorts.Scalar x }
    ensures { result ≡ input_value (program_of tree.now) sorts.Scalar args.now x }
{
    let first = variable_at(tree, x).vtype.zero();
    if x < tree.inputs {
        match args.get(passed as usize) {
            Some(value) => *value,
            None => first,
        }
    } else {
        first
    }
}

// Adds all scalars with their first values.
fn add_scalars(
    store: &mut Store,
    tree: &Tree,
    args: &[Value],
    variables: u32,
) -> Result<(), NoMemory>
    requires { store.old.scalars ≡ [] }
    ensures { OnOk result (store.new ≡ record store.old { scalars = first_scalars (program_of tree.now) args.now variables }) }
{
    let mut passed = 0;
    for x in 0..variables {
        store.add_scalar(first_scalar(tree, args, x, passed))?;
        passed = counted(tree, Sort::Scalar, x, passed);
    }
    Ok(())
}

// Gives a property the values of the graph's node column of an index, if there is one.
fn fill_from(store: &mut Store, graph: &Graph, x: u32, column: u32) -> Result<(), NoMemory>
    requires property { x < length store.old.rows }
    requires nodes { store.old.nodes ≡ node_count graph.now }
    ensures values { OnOk result ((p n : ℕ) → node_of store.new p n ≡
        (if nat_eq x p then slice_index_or (slice_index_or graph.now.node_columns column []) n (node_of store.old p n) else node_of store.old p n)) }
    ensures shape { OnOk result (shape_of store.new ≡ shape_of store.old) }
    ensures undo { OnOk result (store.new.undo ≡ store.old.undo) }
{
    if (column as usize) < graph.node_column_count() {
        for node in 0..graph.node_count() {
            let value = graph.start_value(node, column);
            store.set(Slot::Node { property: x, node }, value)?;
        }
    }
    Ok(())
}

// Adds the property of a variable, with its first values.
fn add_row(
    store: &mut Store,
    tree: &Tree,
    graph: &Graph,
    x: u32,
    passed: u32,
) -> Result<(), NoMemory>
    requires rows { length store.old.rows ≡ x }
    requires nodes { store.old.nodes ≡ node_count graph.now }
    requires passed { passed ≡ count_before tree.now.declarations.items sorts.NodeProperty x }
    ensures values { OnOk result ((p n : ℕ) → node_of store.new p n ≡
        (if nat_eq x p then column_value (program_of tree.now) sorts.NodeProperty graph.now.node_columns x n else node_of store.old p n)) }
    ensures shape { OnOk result (shape_of store.new ≡ record (shape_of store.old) { rows = x + 1 }) }
    ensures undo { OnOk result (store.new.undo ≡ store.old.undo) }
{
    store.add_row(variable_at(tree, x).vtype.zero())?;
    if x < tree.inputs {
        fill_from(store, graph, x, passed)?;
    }
    Ok(())
}

// Adds all properties with their first values.
fn add_rows(store: &mut Store, tree: &Tree, graph: &Graph, variables: u32) -> Result<(), NoMemory>
    requires rows { store.old.rows ≡ [] }
    requires nodes { store.old.nodes ≡ node_count graph.now }
    ensures values { OnOk result ((p n : ℕ) → p < variables → node_of store.new p n ≡ column_value (program_of tree.now) sorts.NodeProperty graph.now.node_columns p n) }
    ensures shape { OnOk result (shape_of store.new ≡ record (shape_of store.old) { rows = variables }) }
    ensures undo { OnOk result (store.new.undo ≡ store.old.undo) }
{
    let mut passed = 0;
    for x in 0..variables {
        add_row(store, tree, graph, x, passed)?;
        passed = counted(tree, Sort::NodeProperty, x, passed);
    }
    Ok(())
}

// The store with which a run begins, with room for so many variables.
pub(crate) fn first_store(
    alloc: Global,
    tree: &Tree,
    graph: &Graph,
    args: &[Value],
    variables: u32,
) -> Result<Store, NoMemory>
    requires { IsRoomFor (program_of tree.now) variables }
    ensures store { IfOk result (λ store. store_of (edges_of graph.now (first_columns (program_of tree.now) graph.now variables)) store ≡ first_store (program_of tree.now) graph.now args.now) }
    ensures shape { IfOk result (λ store. shape_of store ≡ record { scalars = variables; rows = variables; nodes = node_count graph.now }) }
    ensures undo { IfOk result (λ store. store.undo ≡ []) }
{
    let mut store = Store::new(alloc, graph.node_count());
    add_rows(&mut store, tree, graph, variables)?;
    add_scalars(&mut store, tree, args, variables)?;
    Ok(store)
}

// The column of an edge property, of which so many are declared before, if it is an input that has one.
fn column_of(tree: &Tree, graph: &Graph, x: u32, passed: u32) -> EdgeColumn
    requires { passed ≡ count_before tree.now.declarations.items sorts.EdgeProperty x }
    ensures { result ≡ edge_column (program_of tree.now) graph.now x }
{
    let given = x < tree.inputs && (passed as usize) < graph.edge_column_count();
    EdgeColumn {
        column: if given { Some(passed) } else { None },
        first: variable_at(tree, x).vtype.zero(),
    }
}

// The columns of all edge properties.
pub(crate) fn edge_columns(
    alloc: Global,
    tree: &Tree,
    graph: &Graph,
    variables: u32,
) -> Result<Vec<EdgeColumn>, NoMemory>
    ensures { IfOk result (λ columns. columns.items ≡ first_columns (program_of tree.now) graph.now variables) }
{
    let mut columns = Vec::new(alloc);
    let mut passed = 0;
    for x in 0..variables {
        columns.push(column_of(tree, graph, x, passed))?;
        passed = counted(tree, Sort::EdgeProperty, x, passed);
    }
    Ok(columns)
}
