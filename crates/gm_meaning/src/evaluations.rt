//! Whole runs of a program.

ghost use Rattle.std.specs.Prelude.{◌≡◌, IfOk};
ghost use Rattle.gm_ast.specs.Tree.{program_of};
ghost use Rattle.gm_graph.specs.Serving.{AreRowsOf, Serve};
ghost use Rattle.gm_loops.specs.Asking.{goes_outward};
ghost use Rattle.gm_semantics.specs.Outcomes.{mean};

use crate::first_stores::{edge_columns, first_store, variable_count};
use crate::outcomes::outcome;
use crate::phases::Phase;
use gm_ast::forms::{Checked, Work};
use gm_ast::tree::Tree;
use gm_base::NoMemory;
use gm_graph::{Graph, InRows};
use gm_loops::{Going, Setting, goes_outward};
use gm_model::Outcome;
use gm_value::Value;
use std::alloc::Global;

/// The work on a checked program: its tree as it is. It takes no memory.
pub fn work_of(program: Checked) -> Work
    ensures { result ≡ program }
{
    Work::new(program.into_tree())
}

// The rows of the edges that lead to nodes, if a program asks for them.
fn rows_for<'a>(
    alloc: Global,
    tree: &Tree,
    graph: &'a Graph,
) -> Result<Option<InRows<'a>>, NoMemory>
    ensures same { IfOk result (AreRowsOf graph.now) }
    ensures asked { IfOk result (λ rows. Serve rows (goes_outward (program_of tree.now).body)) }
{
    if goes_outward(&tree.body) {
        Ok(None)
    } else {
        Ok(Some(graph.in_rows(alloc)?))
    }
}

// The outcome of a program on a graph, with the rows of the edges that lead to nodes, if the program asks for them.
fn evaluate_tree(
    alloc: Global,
    tree: &Tree,
    graph: &Graph,
    in_rows: &Option<InRows>,
    args: &[Value],
    turns: u64,
) -> Result<Outcome, NoMemory>
    requires rows { AreRowsOf graph.now in_rows.now }
    requires asked { Serve in_rows.now (goes_outward (program_of tree.now).body) }
    ensures { IfOk result (λ outcome. outcome ≡ mean (program_of tree.now) graph.now args.now turns) }
{
    let variables = variable_count(tree)?;
    let edges = edge_columns(alloc, tree, graph, variables)?;
    let store = first_store(alloc, tree, graph, args, variables)?;
    let setting = Setting {
        graph,
        in_rows,
        declarations: tree.declarations.as_slice(),
        edges: edges.as_slice(),
        variables: variables as usize,
        bound: turns,
    };
    let mut phase = Phase {
        going: Going::new(alloc, store),
        turns: 0,
    };
    let course = phase.statement(&setting, &tree.body)?;
    outcome(alloc, tree, &setting, &phase, course, variables)
}

/// The outcome of a program on a graph: what it means, whatever the program, the graph, the arguments and the bound are.
/// The arguments are the values of the scalar inputs, in the order of their declaration. The bound is how many turns
/// may begin; a program that would begin one more is cut.
pub fn evaluate(
    alloc: Global,
    program: &Work,
    graph: &Graph,
    args: &[Value],
    turns: u64,
) -> Result<Outcome, NoMemory>
    ensures { IfOk result (λ outcome. outcome ≡ mean (program_of program.now) graph.now args.now turns) }
{
    let tree = program.tree();
    let in_rows = rows_for(alloc, tree, graph)?;
    evaluate_tree(alloc, tree, graph, &in_rows, args, turns)
}
