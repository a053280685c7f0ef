//! Loops that give a property its values at all nodes at once.

ghost use Rattle.std.specs.Prelude.{◌≡◌, ◌<◌, ◌≤◌, false, IsTrue, IfOk, IfSome, Ok};
ghost use Rattle.gm_ast.specs.Tree.{expr_of};
ghost use Rattle.gm_ast.specs.declared.tree.Key.{Key};
ghost use Rattle.gm_semantics.specs.Levels.{nodes};
ghost use Rattle.gm_semantics.specs.Loops.{parallel};
ghost use Rattle.gm_loops.specs.Around.{body_of, loop_of};
ghost use Rattle.gm_loops.specs.Bounds.{bound_of};
ghost use Rattle.gm_loops.specs.LoopEnds.{nodes_in, AtRest};
ghost use Rattle.gm_loops.specs.Renewals.{PassesAll, Renews};
ghost use Rattle.gm_loops.specs.Sights.{Fits};
ghost use Rattle.gm_loops.specs.Turns.{seen};

use crate::around::{Around, Body, Mode};
use crate::goings::Going;
use crate::loops::LoopNodes;
use crate::parts::is_true;
use crate::scopes::Scope;
use gm_ast::tree::{Expr, Target};
use gm_base::NoMemory;
use gm_columns::Cells;
use gm_graph::Graph;

// A property's values at all nodes.
#[derive(Drop)]
pub(crate) struct Renewal {
    pub property: u32,
    pub cells: Cells,
}

// Whether a filter is a constant that passes everything.
pub(crate) fn passes_all(filter: &Expr) -> bool
    ensures { IsTrue result → PassesAll (expr_of filter.now) }
{
    match filter {
        Expr::Const(value) => is_true(*value),
        _ => false,
    }
}

impl LoopNodes<'_> {
    // Whether these are all nodes of the graph.
    pub(crate) fn are_all(&self, graph: &Graph) -> bool
        ensures { IsTrue result → nodes_in self.now ≡ nodes graph.now }
    {
        match self {
            LoopNodes::Below(count) => *count == graph.node_count(),
            LoopNodes::Listed(_) => false,
        }
    }
}

impl Going {
    // What a loop gives a property, if that is all that it does and nothing faults.
    fn renewal(
        &self,
        around: &Around,
        filter: &Expr,
        nodes: LoopNodes,
    ) -> Result<Option<Renewal>, NoMemory>
        requires fits { Fits around.now.setting.now self.now.store }
        requires bound { bound_of (body_of around.now.body) ≤ around.now.setting.now.variables }
        ensures renews { IfOk result (λ found. IfSome found (Renews (loop_of around.now) (expr_of filter.now) (body_of around.now.body) (nodes_in nodes.entry) (seen around.now.setting.now self.now))) }
        ensures within { IfOk result (λ found. IfSome found (λ renewal. renewal.property < around.now.setting.now.variables)) }
    {
        if let Body::Assignment {
            key,
            target: Target::Property {
                owner,
                property,
                ..
            },
            value,
        } = around.body
        {
            if owner == around.outer && passes_all(filter) && nodes.are_all(around.setting.graph) {
                let sight = around.sight(Mode::Outermost, key);
                if let Some(cells) = sight.column(
                    self.alloc,
                    value,
                    owner,
                    &Scope::Nothing,
                    &self.store,
                )? {
                    return Ok(Some(Renewal { property, cells }));
                }
            }
        }
        Ok(None)
    }

    // Gives a property what a loop gives it, if that is all that the loop does and nothing faults. Answers whether it
    // is done.
    pub(crate) fn renews(
        &mut self,
        around: &Around,
        filter: &Expr,
        nodes: LoopNodes,
    ) -> Result<bool, NoMemory>
        requires rest { AtRest around.now.setting.now self.old }
        requires bound { bound_of (body_of around.now.body) ≤ around.now.setting.now.variables }
        ensures meaning { IfOk result (λ done. IsTrue done → (key : Key)
            → parallel (loop_of around.now) key (expr_of filter.now) (body_of around.now.body) (nodes_in nodes.entry) (seen around.now.setting.now self.old) ≡ Ok (seen around.now.setting.now self.new)) }
        ensures rest { IfOk result (λ done. AtRest around.now.setting.now self.new) }
        ensures unchanged { IfOk result (λ done. done ≡ false → self.new ≡ self.old) }
    {
        match self.renewal(around, filter, nodes)? {
            Some(renewal) => {
                self.store.replace(renewal.property, renewal.cells);
                Ok(true)
            }
            None => Ok(false),
        }
    }
}
