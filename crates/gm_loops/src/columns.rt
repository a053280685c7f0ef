//! The values of an expression at all nodes of the graph at once, where nothing faults.

ghost use Rattle.std.specs.Prelude.{◌≡◌, ◌<◌, Ok, IfOk, IfSome, length, replicate, slice_index_or};
ghost use Rattle.gm_base.specs.declared.places.Place.{Place};
ghost use Rattle.gm_value.specs.declared.values.Value.TheVariants.{I32, Flag};
ghost use Rattle.gm_value.specs.Operations.{result2};
ghost use Rattle.gm_model.specs.Graphs.{node_count};
ghost use Rattle.gm_ast.specs.Program as program;
ghost use Rattle.gm_ast.specs.Tree.{expr_of};
ghost use Rattle.gm_semantics.specs.Levels.{numbers_from};
ghost use Rattle.gm_columns.specs.Cells.{values_of};
ghost use Rattle.gm_loops.specs.Columns.{cells_of, Applies1, Applies2, IsColumn};
ghost use Rattle.gm_loops.specs.Sights.{view_of, Fits};

use crate::scopes::Scope;
use crate::sights::Sight;
use gm_ast::tree::Expr;
use gm_base::NoMemory;
use gm_columns::Cells;
use gm_store::Store;
use gm_value::{Op1, Op2, VType, Value, apply1, apply2};
use std::alloc::Global;

// The values of an expression at all nodes: cells that the store holds, or made ones.
#[derive(Drop)]
pub(crate) enum Operand<'a> {
    Held(&'a Cells),
    Made(Cells),
}

impl Operand<'_> {
    // The values.
    pub fn cells(&self) -> &Cells
        ensures { result.now ≡ cells_of self.now }
    {
        match self {
            Operand::Held(cells) => cells,
            Operand::Made(cells) => cells,
        }
    }

    // Cells with the values.
    fn owned(self, alloc: Global) -> Result<Cells, NoMemory>
        ensures { IfOk result (λ cells. values_of cells ≡ values_of (cells_of self.entry)) }
    {
        match self {
            Operand::Held(cells) => cells.copied(alloc),
            Operand::Made(cells) => Ok(cells),
        }
    }
}

// One value at each node.
#[inline(always)]
fn uniform(value: Value, nodes: u32) -> Cells
    ensures { values_of result ≡ replicate nodes value }
{
    Cells::Uniform {
        value,
        nodes: nodes as usize,
    }
}

// The nodes below a count.
fn numbered(alloc: Global, nodes: u32) -> Result<Vec<u32>, NoMemory>
    ensures { IfOk result (λ all. all.items ≡ numbers_from 0 nodes) }
{
    let mut all = Vec::with_capacity(alloc, nodes as usize)?;
    for node in 0..nodes {
        all.push(node)?;
    }
    Ok(all)
}

// The type of what an operation gives on the first of some values.
fn type_of_one(op: Op1, inner: &Cells) -> VType {
    if inner.len() > 0 {
        op.result_type(inner.get(0).type_of())
    } else {
        VType::I32
    }
}

// The type of what an operation gives on the first two of some values.
fn type_of_two(op: Op2, first: &Cells) -> VType {
    if first.len() > 0 {
        op.result_type(first.get(0).type_of())
    } else {
        VType::I32
    }
}

// What an operation gives on each of some values, if nothing faults and all is of one type.
fn column_of_one(alloc: Global, op: Op1, inner: &Cells) -> Result<Option<Cells>, NoMemory>
    ensures { IfOk result (λ found. IfSome found (Applies1 op (values_of inner.now))) }
{
    let mut cells = Cells::with_capacity(alloc, type_of_one(op, inner), inner.len())?;
    for node in 0..inner.len() {
        match apply1(op, inner.get(node)) {
            Ok(value) => {
                if !cells.push(value)? {
                    return Ok(None);
                }
            }
            Err(_) => return Ok(None),
        }
    }
    Ok(Some(cells))
}

// The number at a node, if it is an Int.
#[inline(always)]
fn int_at(cells: &Cells, node: usize) -> Option<i32>
    requires { node < length (values_of cells.now) }
    ensures { IfSome result (λ z. (d : Value) → slice_index_or (values_of cells.now) node d ≡ I32 z) }
{
    match cells {
        Cells::Ints(cells) => Some(cells[node]),
        Cells::Uniform {
            value: Value::I32(number),
            ..
        } => Some(*number),
        _ => None,
    }
}

// What a comparison of two Ints gives.
#[inline(always)]
pub(crate) fn compared(op: Op2, x: i32, y: i32) -> Option<bool>
    ensures { IfSome result (λ b. result2 op (I32 x) (I32 y) ≡ Ok (Flag b)) }
{
    match op {
        Op2::Eq => Some(x == y),
        Op2::Ne => Some(x != y),
        Op2::Lt => Some(x < y),
        Op2::Le => Some(x <= y),
        Op2::Gt => Some(x > y),
        Op2::Ge => Some(x >= y),
        _ => None,
    }
}

// What a comparison gives on each two of some values, if they are Ints.
fn comparisons(
    alloc: Global,
    op: Op2,
    first: &Cells,
    second: &Cells,
) -> Result<Option<Cells>, NoMemory>
    requires { length (values_of second.now) ≡ length (values_of first.now) }
    ensures { IfOk result (λ found. IfSome found (Applies2 op (values_of first.now) (values_of second.now))) }
{
    let mut flags = Vec::with_capacity(alloc, first.len())?;
    for node in 0..first.len() {
        match (int_at(first, node), int_at(second, node)) {
            (Some(x), Some(y)) => match compared(op, x, y) {
                Some(holds) => flags.push(holds)?,
                None => return Ok(None),
            },
            _ => return Ok(None),
        }
    }
    Ok(Some(Cells::Flags(flags)))
}

// A sum or a difference of two Ints, if it is an Int.
#[inline(always)]
pub(crate) fn summed(op: Op2, x: i32, y: i32) -> Option<i32>
    ensures { IfSome result (λ z. result2 op (I32 x) (I32 y) ≡ Ok (I32 z)) }
{
    match op {
        Op2::Add => x.checked_add(y),
        Op2::Sub => x.checked_sub(y),
        _ => None,
    }
}

// The sums or the differences of each two of some values, if they are Ints and so are all results.
fn sums(alloc: Global, op: Op2, first: &Cells, second: &Cells) -> Result<Option<Cells>, NoMemory>
    requires { length (values_of second.now) ≡ length (values_of first.now) }
    ensures { IfOk result (λ found. IfSome found (Applies2 op (values_of first.now) (values_of second.now))) }
{
    let mut numbers = Vec::with_capacity(alloc, first.len())?;
    for node in 0..first.len() {
        match (int_at(first, node), int_at(second, node)) {
            (Some(x), Some(y)) => match summed(op, x, y) {
                Some(number) => numbers.push(number)?,
                None => return Ok(None),
            },
            _ => return Ok(None),
        }
    }
    Ok(Some(Cells::Ints(numbers)))
}

// Whether an operation is a comparison.
fn is_comparison(op: Op2) -> bool {
    match op {
        Op2::Eq | Op2::Ne | Op2::Lt | Op2::Le | Op2::Gt | Op2::Ge => true,
        _ => false,
    }
}

// Whether an operation is a sum or a difference.
fn is_sum(op: Op2) -> bool {
    match op {
        Op2::Add | Op2::Sub => true,
        _ => false,
    }
}

// What an operation gives on each two of some values, if nothing faults and all is of one type.
fn column_of_two(
    alloc: Global,
    op: Op2,
    first: &Cells,
    second: &Cells,
) -> Result<Option<Cells>, NoMemory>
    requires { length (values_of second.now) ≡ length (values_of first.now) }
    ensures { IfOk result (λ found. IfSome found (Applies2 op (values_of first.now) (values_of second.now))) }
{
    if is_comparison(op) {
        if let Some(cells) = comparisons(alloc, op, first, second)? {
            return Ok(Some(cells));
        }
    }
    if is_sum(op) {
        if let Some(cells) = sums(alloc, op, first, second)? {
            return Ok(Some(cells));
        }
    }
    applied(alloc, op, first, second)
}

// What an operation gives on each two of some values, one after the other, if nothing faults and all is of one type.
fn applied(alloc: Global, op: Op2, first: &Cells, second: &Cells) -> Result<Option<Cells>, NoMemory>
    requires { length (values_of second.now) ≡ length (values_of first.now) }
    ensures { IfOk result (λ found. IfSome found (Applies2 op (values_of first.now) (values_of second.now))) }
{
    let mut cells = Cells::with_capacity(alloc, type_of_two(op, first), first.len())?;
    for node in 0..first.len() {
        match apply2(op, first.get(node), second.get(node)) {
            Ok(value) => {
                if !cells.push(value)? {
                    return Ok(None);
                }
            }
            Err(_) => return Ok(None),
        }
    }
    Ok(Some(cells))
}

impl Sight<'_> {
    // The values of a variable where the iterator goes over all nodes.
    fn column_of_variable(
        &self,
        alloc: Global,
        x: u32,
        iterator: u32,
        scope: &Scope,
        store: &Store,
    ) -> Result<Cells, NoMemory>
        requires { Fits self.now.setting.now store.now }
        ensures { (at : Place) → IfOk result (IsColumn (program.Var x at) (view_of self.now scope.now store.now) iterator) }
    {
        let nodes = self.setting.graph.node_count();
        if x == iterator {
            Ok(Cells::Nodes(numbered(alloc, nodes)?))
        } else {
            Ok(uniform(self.setting.scalar(scope, store, x), nodes))
        }
    }

    // The values of a property as the store holds them.
    fn column_of_property<'a>(
        &self,
        owner: u32,
        property: u32,
        iterator: u32,
        scope: &Scope,
        store: &'a Store,
    ) -> Option<&'a Cells>
        requires { Fits self.now.setting.now store.now }
        ensures { (at : Place) → IfSome result (λ cells. IsColumn (program.Property owner property at) (view_of self.now scope.now store.now) iterator cells.now) }
    {
        if owner == iterator && (property as usize) < self.setting.variables {
            Some(store.cells(property))
        } else {
            None
        }
    }

    // The values of an expression where the iterator goes over all nodes. It answers none where one may fault, where
    // they are not all of one type, and where the expression is of another form.
    #[cycle(columns)]
    pub(crate) fn operand<'a>(
        &self,
        alloc: Global,
        e: &Expr,
        iterator: u32,
        scope: &Scope,
        store: &'a Store,
    ) -> Result<Option<Operand<'a>>, NoMemory>
        requires { Fits self.now.setting.now store.now }
        ensures { IfOk result (λ found. IfSome found (λ operand. IsColumn (expr_of e.now) (view_of self.now scope.now store.now) iterator (cells_of operand))) }
    {
        if let Expr::Property {
            owner,
            property,
            ..
        } = e
        {
            return match self.column_of_property(*owner, *property, iterator, scope, store) {
                Some(cells) => Ok(Some(Operand::Held(cells))),
                None => Ok(None),
            };
        }
        match self.made(alloc, e, iterator, scope, store)? {
            Some(cells) => Ok(Some(Operand::Made(cells))),
            None => Ok(None),
        }
    }

    // The values of an expression that the store does not hold.
    #[cycle(columns)]
    fn made(
        &self,
        alloc: Global,
        e: &Expr,
        iterator: u32,
        scope: &Scope,
        store: &Store,
    ) -> Result<Option<Cells>, NoMemory>
        requires { Fits self.now.setting.now store.now }
        ensures { IfOk result (λ found. IfSome found (IsColumn (expr_of e.now) (view_of self.now scope.now store.now) iterator)) }
    {
        match e {
            Expr::Const(value) => Ok(Some(uniform(*value, self.setting.graph.node_count()))),
            Expr::Var { variable, .. } => {
                let cells = self.column_of_variable(alloc, *variable, iterator, scope, store)?;
                Ok(Some(cells))
            }
            Expr::NodeCount => {
                let nodes = self.setting.graph.node_count();
                Ok(Some(uniform(Value::I32(nodes as i32), nodes)))
            }
            Expr::EdgeCount => {
                let nodes = self.setting.graph.node_count();
                let edges = self.setting.graph.edge_count();
                Ok(Some(uniform(Value::I32(edges as i32), nodes)))
            }
            Expr::Unary { op, inner, .. } => {
                match self.operand(alloc, inner, iterator, scope, store)? {
                    Some(operand) => column_of_one(alloc, *op, operand.cells()),
                    None => Ok(None),
                }
            }
            Expr::Binary {
                op,
                left,
                right,
                ..
            } => {
                match self.operand(alloc, left, iterator, scope, store)? {
                    Some(first) => match self.operand(alloc, right, iterator, scope, store)? {
                        Some(second) => column_of_two(alloc, *op, first.cells(), second.cells()),
                        None => Ok(None),
                    },
                    None => Ok(None),
                }
            }
            _ => Ok(None),
        }
    }

    // The values of an expression where the iterator goes over all nodes, in cells of their own. It answers none where
    // one may fault, where they are not all of one type, and where the expression is of another form.
    pub(crate) fn column(
        &self,
        alloc: Global,
        e: &Expr,
        iterator: u32,
        scope: &Scope,
        store: &Store,
    ) -> Result<Option<Cells>, NoMemory>
        requires { Fits self.now.setting.now store.now }
        ensures { IfOk result (λ found. IfSome found (IsColumn (expr_of e.now) (view_of self.now scope.now store.now) iterator)) }
    {
        match self.operand(alloc, e, iterator, scope, store)? {
            Some(operand) => Ok(Some(operand.owned(alloc)?)),
            None => Ok(None),
        }
    }
}
