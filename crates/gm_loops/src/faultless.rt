//! The value of an expression of which nothing faults.

ghost use Rattle.std.specs.Prelude.{◌≡◌, ◌<◌, Ok, IfSome};
ghost use Rattle.gm_value.specs.Operations.{result2};
ghost use Rattle.gm_model.specs.Graphs.{node_count};
ghost use Rattle.gm_ast.specs.Tree.{expr_of};
ghost use Rattle.gm_semantics.specs.Levels.{node_in};
ghost use Rattle.gm_semantics.specs.Expressions.{evaluated, plain};
ghost use Rattle.gm_store.specs.Held.{scalar_of};
ghost use Rattle.gm_loops.specs.Scopes.{scalar_in};
ghost use Rattle.gm_loops.specs.Sights.{view_of, Fits};
ghost use Rattle.gm_graph.specs.Serving.{Serve};
ghost use Rattle.gm_loops.specs.Asking.{reads_outward};

use crate::columns::{compared, summed};
use crate::parts::{Answer, is_true};
use crate::runnings::{added, closed_total, reduce_of};
use crate::scopes::Scope;
use crate::sights::{Sight, degree_of};
use gm_ast::tree::Expr;
use gm_store::Store;
use gm_value::{FaultKind, Op2, Value, apply1, apply2, total_unit, totals_have_room};

// A value, if there is no fault.
#[inline(always)]
fn found(answer: Result<Value, FaultKind>) -> Option<Value>
    ensures { IfSome result (λ v. answer ≡ Ok v) }
{
    match answer {
        Ok(value) => Some(value),
        Err(_) => None,
    }
}

// A value, if there is no fault.
pub(crate) fn sound(answer: Answer) -> Option<Value>
    ensures { IfSome result (λ v. answer ≡ Ok v) }
{
    match answer {
        Ok(value) => Some(value),
        Err(_) => None,
    }
}

// What an operation gives, if there is no fault. Comparisons, sums and differences of Ints are done in place.
#[inline(always)]
fn result_of(op: Op2, first: Value, second: Value) -> Option<Value>
    ensures { IfSome result (λ v. result2 op first second ≡ Ok v) }
{
    if let (Value::I32(x), Value::I32(y)) = (first, second) {
        if let Some(number) = summed(op, x, y) {
            return Some(Value::I32(number));
        }
        if let Some(holds) = compared(op, x, y) {
            return Some(Value::Flag(holds));
        }
    }
    found(apply2(op, first, second))
}

impl Sight<'_> {
    // The node that a variable holds, if it holds one.
    #[inline(always)]
    pub(crate) fn node_held(&self, scope: &Scope, store: &Store, x: u32) -> Option<u32>
        requires { Fits self.now.setting.now store.now }
        ensures node { result ≡ node_in self.now.setting.now.graph.now (scalar_in scope.now (scalar_of store.now) x) }
        ensures known { IfSome result (λ n. n < node_count self.now.setting.now.graph.now) }
    {
        match *scope {
            Scope::Bound { iterator, node, .. } if iterator == x => {
                if node < self.setting.graph.node_count() {
                    Some(node)
                } else {
                    None
                }
            }
            _ => self.setting.node_in(self.setting.scalar(scope, store, x)),
        }
    }

    // The value of an expression of which nothing faults. Where it answers none, `evaluated` says what comes of it.
    #[cycle(finding)]
    #[inline(always)]
    #[tactic(auto, using(crate::proofs::Serving::degree_way))]
    pub(crate) fn faultless(&self, e: &Expr, scope: &Scope, store: &Store) -> Option<Value>
        requires fits { Fits self.now.setting.now store.now }
        requires asked { Serve self.now.setting.now.in_rows.now (reads_outward (expr_of e.now)) }
        ensures { IfSome result (λ v. evaluated (expr_of e.now) (view_of self.now scope.now store.now) ≡ plain (Ok v)) }
    {
        match e {
            Expr::Const(value) => Some(*value),
            Expr::Var { variable, .. } => Some(self.setting.scalar(scope, store, *variable)),
            Expr::Property {
                owner,
                property,
                ..
            } => {
                let node = self.node_held(scope, store, *owner)?;
                Some(self.setting.property(store, *property, node))
            }
            Expr::EdgeProperty { property, .. } => {
                Some(self.setting.edge_property(*property, self.row))
            }
            Expr::Degree {
                direction,
                owner,
                ..
            } => {
                let node = self.node_held(scope, store, *owner)?;
                Some(degree_of(self.setting, *direction, node))
            }
            Expr::NodeCount => Some(Value::I32(self.setting.graph.node_count() as i32)),
            Expr::EdgeCount => Some(Value::I32(self.setting.graph.edge_count() as i32)),
            Expr::Live { variable, .. } => {
                let node = self.node_held(scope, store, *variable)?;
                Some(Value::At(Some(node)))
            }
            _ => self.faultless_operation(e, scope, store),
        }
    }

    // The value of an operation or a reduction of which nothing faults.
    #[cycle(finding)]
    #[tactic(auto, using(crate::proofs::Serving::unary_inner, crate::proofs::Serving::binary_left, crate::proofs::Serving::binary_right, crate::proofs::Serving::both_left, crate::proofs::Serving::both_right, crate::proofs::Serving::either_left, crate::proofs::Serving::either_right, crate::proofs::Serving::choose_test, crate::proofs::Serving::choose_yes, crate::proofs::Serving::choose_no))]
    fn faultless_operation(&self, e: &Expr, scope: &Scope, store: &Store) -> Option<Value>
        requires fits { Fits self.now.setting.now store.now }
        requires asked { Serve self.now.setting.now.in_rows.now (reads_outward (expr_of e.now)) }
        ensures { IfSome result (λ v. evaluated (expr_of e.now) (view_of self.now scope.now store.now) ≡ plain (Ok v)) }
    {
        match e {
            Expr::Unary { op, inner, .. } => {
                let value = self.faultless(inner, scope, store)?;
                found(apply1(*op, value))
            }
            Expr::Binary {
                op,
                left,
                right,
                ..
            } => {
                let first = self.faultless(left, scope, store)?;
                let second = self.faultless(right, scope, store)?;
                result_of(*op, first, second)
            }
            Expr::Both(left, right) => {
                let first = self.faultless(left, scope, store)?;
                let second = self.faultless(right, scope, store)?;
                Some(if is_true(first) { second } else { first })
            }
            Expr::Either(left, right) => {
                let first = self.faultless(left, scope, store)?;
                let second = self.faultless(right, scope, store)?;
                Some(if is_true(first) { first } else { second })
            }
            Expr::Choose(test, yes, no) => {
                let holds = self.faultless(test, scope, store)?;
                let first = self.faultless(yes, scope, store)?;
                let second = self.faultless(no, scope, store)?;
                Some(if is_true(holds) { first } else { second })
            }
            _ => self.faultless_fold(e, scope, store),
        }
    }

    // The value of a reduction of which nothing faults.
    #[cycle(finding)]
    #[tactic(auto, using(crate::proofs::Serving::fold_range, crate::proofs::Serving::fold_filter, crate::proofs::Serving::fold_body))]
    fn faultless_fold(&self, e: &Expr, scope: &Scope, store: &Store) -> Option<Value>
        requires fits { Fits self.now.setting.now store.now }
        requires asked { Serve self.now.setting.now.in_rows.now (reads_outward (expr_of e.now)) }
        ensures { IfSome result (λ v. evaluated (expr_of e.now) (view_of self.now scope.now store.now) ≡ plain (Ok v)) }
    {
        if let Expr::Fold {
            fold,
            head,
            filter,
            body,
        } = e
        {
            if let Some(value) = self.fold_of_column(fold, head, filter, body, scope, store) {
                return Some(value);
            }
            totals_have_room();
            let reduce = reduce_of(fold.word);
            let range = self.range(scope, store, head);
            let filtering = self.entered(fold.filter);
            let taking = self.entered(fold.body);
            let mut total = total_unit(reduce, fold.vtype);
            let mut k = range.count();
            'elements: while k > 0 {
                k -= 1;
                if let Some(hop) = range.at(k) {
                    let bound = Scope::Bound {
                        iterator: head.iterator,
                        node: hop.node,
                        outer: &*scope,
                    };
                    let passed = filtering.faultless(filter, &bound, store)?;
                    if is_true(passed) {
                        let value = taking.faultless(body, &bound, store)?;
                        total = added(fold.word, reduce, total, value);
                    }
                }
            }
            return sound(closed_total(fold, total));
        }
        None
    }
}
