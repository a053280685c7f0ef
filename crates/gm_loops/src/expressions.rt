//! The value of an expression, or its fault.

ghost use Rattle.std.specs.Prelude.{◌≡◌};
ghost use Rattle.gm_ast.specs.Tree.{expr_of};
ghost use Rattle.gm_semantics.specs.Expressions.{evaluated};
ghost use Rattle.gm_loops.specs.Sights.{view_of, Fits};
ghost use Rattle.gm_loops.specs.Parts.{parts};
ghost use Rattle.gm_graph.specs.Serving.{Serve};
ghost use Rattle.gm_loops.specs.Asking.{reads_outward};

use crate::parts::Evaluated;
use crate::runnings::{Running, element, passes, reduce_of};
use crate::scopes::Scope;
use crate::sights::Sight;
use gm_ast::tree::Expr;
use gm_store::Store;
use gm_value::{Value, totals_have_room};

impl Sight<'_> {
    // The value of an expression in two parts.
    #[tactic(auto, using(crate::proofs::Serving::degree_way, crate::proofs::Serving::unary_inner, crate::proofs::Serving::binary_left, crate::proofs::Serving::binary_right, crate::proofs::Serving::both_left, crate::proofs::Serving::both_right, crate::proofs::Serving::either_left, crate::proofs::Serving::either_right, crate::proofs::Serving::choose_test, crate::proofs::Serving::choose_yes, crate::proofs::Serving::choose_no, crate::proofs::Serving::fold_range, crate::proofs::Serving::fold_filter, crate::proofs::Serving::fold_body))]
    pub(crate) fn evaluated(&self, e: &Expr, scope: &Scope, store: &Store) -> Evaluated
        requires fits { Fits self.now.setting.now store.now }
        requires asked { Serve self.now.setting.now.in_rows.now (reads_outward (expr_of e.now)) }
        ensures { parts result ≡ evaluated (expr_of e.now) (view_of self.now scope.now store.now) }
    {
        match e {
            Expr::Const(value) => Evaluated::plain(Ok(*value)),
            Expr::Var { variable, .. } => {
                Evaluated::plain(Ok(self.setting.scalar(scope, store, *variable)))
            }
            Expr::Property {
                owner,
                property,
                place,
            } => Evaluated::read(
                self.parallel,
                self.property(scope, store, *owner, *property, *place),
            ),
            Expr::EdgeProperty { property, .. } => {
                Evaluated::plain(Ok(self.setting.edge_property(*property, self.row)))
            }
            Expr::Degree {
                direction,
                owner,
                place,
            } => Evaluated::read(
                self.parallel,
                self.degree(scope, store, *direction, *owner, *place),
            ),
            Expr::NodeCount => {
                Evaluated::plain(Ok(Value::I32(self.setting.graph.node_count() as i32)))
            }
            Expr::EdgeCount => {
                Evaluated::plain(Ok(Value::I32(self.setting.graph.edge_count() as i32)))
            }
            Expr::Live { variable, place } => Evaluated::read(
                self.parallel,
                self.live(scope, store, *variable, *place),
            ),
            Expr::Unary { op, place, inner } => {
                self.evaluated(inner, scope, store)
                    .one(*op, self.key, *place)
            }
            Expr::Binary {
                op,
                place,
                left,
                right,
            } => self
                .evaluated(left, scope, store)
                .two(*op, self.key, *place, self.evaluated(right, scope, store)),
            Expr::Both(left, right) => self
                .evaluated(left, scope, store)
                .both(self.evaluated(right, scope, store)),
            Expr::Either(left, right) => self
                .evaluated(left, scope, store)
                .either(self.evaluated(right, scope, store)),
            Expr::Choose(test, yes, no) => self.evaluated(test, scope, store).choice(
                self.evaluated(yes, scope, store),
                self.evaluated(no, scope, store),
            ),
            Expr::Fold {
                fold,
                head,
                filter,
                body,
            } => {
                totals_have_room();
                let reduce = reduce_of(fold.word);
                let range = self.range(scope, store, head);
                let mut run = Running::new(reduce, fold.vtype);
                let mut k = range.count();
                'elements: while k > 0 {
                    k -= 1;
                    if let Some(hop) = range.at(k) {
                        let bound = Scope::Bound {
                            iterator: head.iterator,
                            node: hop.node,
                            outer: &*scope,
                        };
                        let test = self
                            .entered(fold.filter)
                            .evaluated(filter, &bound, store)
                            .settled();
                        let value = if passes(test) {
                            self.entered(fold.body)
                                .evaluated(body, &bound, store)
                                .settled()
                        } else {
                            test
                        };
                        run = run.with(reduce, element(fold.word, test, value));
                    }
                }
                Evaluated::early(run.closed(fold))
            }
        }
    }
}
