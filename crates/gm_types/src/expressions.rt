//! Expressions, each part judged once.

ghost use Rattle.std.specs.Prelude.{◌≡◌, IfOk, IfSome, option_map};
ghost use Rattle.gm_ast.specs.Program as Program;
ghost use Rattle.gm_ast.specs.Kinds as Kinds;
ghost use Rattle.gm_ast.specs.Names.{keyed};
ghost use Rattle.gm_ast.specs.Surface.{Named, Member, Method, Prefixed};
ghost use Rattle.gm_ast.specs.Typing.{typed, start_of, number, ranged, reducer_at, fold_key, fold_numbers};
ghost use Rattle.gm_ast.specs.SurfaceTree as SurfaceTree;
ghost use Rattle.gm_ast.specs.SurfaceTree.{name_of};
ghost use Rattle.gm_ast.specs.Tree.{expr_of};
ghost use Rattle.gm_types.specs.Parts.{part_of};
ghost use Rattle.gm_types.specs.Views.{env_of, Judges};

use crate::leaves::{member, method, named, plain, query_of};
use crate::names::Checker;
use crate::parts::{Part, choice, condition, infix, prefix};
use crate::reductions::{Folding, domain_of, range, reduction};
use gm_ast::kinds::{Binding, Kind, Reducer};
use gm_ast::surface::{Name, Prefix, ReductionWord, SpelledExpr, SpelledHead};
use gm_ast::tree::{Expr, Key, Stage};
use gm_base::Place;
use gm_value::{VType, Value};
use std::alloc::{AllocError, Global};

// The place of an expression's first token.
pub fn start_of(e: &SpelledExpr) -> Place
    ensures { result ≡ start_of (SurfaceTree.expr_of e.now) }
{
    match e {
        SpelledExpr::Named(name) => name.place,
        SpelledExpr::Member { owner, .. } => owner.place,
        SpelledExpr::Method { owner, .. } => owner.place,
        SpelledExpr::Infix { left, .. } => start_of(left),
        SpelledExpr::Choose { test, .. } => start_of(test),
        SpelledExpr::Number { place, .. } => *place,
        SpelledExpr::Truth { place, .. } => *place,
        SpelledExpr::Nil { place } => *place,
        SpelledExpr::Greatest { place } => *place,
        SpelledExpr::Least { place } => *place,
        SpelledExpr::Paren { place, .. } => *place,
        SpelledExpr::Prefix { place, .. } => *place,
        SpelledExpr::Reduction { place, .. } => *place,
    }
}

// The place of the first token of an expression that may be absent.
fn start_of_optional(e: &Option<Box<SpelledExpr>>) -> Place
    ensures { result ≡ start_of (SurfaceTree.optional_of e.now) }
{
    match e {
        None => Place { line: 0, col: 0 },
        Some(e) => start_of(e),
    }
}

// A number, which Int may not hold.
fn number(alloc: Global, place: Place, value: i64) -> Result<Part, AllocError>
    ensures { IfOk result (λ r. part_of r ≡ number place value) }
{
    let mut large = Vec::new(alloc);
    if value > i64::from(i32::MAX) {
        large.push(place)?;
    }
    Ok(Part {
        kind: Kind::Flexible,
        core: Expr::Const(Value::I64(value)),
        large,
    })
}

// A Bool.
fn flag(alloc: Global, value: bool) -> Part
    ensures { part_of result ≡ Kinds.part_of (Kind.Of VType.Flag) (Program.Const (Value.Flag value)) }
{
    plain(
        alloc,
        Kind::Of(VType::Flag),
        Expr::Const(Value::Flag(value)),
    )
}

// No node.
fn nil(alloc: Global) -> Part
    ensures { part_of result ≡ Kinds.part_of (Kind.Of VType.Node) (Program.Const (Value.At None)) }
{
    plain(alloc, Kind::Of(VType::Node), Expr::Const(Value::At(None)))
}

// A number that takes its type from what stands beside it.
fn flexible(alloc: Global, value: i64) -> Part
    ensures { part_of result ≡ Kinds.part_of Kind.Flexible (Program.Const (Value.I64 value)) }
{
    plain(alloc, Kind::Flexible, Expr::Const(Value::I64(value)))
}

impl<'a> Checker<'a> {
    // The variable over whose nodes or neighbours a loop runs.
    pub fn ranged(&mut self, head: &SpelledHead) -> Option<Binding>
        ensures { Judges self.old self.new (ranged (SurfaceTree.head_of head.now) (env_of self.old)) result }
    {
        let owner = self.used(&head.owner);
        range(
            domain_of(head.range),
            head.owner.place,
            owner,
            &mut self.least,
        )
    }

    // The key of what stands, in a sequential phase, under a number of its own, and otherwise in an inner reduction.
    fn fold_key(&self, offset: u32, stage: Stage) -> Option<Key>
        ensures { IfSome result (λ k. k ≡ fold_key (env_of self.now) offset stage) }
    {
        if self.depth > 0 {
            return Some(Key {
                statement: self.key.statement,
                stage: Stage::Inner,
            });
        }
        let statement = self.number.checked_add(offset)?;
        Some(Key { statement, stage })
    }

    // A reduction at its place, with its closing brace.
    fn reducer(&self, place: Place, word: ReductionWord, close: Place) -> Option<Reducer>
        ensures { IfSome result (λ r. r ≡ reducer_at (env_of self.now) place word close) }
    {
        let filter = self.fold_key(0, Stage::Operator)?;
        let body = self.fold_key(1, Stage::Operator)?;
        let total = self.fold_key(1, Stage::Total)?;
        Some(Reducer {
            word,
            place,
            close,
            filter,
            body,
            total,
        })
    }

    // How many statement numbers a reduction takes.
    fn fold_numbers(&self) -> u32
        ensures { result ≡ fold_numbers (env_of self.now) }
    {
        if self.depth == 0 { 2 } else { 0 }
    }

    // A name alone.
    fn judge_name(&mut self, alloc: Global, name: &Name) -> Option<Part>
        ensures { Judges self.old self.new (typed (Named (name_of name.now)) (env_of self.old)) (option_map part_of result) }
    {
        let group = self.group;
        let found = self.used(name);
        named(alloc, group, name.place, found, &mut self.least)
    }

    // A property of a node or an edge.
    fn judge_member(&mut self, alloc: Global, owner: &Name, property: &Name) -> Option<Part>
        ensures { Judges self.old self.new (typed (Member (name_of owner.now) (name_of property.now)) (env_of self.old)) (option_map part_of result) }
    {
        let group = self.group;
        let node = self.used(owner);
        let read = self.used(property);
        member(alloc, group, owner.place, node, read, &mut self.least)
    }

    // A call without arguments.
    fn judge_method(&mut self, alloc: Global, owner: &Name, asked: &Name) -> Option<Part>
        ensures { Judges self.old self.new (typed (Method (name_of owner.now) (name_of asked.now)) (env_of self.old)) (option_map part_of result) }
    {
        let group = self.group;
        let found = self.used(owner);
        let query = query_of(&asked.text);
        method(alloc, group, owner.place, query, found, &mut self.least)
    }

    // An operator before its operand.
    #[cycle(typing)]
    fn judge_prefix(
        &mut self,
        alloc: Global,
        place: Place,
        op: Prefix,
        inner: &'a SpelledExpr,
    ) -> Result<Option<Part>, AllocError>
        ensures { IfOk result (λ r. Judges self.old self.new (typed (Prefixed place op (SurfaceTree.expr_of inner.now)) (env_of self.old)) (option_map part_of r)) }
    {
        let operand = self.typed(alloc, inner)?;
        let part = prefix(alloc, place, op, operand, &mut self.least)?;
        Ok(part)
    }

    // The filter or the braces of a reduction, under their key; where they are absent, they are the condition that
    // always holds.
    #[cycle(typing)]
    fn judge_optional(
        &mut self,
        alloc: Global,
        key: Key,
        e: &'a Option<Box<SpelledExpr>>,
    ) -> Result<Option<Part>, AllocError>
        ensures { IfOk result (λ r. Judges self.old self.new (keyed key (typed (SurfaceTree.optional_of e.now)) (env_of self.old)) (option_map part_of r)) }
    {
        match e {
            None => Ok(Some(flag(alloc, true))),
            Some(e) => {
                let around = self.key;
                self.key = key;
                let part = self.typed(alloc, e)?;
                self.key = around;
                Ok(part)
            }
        }
    }

    // The type of an expression among the names that are known.
    #[cycle(typing)]
    pub fn typed(&mut self, alloc: Global, e: &'a SpelledExpr) -> Result<Option<Part>, AllocError>
        ensures { IfOk result (λ r. Judges self.old self.new (typed (SurfaceTree.expr_of e.now) (env_of self.old)) (option_map part_of r)) }
    {
        match e {
            SpelledExpr::Number { place, value } => {
                let part = number(alloc, *place, *value)?;
                Ok(Some(part))
            }
            SpelledExpr::Truth { value, .. } => Ok(Some(flag(alloc, *value))),
            SpelledExpr::Nil { .. } => Ok(Some(nil(alloc))),
            SpelledExpr::Greatest { .. } => Ok(Some(flexible(alloc, i64::MAX))),
            SpelledExpr::Least { .. } => Ok(Some(flexible(alloc, i64::MIN))),
            SpelledExpr::Named(name) => Ok(self.judge_name(alloc, name)),
            SpelledExpr::Member { owner, property } => {
                Ok(self.judge_member(alloc, owner, property))
            }
            SpelledExpr::Method { owner, method } => Ok(self.judge_method(alloc, owner, method)),
            SpelledExpr::Paren { inner, .. } => self.typed(alloc, inner),
            SpelledExpr::Prefix { place, op, inner } => {
                self.judge_prefix(alloc, *place, *op, inner)
            }
            SpelledExpr::Infix {
                place,
                op,
                left,
                right,
            } => {
                let first = self.typed(alloc, left)?;
                let second = self.typed(alloc, right)?;
                let part = infix(alloc, *place, *op, first, second, &mut self.least)?;
                Ok(part)
            }
            SpelledExpr::Choose {
                place,
                test,
                yes,
                no,
            } => {
                let tested = self.typed(alloc, test)?;
                let asked = condition(start_of(test), tested, &mut self.least);
                let first = self.typed(alloc, yes)?;
                let second = self.typed(alloc, no)?;
                let part = choice(alloc, *place, asked, first, second, &mut self.least)?;
                Ok(part)
            }
            SpelledExpr::Reduction {
                place,
                word,
                head,
                filter,
                body,
                close,
            } => {
                let Some(reducer) = self.reducer(*place, *word, *close) else {
                    return Err(AllocError);
                };
                let numbers = self.fold_numbers();
                let owner = self.ranged(head);
                self.take_numbers(numbers)?;
                let known = self.scope.names.len();
                let depth = self.depth;
                let iterator = self.enter(alloc, &head.iterator, 1)?;
                let tested = self.judge_optional(alloc, reducer.filter, filter)?;
                let asked = condition(start_of_optional(filter), tested, &mut self.least);
                let inner = self.judge_optional(alloc, reducer.body, body)?;
                self.leave(known, depth);
                let parts = Folding {
                    iterator,
                    filter: asked,
                    body: inner,
                };
                let start = start_of_optional(body);
                let part = reduction(alloc, reducer, start, head, owner, parts, &mut self.least)?;
                Ok(part)
            }
        }
    }
}
