//! Ranges, and reductions whose parts have types.

ghost use Rattle.std.specs.Prelude.{◌≡◌, Some, IfOk, OnOk, option_map};
ghost use Rattle.gm_base.specs.Rules.{least_from};
ghost use Rattle.gm_ast.specs.Judged.{ok_of, errs_of, both_of, part_by, broken_by};
ghost use Rattle.gm_ast.specs.SurfaceTree as SurfaceTree;
ghost use Rattle.gm_ast.specs.Tree.{expr_of};
ghost use Rattle.gm_ast.specs.Typing.{domain_of, is_nodes, range_rule, head_with, fold_of, folded, of_numbers, of_conditions, reduction_part, reduction_rule};
ghost use Rattle.gm_types.specs.Folding.{folding_of};
ghost use Rattle.gm_types.specs.Parts.{part_of};

use crate::kinds::{is_flag, is_number_type};
use crate::leaves::is_node;
use crate::notes::note;
use crate::parts::{Part, settled};
use gm_ast::kinds::{Binding, Kind, Reducer};
use gm_ast::surface::{Range, ReductionWord, SpelledHead};
use gm_ast::tree::{Domain, Expr, Fold, Head, Sort, TotalKey};
use gm_base::{Place, Refusal, Rule};
use gm_value::VType;
use std::alloc::{AllocError, Global};

// The domain of a range.
pub fn domain_of(range: Range) -> Domain
    ensures { result ≡ domain_of range }
{
    match range {
        Range::Nodes => Domain::Nodes,
        Range::Nbrs | Range::OutNbrs => Domain::OutNbrs,
        Range::InNbrs => Domain::InNbrs,
        Range::UpNbrs => Domain::UpNbrs,
        Range::DownNbrs => Domain::DownNbrs,
    }
}

fn is_nodes(domain: Domain) -> bool
    ensures { result ≡ is_nodes domain }
{
    match domain {
        Domain::Nodes => true,
        Domain::OutNbrs | Domain::InNbrs | Domain::UpNbrs | Domain::DownNbrs => false,
    }
}

// What a loop may run over: all nodes of the graph, or the neighbours of a node.
fn range_of(
    domain: Domain,
    place: Place,
    owner: Binding,
    least: &mut Option<Refusal>,
) -> Option<Binding>
    ensures part { result ≡ ok_of (range_rule domain place owner) }
    ensures least { least.new ≡ least_from least.old (errs_of (range_rule domain place owner)) }
{
    let fits = if is_nodes(domain) {
        owner.variable.sort == Sort::Graph
    } else {
        is_node(owner.variable)
    };
    if fits {
        return Some(owner);
    }
    note(least, Rule::T6, place);
    None
}

// A range whose variable may not be known.
pub fn range(
    domain: Domain,
    place: Place,
    owner: Option<Binding>,
    least: &mut Option<Refusal>,
) -> Option<Binding>
    ensures part { result ≡ part_by owner (range_rule domain place) }
    ensures least { least.new ≡ least_from least.old (broken_by owner (range_rule domain place)) }
{
    let owner = owner?;
    range_of(domain, place, owner, least)
}

// A loop's head with its names resolved.
pub fn head_with(head: &SpelledHead, owner: Binding, iterator: u32) -> Head
    ensures { result ≡ head_with (SurfaceTree.head_of head.now) owner iterator }
{
    Head {
        iterator,
        domain: domain_of(head.range),
        owner: owner.index,
        place: head.owner.place,
    }
}

// A reduction with the type of its value.
fn fold_of(reducer: Reducer, vtype: VType) -> Fold
    ensures { result ≡ fold_of reducer vtype }
{
    Fold {
        word: reducer.word,
        vtype,
        filter: reducer.filter,
        body: reducer.body,
        total: TotalKey {
            key: reducer.total,
            place: reducer.close,
            shown: reducer.place,
        },
    }
}

// A reduction with a value of a type.
fn folded(
    alloc: Global,
    reducer: Reducer,
    vtype: VType,
    head: Head,
    filter: Expr,
    body: Expr,
) -> Result<Part, AllocError>
    ensures { IfOk result (λ r. part_of r ≡ folded reducer vtype head (expr_of filter) (expr_of body)) }
{
    let filter = Box::new(alloc, filter)?;
    let body = Box::new(alloc, body)?;
    let fold = fold_of(reducer, vtype);
    let core = Expr::Fold {
        fold,
        head,
        filter,
        body,
    };
    Ok(Part {
        kind: Kind::Of(vtype),
        core,
        large: Vec::new(alloc),
    })
}

// A reduction of numbers.
fn of_numbers(
    alloc: Global,
    reducer: Reducer,
    head: Head,
    filter: Expr,
    body: Part,
    least: &mut Option<Refusal>,
) -> Result<Option<Part>, AllocError>
    ensures part { IfOk result (λ r. option_map part_of r ≡ ok_of (of_numbers reducer head (expr_of filter) (part_of body))) }
    ensures least { OnOk result (least.new ≡ least_from least.old (errs_of (of_numbers reducer head (expr_of filter) (part_of body)))) }
{
    let number = settled(alloc, body)?;
    if let Kind::Of(vtype) = number.kind {
        if is_number_type(vtype) {
            let part = folded(alloc, reducer, vtype, head, filter, number.core)?;
            return Ok(Some(part));
        }
    }
    note(least, Rule::T8, reducer.place);
    Ok(None)
}

// A reduction of conditions, of which the braces begin at a place.
fn of_conditions(
    alloc: Global,
    start: Place,
    vtype: VType,
    reducer: Reducer,
    head: Head,
    filter: Expr,
    body: Part,
    least: &mut Option<Refusal>,
) -> Result<Option<Part>, AllocError>
    ensures part { IfOk result (λ r. option_map part_of r ≡ ok_of (of_conditions start vtype reducer head (expr_of filter) (part_of body))) }
    ensures least { OnOk result (least.new ≡ least_from least.old (errs_of (of_conditions start vtype reducer head (expr_of filter) (part_of body)))) }
{
    if is_flag(body.kind) {
        let part = folded(alloc, reducer, vtype, head, filter, body.core)?;
        return Ok(Some(part));
    }
    note(least, Rule::T10, start);
    Ok(None)
}

// A reduction whose filter and braces have types.
fn reduction_of(
    alloc: Global,
    reducer: Reducer,
    start: Place,
    head: Head,
    filter: Expr,
    body: Part,
    least: &mut Option<Refusal>,
) -> Result<Option<Part>, AllocError>
    ensures part { IfOk result (λ r. option_map part_of r ≡ ok_of (reduction_part reducer.word start reducer head (expr_of filter) (part_of body))) }
    ensures least { OnOk result (least.new ≡ least_from least.old (errs_of (reduction_part reducer.word start reducer head (expr_of filter) (part_of body)))) }
{
    match reducer.word {
        ReductionWord::Sum | ReductionWord::Product | ReductionWord::Min | ReductionWord::Max => {
            of_numbers(alloc, reducer, head, filter, body, least)
        }
        ReductionWord::Count => {
            of_conditions(alloc, start, VType::I32, reducer, head, filter, body, least)
        }
        ReductionWord::Exist | ReductionWord::All => {
            of_conditions(
                alloc,
                start,
                VType::Flag,
                reducer,
                head,
                filter,
                body,
                least,
            )
        }
    }
}

// The iterator of a reduction, its filter and its braces, of which these may have no types.
#[derive(Drop)]
pub struct Folding {
    pub iterator: u32,
    pub filter: Option<Expr>,
    pub body: Option<Part>,
}

// A reduction whose parts may have no types.
pub fn reduction(
    alloc: Global,
    reducer: Reducer,
    start: Place,
    head: &SpelledHead,
    owner: Option<Binding>,
    parts: Folding,
    least: &mut Option<Refusal>,
) -> Result<Option<Part>, AllocError>
    ensures part { IfOk result (λ r. option_map part_of r ≡ part_by (both_of owner (folding_of parts)) (reduction_rule reducer start (SurfaceTree.head_of head.now))) }
    ensures least { OnOk result (least.new ≡ least_from least.old (broken_by (both_of owner (folding_of parts)) (reduction_rule reducer start (SurfaceTree.head_of head.now)))) }
{
    match owner.zip(parts.filter.zip(parts.body)) {
        None => Ok(None),
        Some((owner, (filter, body))) => {
            let head = head_with(head, owner, parts.iterator);
            reduction_of(alloc, reducer, start, head, filter, body, least)
        }
    }
}
