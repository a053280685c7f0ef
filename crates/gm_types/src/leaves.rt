//! Expressions without parts: names, properties and calls.

ghost use Rattle.std.specs.Prelude.{◌≡◌, [], option_map};
ghost use Rattle.gm_base.specs.Rules.{least_from};
ghost use Rattle.gm_ast.specs.Judged.{ok_of, errs_of, both_of, part_by, broken_by};
ghost use Rattle.gm_ast.specs.Names.{is_node};
ghost use Rattle.gm_ast.specs.Typing.{named_part, member_part, method_part, query_of, stands_for_node};
ghost use Rattle.gm_ast.specs.Tree.{expr_of};
ghost use Rattle.gm_types.specs.Parts.{part_of};

use crate::notes::note;
use crate::parts::Part;
use gm_ast::kinds::{Binding, Kind, Query};
use gm_ast::tree::{Direction, Expr, Sort, Variable};
use gm_base::{Place, Refusal, Rule};
use gm_value::VType;
use std::alloc::Global;

pub fn is_node(variable: Variable) -> bool
    ensures { result ≡ is_node variable }
{
    match variable.sort {
        Sort::Iterator => true,
        Sort::Scalar => variable.vtype == VType::Node,
        _ => false,
    }
}

// Whether a variable stands for a node here.
fn stands_for_node(group: bool, variable: Variable) -> bool
    ensures { result ≡ stands_for_node group variable }
{
    is_node(variable) || (group && variable.sort == Sort::Graph)
}

pub fn plain(alloc: Global, kind: Kind, core: Expr) -> Part
    ensures { part_of result ≡ record { kind = kind; core = expr_of core; large = [] } }
{
    Part {
        kind,
        core,
        large: Vec::new(alloc),
    }
}

// A name alone.
fn named_of(
    alloc: Global,
    group: bool,
    place: Place,
    found: Binding,
    least: &mut Option<Refusal>,
) -> Option<Part>
    ensures part { option_map part_of result ≡ ok_of (named_part group place found) }
    ensures least { least.new ≡ least_from least.old (errs_of (named_part group place found)) }
{
    let core = Expr::Var {
        variable: found.index,
        place,
    };
    match found.variable.sort {
        Sort::Scalar => Some(plain(alloc, Kind::Of(found.variable.vtype), core)),
        Sort::Iterator => Some(plain(alloc, Kind::Of(VType::Node), core)),
        Sort::Edge => Some(plain(alloc, Kind::Edge, core)),
        Sort::Graph => {
            if group {
                Some(plain(alloc, Kind::Of(VType::Node), core))
            } else {
                note(least, Rule::T7, place);
                None
            }
        }
        Sort::NodeProperty | Sort::EdgeProperty => {
            note(least, Rule::T7, place);
            None
        }
    }
}

// A property of a node or an edge.
fn member_of(
    alloc: Global,
    group: bool,
    place: Place,
    owner: Binding,
    property: Binding,
    least: &mut Option<Refusal>,
) -> Option<Part>
    ensures part { option_map part_of result ≡ ok_of (member_part group place (owner, property)) }
    ensures least { least.new ≡ least_from least.old (errs_of (member_part group place (owner, property))) }
{
    let kind = Kind::Of(property.variable.vtype);
    if stands_for_node(group, owner.variable) && property.variable.sort == Sort::NodeProperty {
        return Some(plain(
            alloc,
            kind,
            Expr::Property {
                owner: owner.index,
                property: property.index,
                place,
            },
        ));
    }
    if owner.variable.sort == Sort::Edge && property.variable.sort == Sort::EdgeProperty {
        return Some(plain(
            alloc,
            kind,
            Expr::EdgeProperty {
                edge: owner.index,
                property: property.index,
                place,
            },
        ));
    }
    note(least, Rule::T7, place);
    None
}

// What a call without arguments asks.
pub fn query_of(name: &[u8]) -> Query
    ensures { result ≡ query_of name.now }
{
    if name == b"Degree".as_slice()
        || name == b"NumNbrs".as_slice()
        || name == b"OutDegree".as_slice()
    {
        Query::Degree(Direction::Out)
    } else if name == b"InDegree".as_slice() {
        Query::Degree(Direction::In)
    } else if name == b"NumNodes".as_slice() {
        Query::NodeCount
    } else if name == b"NumEdges".as_slice() {
        Query::EdgeCount
    } else if name == b"ToEdge".as_slice() {
        Query::ToEdge
    } else {
        Query::Unknown
    }
}

// What a call without arguments gives.
fn method_of(
    alloc: Global,
    group: bool,
    place: Place,
    query: Query,
    owner: Binding,
    least: &mut Option<Refusal>,
) -> Option<Part>
    ensures part { option_map part_of result ≡ ok_of (method_part group place query owner) }
    ensures least { least.new ≡ least_from least.old (errs_of (method_part group place query owner)) }
{
    let int = Kind::Of(VType::I32);
    match query {
        Query::Degree(direction) => {
            if stands_for_node(group, owner.variable) {
                return Some(plain(
                    alloc,
                    int,
                    Expr::Degree {
                        direction,
                        owner: owner.index,
                        place,
                    },
                ));
            }
        }
        Query::NodeCount => {
            if owner.variable.sort == Sort::Graph {
                return Some(plain(alloc, int, Expr::NodeCount));
            }
        }
        Query::EdgeCount => {
            if owner.variable.sort == Sort::Graph {
                return Some(plain(alloc, int, Expr::EdgeCount));
            }
        }
        Query::ToEdge | Query::Unknown => {}
    }
    note(least, Rule::T7, place);
    None
}

// A name alone that may not be known.
pub fn named(
    alloc: Global,
    group: bool,
    place: Place,
    found: Option<Binding>,
    least: &mut Option<Refusal>,
) -> Option<Part>
    ensures part { option_map part_of result ≡ part_by found (named_part group place) }
    ensures least { least.new ≡ least_from least.old (broken_by found (named_part group place)) }
{
    match found {
        None => None,
        Some(found) => named_of(alloc, group, place, found, least),
    }
}

// A property whose names may not be known.
pub fn member(
    alloc: Global,
    group: bool,
    place: Place,
    owner: Option<Binding>,
    property: Option<Binding>,
    least: &mut Option<Refusal>,
) -> Option<Part>
    ensures part { option_map part_of result ≡ part_by (both_of owner property) (member_part group place) }
    ensures least { least.new ≡ least_from least.old (broken_by (both_of owner property) (member_part group place)) }
{
    match owner {
        None => None,
        Some(owner) => match property {
            None => None,
            Some(property) => member_of(alloc, group, place, owner, property, least),
        },
    }
}

// A call whose owner may not be known.
pub fn method(
    alloc: Global,
    group: bool,
    place: Place,
    query: Query,
    owner: Option<Binding>,
    least: &mut Option<Refusal>,
) -> Option<Part>
    ensures part { option_map part_of result ≡ part_by owner (method_part group place query) }
    ensures least { least.new ≡ least_from least.old (broken_by owner (method_part group place query)) }
{
    match owner {
        None => None,
        Some(owner) => method_of(alloc, group, place, query, owner, least),
    }
}
