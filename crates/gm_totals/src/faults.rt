//! The faults of totals, and the least of faults.

ghost use Rattle.std.specs.Prelude.{◌≡◌, nat_eq, nat_lt, ◌&&◌, ◌||◌, Option};
ghost use Rattle.gm_ast.specs.Keys.{stage_rank};
ghost use Rattle.gm_semantics.specs.Faults.{rank_of, comes_before, lower, lesser, total_fault};
ghost use Rattle.gm_value.specs.Faults.{fault_number};

use gm_ast::tree::{Stage, TotalKey};
use gm_semantics::faults::Fault;
use gm_value::FaultKind;

// A stage's number in the order of faults of one statement.
fn stage_rank(stage: Stage) -> u32
    ensures { result ≡ stage_rank stage }
{
    match stage {
        Stage::Inner => 0,
        Stage::Operator => 1,
        Stage::Total => 2,
    }
}

// A fault kind's number: of two faults at one place the lesser counts.
fn kind_rank(kind: FaultKind) -> u32
    ensures { result ≡ fault_number kind }
{
    match kind {
        FaultKind::DivideByZero => 1,
        FaultKind::NilNode => 2,
        FaultKind::Overflow => 3,
    }
}

// Whether a number and what comes after it stand before another number and what comes after that.
fn precedes(a: u32, b: u32, rest: bool) -> bool
    ensures { result ≡ (nat_lt a b || (nat_eq a b && rest)) }
{
    a < b || (a == b && rest)
}

// Whether a fault comes before another: by statement, stage, place and kind, and then by the place that is shown.
fn comes_before(f: Fault, g: Fault) -> bool
    ensures { result ≡ comes_before (rank_of f) (rank_of g) }
{
    let shown = precedes(
        f.shown.line,
        g.shown.line,
        precedes(f.shown.col, g.shown.col, false),
    );
    let kind = precedes(kind_rank(f.kind), kind_rank(g.kind), shown);
    let place = precedes(
        f.place.line,
        g.place.line,
        precedes(f.place.col, g.place.col, kind),
    );
    let stage = precedes(stage_rank(f.key.stage), stage_rank(g.key.stage), place);
    precedes(f.key.statement, g.key.statement, stage)
}

/// The lesser of a fault and what may be one.
pub fn lesser(f: Fault, g: Option<Fault>) -> Option<Fault>
    ensures { result ≡ lesser f g }
{
    match g {
        Some(g) if comes_before(g, f) => Some(g),
        _ => Some(f),
    }
}

/// The fault of a total whose exact value is out of its type's range.
pub fn total_fault(key: TotalKey) -> Fault
    ensures { result ≡ total_fault key }
{
    Fault {
        kind: FaultKind::Overflow,
        shown: key.shown,
        key: key.key,
        place: key.place,
    }
}

// Of two keys of totals the one of the lesser fault.
pub fn lower_key(a: TotalKey, b: TotalKey) -> TotalKey
    ensures { total_fault result ≡ lower (total_fault a) (total_fault b) }
{
    if comes_before(total_fault(b), total_fault(a)) {
        b
    } else {
        a
    }
}
