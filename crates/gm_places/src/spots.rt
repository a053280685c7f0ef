//! Where something may fault, gathered from expressions.

ghost use Rattle.std.specs.Prelude.{◌≡◌, ◌++◌, OnOk, map, option_map};
ghost use Rattle.gm_base.specs.Places as Texts;
ghost use Rattle.gm_ast.specs.Keys as Keys;
ghost use Rattle.gm_ast.specs.Tree.{expr_of};
ghost use Rattle.gm_lowering.specs.Places as Places;
ghost use Rattle.gm_places.specs.Spots.{as_spot, spots_if};

use gm_ast::tree::{Expr, Key, Stage, TotalKey};
use gm_base::{NoMemory, Place};
use gm_facts::faults::{can_fail1, can_fail2};

/// Where something may fault: where it stands in the order of faults, and the place that its fault shows.
#[derive(Clone, Copy, Debug)]
pub struct Spot {
    /// The key of the statement's operators or total.
    pub key: Key,
    /// The operator's place in the text.
    pub place: Place,
    /// The place that the fault shows.
    pub shown: Place,
}

/// The spot of an operator, whose fault shows its own place.
pub fn spot_at(key: Key, place: Place) -> Spot
    ensures { as_spot result ≡ Places.spot_at key place }
{
    Spot {
        key,
        place,
        shown: place,
    }
}

/// The spot of a total.
pub fn spot_of_total(total: TotalKey) -> Spot
    ensures { as_spot result ≡ Places.spot_of_total total }
{
    Spot {
        key: total.key,
        place: total.place,
        shown: total.shown,
    }
}

// A stage's number in the order of faults of one statement.
fn stage_rank(stage: Stage) -> u32
    ensures { result ≡ Keys.stage_rank stage }
{
    match stage {
        Stage::Inner => 0,
        Stage::Operator => 1,
        Stage::Total => 2,
    }
}

// Whether a place comes before another in the text.
fn place_lt(a: Place, b: Place) -> bool
    ensures { result ≡ Texts.place_lt a b }
{
    a.line < b.line || (a.line == b.line && a.col < b.col)
}

// Whether a spot comes before another.
pub(crate) fn spot_lt(a: Spot, b: Spot) -> bool
    ensures { result ≡ Places.spot_lt (as_spot a) (as_spot b) }
{
    let first = stage_rank(a.key.stage);
    let second = stage_rank(b.key.stage);
    a.key.statement < b.key.statement
        || (a.key.statement == b.key.statement
            && (first < second || (first == second && place_lt(a.place, b.place))))
}

// Adds an operator's spot, where it can fault.
fn add_if(fails: bool, key: Key, place: Place, spots: &mut Vec<Spot>) -> Result<(), NoMemory>
    ensures { OnOk result (map as_spot spots.new.items ≡ map as_spot spots.old.items ++ spots_if fails key place) }
{
    if fails {
        spots.push(spot_at(key, place))?;
    }
    Ok(())
}

/// Adds the spots of an expression, whose operators have a key.
pub fn add_spots_in(e: &Expr, key: Key, spots: &mut Vec<Spot>) -> Result<(), NoMemory>
    ensures { OnOk result (map as_spot spots.new.items ≡ map as_spot spots.old.items ++ Places.spots_in (expr_of e.now) key) }
{
    match e {
        Expr::Unary { op, place, inner } => {
            add_if(can_fail1(*op), key, *place, spots)?;
            add_spots_in(inner, key, spots)?;
            Ok(())
        }
        Expr::Binary {
            op,
            place,
            left,
            right,
        } => {
            add_if(can_fail2(*op), key, *place, spots)?;
            add_spots_in(left, key, spots)?;
            add_spots_in(right, key, spots)?;
            Ok(())
        }
        Expr::Both(left, right) => {
            add_spots_in(left, key, spots)?;
            add_spots_in(right, key, spots)?;
            Ok(())
        }
        Expr::Either(left, right) => {
            add_spots_in(left, key, spots)?;
            add_spots_in(right, key, spots)?;
            Ok(())
        }
        Expr::Choose(test, yes, no) => {
            add_spots_in(test, key, spots)?;
            add_spots_in(yes, key, spots)?;
            add_spots_in(no, key, spots)?;
            Ok(())
        }
        Expr::Live { place, .. } => {
            spots.push(spot_at(key, *place))?;
            Ok(())
        }
        Expr::Const(_)
        | Expr::Var { .. }
        | Expr::Property { .. }
        | Expr::EdgeProperty { .. }
        | Expr::Degree { .. }
        | Expr::NodeCount
        | Expr::EdgeCount
        | Expr::Fold { .. } => Ok(()),
    }
}

/// Adds the spots of some expressions.
pub fn add_spots_in_all(values: &[Expr], key: Key, spots: &mut Vec<Spot>) -> Result<(), NoMemory>
    ensures { OnOk result (map as_spot spots.new.items ≡ map as_spot spots.old.items ++ Places.spots_in_all (map expr_of values.now) key) }
{
    for value in values {
        add_spots_in(value, key, spots)?;
    }
    Ok(())
}

/// Adds the spots of an expression that may be absent.
pub fn add_spots_in_option(
    value: &Option<Expr>,
    key: Key,
    spots: &mut Vec<Spot>,
) -> Result<(), NoMemory>
    ensures { OnOk result (map as_spot spots.new.items ≡ map as_spot spots.old.items ++ Places.spots_in_option (option_map expr_of value.now) key) }
{
    match value {
        None => Ok(()),
        Some(value) => {
            add_spots_in(value, key, spots)?;
            Ok(())
        }
    }
}
