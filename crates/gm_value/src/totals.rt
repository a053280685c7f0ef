//! Totals of bags of values, which stay exact while fewer than 2 ^ 62 members come, in any order.

ghost use Rattle.std.specs.Prelude.{◌≡◌, ◌↔◌, IsTrue, ℤ, ◌*ℤ◌, ◌^◌, ◌≤◌, unsigned_abs, List, []};
ghost use Rattle.gm_value.specs.declared.values.Value.{Value};
ghost use Rattle.gm_value.specs.declared.values.VType.{VType};
ghost use Rattle.gm_value.specs.declared.reductions.Reduce.{Reduce};
ghost use Rattle.gm_value.specs.Numbers.{type_of, number_of, checked};
ghost use Rattle.gm_value.specs.Reductions.{combined, close};
ghost use Rattle.gm_value.specs.Totals.{IsTotal, IsProduct, HasRoom, HasType, AddsMember, IsProductTotal, Shows, ShowsMore};

use crate::faults::FaultKind;
use crate::operations::{product, sum};
use crate::reductions::{Reduce, unit};
use crate::values::{VType, Value};

/// The total of a bag of values by a reduction.
#[derive(Clone, Copy, Debug, PartialEq, Eq)]
pub enum Total {
    /// The least or the greatest member.
    Small(Value),
    /// The exact sum.
    Sum(i128),
    /// The exact product while its magnitude is at most 2 ^ 63; where it is greater, `over` with the value 0.
    Product { value: i128, over: bool },
}

impl Total {
    /// Whether the total has room for one more member. One of fewer than 2 ^ 62 members has.
    pub fn has_room(self) -> bool
        ensures { IsTrue result ↔ HasRoom self }
    {
        match self {
            Total::Small(_) => true,
            Total::Sum(z) => -(1 << 126) <= z && z <= 1 << 126,
            Total::Product { value, .. } => -(1 << 63) <= value && value <= 1 << 63,
        }
    }
}

// A product with one more factor. A factor 0 makes it 0 for good.
fn multiplied(value: i128, over: bool, factor: i128) -> Total
    requires factor { unsigned_abs factor ≤ 2 ^ 63 }
    requires value { unsigned_abs value ≤ 2 ^ 63 }
    ensures product { (exact : ℤ) → IsProduct value over exact → IsProductTotal result (factor *ℤ exact) }
    ensures typed { (t : VType) → HasType t result }
{
    if factor == 0 {
        return Total::Product {
            value: 0,
            over: false,
        };
    }
    if over {
        return Total::Product {
            value: 0,
            over: true,
        };
    }
    let more = product(factor, value);
    if more < -(1 << 63) || more > (1 << 63) {
        Total::Product {
            value: 0,
            over: true,
        }
    } else {
        Total::Product {
            value: more,
            over: false,
        }
    }
}

/// The total of the empty bag. The type says what the unit is.
pub fn total_unit(r: Reduce, t: VType) -> Total
    ensures total { IsTotal r t result [] }
    ensures typed { HasType t result }
{
    match r {
        Reduce::Sum => Total::Sum(0),
        Reduce::Product => Total::Product {
            value: 1,
            over: false,
        },
        _ => Total::Small(unit(r, t)),
    }
}

// The total that shows one more member's number.
fn with_member(r: Reduce, a: Total, b: Value) -> Total
    requires { HasRoom a }
    ensures shows { ShowsMore r a (number_of b) result }
    ensures typed { HasType (type_of b) a → HasType (type_of b) result }
    ensures near { unsigned_abs (number_of b) ≤ 2 ^ 63 }
{
    let x = b.number();
    match (r, a) {
        (Reduce::Sum, Total::Sum(z)) => Total::Sum(sum(x, z)),
        (Reduce::Product, Total::Product { value, over }) => multiplied(value, over, x),
        (Reduce::Min | Reduce::And, Total::Small(v)) => Total::Small(if v.number() < x {
            v
        } else {
            b
        }),
        (Reduce::Max | Reduce::Or, Total::Small(v)) => Total::Small(if v.number() < x {
            b
        } else {
            v
        }),
        _ => a,
    }
}

/// The total with one more member, of whatever type. The total is one by the same reduction.
pub fn total_add(r: Reduce, a: Total, b: Value) -> Total
    requires { HasRoom a }
    ensures adds { AddsMember r a b result }
    ensures shows { ShowsMore r a (number_of b) result }
    ensures typed { HasType (type_of b) a → HasType (type_of b) result }
{
    with_member(r, a, b)
}

// The value of a type for the number that a total shows.
fn fitted(t: VType, a: Total) -> Result<Value, FaultKind>
    ensures { (r : Reduce) (exact : ℤ) → Shows r a exact → result ≡ checked t exact }
{
    match a {
        Total::Small(v) => t.checked(v.number()),
        Total::Sum(z) => t.checked(z),
        Total::Product { over: true, .. } => Err(FaultKind::Overflow),
        Total::Product { value, .. } => t.checked(value),
    }
}

/// The held value combined with a total, or the fault Overflow where the exact result is out of the held value's
/// type's range. The total is one by the same reduction.
pub fn total_close(r: Reduce, held: Value, t: Total) -> Result<Value, FaultKind>
    requires { HasRoom t }
    ensures bags { (bag : List Value) → IsTotal r (type_of held) t bag → result ≡ close r held bag }
    ensures exact { (exact : ℤ) → Shows r t exact
        → result ≡ checked (type_of held) (combined r (number_of held) exact) }
{
    fitted(held.type_of(), with_member(r, t, held))
}
