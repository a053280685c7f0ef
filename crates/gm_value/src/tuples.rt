//! Tuples of values, of which an argument reduction keeps one whole.

ghost use Rattle.std.specs.Prelude.{◌≡◌, map};
ghost use Rattle.gm_value.specs.Numbers.{number_of};
ghost use Rattle.gm_value.specs.Tuples.{is_before, is_above, replaces};

use crate::reductions::Reduce;
use crate::values::Value;

// Whether a tuple comes before another: the first entries that differ decide.
fn is_before(some: &[Value], other: &[Value]) -> bool
    ensures { result ≡ is_before (map number_of some.now) (map number_of other.now) }
{
    let shorter = some.len().min(other.len());
    for i in 0..shorter {
        let first = some[i].number();
        let second = other[i].number();
        if first < second {
            return true;
        }
        if second < first {
            return false;
        }
    }
    some.len() < other.len()
}

// Whether the greatest first entry, and among those the least rest, belongs to the new tuple.
fn is_above(new: &[Value], held: &[Value]) -> bool
    ensures { result ≡ is_above (map number_of new.now) (map number_of held.now) }
{
    if new.is_empty() || held.is_empty() {
        return is_before(new, held);
    }
    let first = new[0].number();
    let second = held[0].number();
    if first == second {
        is_before(&new[1..], &held[1..])
    } else {
        second < first
    }
}

/// Whether a new tuple takes the place of the held one: by Max where its first entry is greater, or is the same and
/// the rest of it comes before the held rest; by Min where it comes before. Of two tuples the first entries that
/// differ decide: numbers are compared by size, False is below True, NIL below all nodes, and nodes are in the order
/// of their indices. An equal tuple does not replace. Both tuples have the same length and pairwise the same types;
/// of others the numbers that stand for the values are compared, and a tuple that ends comes first.
pub fn fold_tuple(r: Reduce, held: &[Value], new: &[Value]) -> bool
    ensures { result ≡ replaces r (map number_of held.now) (map number_of new.now) }
{
    match r {
        Reduce::Max => is_above(new, held),
        _ => is_before(new, held),
    }
}
