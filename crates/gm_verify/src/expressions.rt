//! Expressions: their depth, their leaves and their places.

ghost use Rattle.std.specs.Prelude.{◌≡◌, nat_le, nat_lt, length};
ghost use Rattle.gm_image.specs.Views.{term, program};
ghost use Rattle.gm_image.specs.Parts.{depth, is_shallow, place_holds, all_places};
ghost use Rattle.gm_image.specs.Indices.{in_range};

use gm_image::{Expr, Image, Shape};

// Whether an expression has at most so many levels. It goes no deeper than these.
#[tactic(auto, using(gm_image::proofs::ByShape::depth_leaf, gm_image::proofs::ByShape::depth_one, gm_image::proofs::ByShape::depth_two))]
fn is_within(expr: &Expr, levels: u32) -> bool
    ensures { result ≡ nat_le (depth (term expr.now)) levels }
{
    if levels == 0 {
        return false;
    }
    match expr.shape() {
        Shape::Leaf(_) => true,
        Shape::One(_, a) => is_within(a, levels - 1),
        Shape::Two(_, a, b) => is_within(a, levels - 1) && is_within(b, levels - 1),
        Shape::Choose(c, a, b) => {
            is_within(c, levels - 1) && is_within(a, levels - 1) && is_within(b, levels - 1)
        }
    }
}

// Whether an expression is not too deep.
pub fn is_shallow(expr: &Expr) -> bool
    ensures { result ≡ is_shallow (term expr.now) }
{
    is_within(expr, 1024)
}

// Whether an operation's place is in range, if it has one.
fn place_in_range(image: &Image, place: Option<u32>) -> bool
    ensures { result ≡ place_holds (in_range (program image.now).places) place }
{
    match place {
        None => true,
        Some(place) => (place as usize) < image.places.len(),
    }
}

// Whether the places that an expression names are in range.
#[tactic(auto, using(gm_image::proofs::ByShape::places_leaf, gm_image::proofs::ByShape::places_one, gm_image::proofs::ByShape::places_two))]
pub fn places_in_range(image: &Image, expr: &Expr) -> bool
    ensures { result ≡ all_places (in_range (program image.now).places) (term expr.now) }
{
    match expr.shape() {
        Shape::Leaf(_) => true,
        Shape::One(op, a) => place_in_range(image, op.place()) && places_in_range(image, a),
        Shape::Two(op, a, b) => {
            place_in_range(image, op.place())
                && places_in_range(image, a)
                && places_in_range(image, b)
        }
        Shape::Choose(c, a, b) => {
            places_in_range(image, c) && places_in_range(image, a) && places_in_range(image, b)
        }
    }
}
