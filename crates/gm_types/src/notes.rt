//! The least violation so far.

ghost use Rattle.std.specs.Prelude.{◌≡◌, map};
ghost use Rattle.gm_base.specs.Rules.{lesser, least_from, broken_at};

use gm_base::{Place, Refusal, Rule};

// Notes that a rule is broken at a place.
pub fn note(least: &mut Option<Refusal>, rule: Rule, place: Place)
    ensures { least.new ≡ lesser least.old (broken_at rule place) }
{
    Refusal { rule, place }.note(least);
}

// Notes that a rule is broken at some places.
pub fn note_all(least: &mut Option<Refusal>, rule: Rule, places: &[Place])
    ensures { least.new ≡ least_from least.old (map (broken_at rule) places.now) }
{
    for place in places {
        note(least, rule, *place);
    }
}
