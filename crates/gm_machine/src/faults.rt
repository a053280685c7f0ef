//! Faults and where they come.

ghost use Rattle.std.specs.Prelude.{◌≡◌};
ghost use Rattle.gm_machine.specs.Faults.{is_earlier, lesser};

use gm_value::FaultKind;

/// A fault, and the index of its place in the image's list of places.
#[derive(Clone, Copy, Debug, PartialEq, Eq)]
pub struct Fault {
    pub place: u32,
    pub kind: FaultKind,
}

// Whether a fault comes before another: by the index of its place, and at one place by its number.
fn is_earlier(f: Fault, g: Fault) -> bool
    ensures { result ≡ is_earlier f g }
{
    f.place < g.place || (f.place == g.place && f.kind.number() < g.kind.number())
}

/// The lesser of two faults, by the index of the place and then by number.
pub fn lesser(f: Option<Fault>, g: Option<Fault>) -> Option<Fault>
    ensures { result ≡ lesser f g }
{
    match (f, g) {
        (None, _) => g,
        (_, None) => f,
        (Some(a), Some(b)) => { if is_earlier(b, a) { g } else { f } }
    }
}
