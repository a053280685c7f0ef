//! Faults with the keys by which they are compared.

use gm_ast::tree::Key;
use gm_base::Place;
use gm_value::FaultKind;

/// Why a part of a program has no value: the kind of the fault, the place that is shown, and what orders it among the
/// faults of one loop: its key, and then its place in the text.
#[derive(Clone, Copy, PartialEq, Eq, Debug)]
pub struct Fault {
    pub kind: FaultKind,
    pub shown: Place,
    pub key: Key,
    pub place: Place,
}
