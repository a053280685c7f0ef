//! The laws on which other crates rest when they exchange contributions for others. Each function's contract is a law, and
//! it does nothing when it is called.

ghost use Rattle.gm_put_totals.specs.Laws.{SettlesAsItself, SettlesInAnyOrder, SettlesThrough, SettlesTogether, SettlesEach, SettlesAlone, SoundPutsSettle, ReducedPutsSettle};

use gm_value::reductions_are_monoids;

/// Contributions settle in any order. Those that settle as others may be exchanged for them one after another, side by
/// side, and each of many lists for its own. `A` is a member of a list of which each gives contributions.
pub fn contributions_can_be_exchanged<A>()
    ensures itself { SettlesAsItself }
    ensures order { SettlesInAnyOrder }
    ensures through { SettlesThrough }
    ensures together { SettlesTogether }
    ensures each { SettlesEach A }
    ensures alone { SettlesAlone }
{}

/// What the vertices put in a superstep of a sound image may be exchanged for what settles as it.
pub fn puts_can_be_exchanged()
    ensures { SoundPutsSettle }
{}

/// What a line gives with each of some values settles as the contribution of the reduced value.
pub fn reduced_puts_settle()
    ensures { ReducedPutsSettle }
{
    reductions_are_monoids();
}
