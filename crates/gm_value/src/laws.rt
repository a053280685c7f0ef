//! The laws on which other crates rest when they reorder, part or replace what is reduced. Each function's
//! contract is a law, and it does nothing when it is called.

ghost use Rattle.gm_value.specs.declared.reductions.Reduce.{Reduce};
ghost use Rattle.gm_value.specs.declared.reductions.Reduce.TheVariants.{Min, Max};
ghost use Rattle.gm_value.specs.Laws.{KeepsType1, KeepsType2, ClosingKeepsType};
ghost use Rattle.gm_value.specs.Laws.{QuotientAndRemainder, RemainderIsSmall, RemainderHasSign};
ghost use Rattle.gm_value.specs.Laws.{IsAssociative, IsCommutative, HasUnit, StaysInRange};
ghost use Rattle.gm_value.specs.Laws.{TotalTakesBags, ClosingTakesBags, ClosingNothing, SumOfOne, ProductOfOne};
ghost use Rattle.gm_value.specs.Laws.{TakingTakesRanks, TakingTakesBags, TakingNothing, TakingInParts, TakingUpTo, TakingToAnyBound, TakingByNewRanks};
ghost use Rattle.gm_value.specs.Laws.{FewHaveRoom, TotalStandsForBags, TotalIsOne};
ghost use Rattle.gm_value.specs.Laws.{BestTakesBags, KeepsReduced, KeepsInParts, SlotsTakeBags, OneSlotCloses, SlotsKeepTypes, TuplesFit};

/// Operations give values of their result's type, and closings values of the held value's type.
pub fn operations_keep_types()
    ensures one { KeepsType1 }
    ensures two { KeepsType2 }
    ensures closing { ClosingKeepsType }
{}

/// A quotient is cut toward zero, and the remainder has the dividend's sign.
pub fn divisions_cut_toward_zero()
    ensures whole { QuotientAndRemainder }
    ensures small { RemainderIsSmall }
    ensures sign { RemainderHasSign }
{}

/// Each reduction with its unit is a commutative monoid, and one that picks a member stays in the type.
pub fn reductions_are_monoids()
    ensures associative { (r : Reduce) → IsAssociative r }
    ensures commutative { (r : Reduce) → IsCommutative r }
    ensures unit { (r : Reduce) → HasUnit r }
    ensures in_range { (r : Reduce) → StaysInRange r }
{}

/// Totals and closings do not depend on the order of their bags; the empty bag leaves the held value, and a sum or
/// a product with one member is the operation.
pub fn bags_have_no_order()
    ensures total { TotalTakesBags }
    ensures close { ClosingTakesBags }
    ensures nothing { ClosingNothing }
    ensures sum { SumOfOne }
    ensures product { ProductOfOne }
{}

/// A total of fewer than 2 ^ 62 members has room for one more, and one total alone stands for a bag, in any order.
pub fn totals_have_room()
    ensures room { FewHaveRoom }
    ensures order { TotalStandsForBags }
    ensures one { TotalIsOne }
{}

/// Taking contributions by their ranks depends on each rank's only as a bag, leaves the held value where there are
/// none, and may be done in parts: a fault of the first part is the fault of the whole. `C` is a contribution, and
/// `V` what is held.
pub fn taking_goes_by_ranks<C, V>()
    ensures ranks { TakingTakesRanks C V }
    ensures bags { TakingTakesBags C V }
    ensures nothing { TakingNothing C V }
    ensures parts { TakingInParts C V }
    ensures up_to { TakingUpTo C V }
    ensures bound { TakingToAnyBound C V }
    ensures rekeyed { TakingByNewRanks C V }
{}

/// Which tuple an argument reduction keeps does not depend on the order of the contributed ones; with one entry it is
/// the ordinary reduction.
pub fn tuples_have_no_order()
    ensures bags { BestTakesBags }
    ensures min { KeepsReduced Min }
    ensures max { KeepsReduced Max }
    ensures parts { (r : Reduce) → KeepsInParts r }
{}

/// What the slots of one target hold after contributions does not depend on their order, and keeps its types; one slot
/// is closed as a value is, and several always take contributions of their types.
pub fn slots_have_no_order()
    ensures bags { SlotsTakeBags }
    ensures one { OneSlotCloses }
    ensures types { SlotsKeepTypes }
    ensures fits { TuplesFit }
{}
