//! Exact totals of the messages to nodes.

ghost use Rattle.std.specs.Prelude.{◌≡◌, ◌∷◌, [], IfOk, Some};
ghost use Rattle.gm_value.specs.Numbers.{type_of};
ghost use Rattle.gm_combine.specs.Held.{type_in};

use crate::samples::verified;
use gm_base::{Items, NoMemory};
use gm_combine::{KindBatch, Rows, combinable, totals_are_worked};
use gm_image::{Image, Kind, MasterLine, Sound};
use gm_value::{Reduce, Total, VType, Value};
use std::alloc::Global;
use std::process::Abort;
use std::test::Fail;

// The list of one kind of messages, which carry one value.
fn kinds_of(alloc: Global, combiner: Option<Reduce>, vtype: VType) -> Result<Items<Kind>, NoMemory>
    ensures { IfOk result (λ kinds. kinds ≡ record { combiner = combiner; values = vtype ∷ [] } ∷ []) }
{
    let mut values = Vec::new(alloc);
    values.push(vtype)?;
    let values = Items::new(values);
    let mut kinds = Vec::new(alloc);
    kinds.push(Kind { combiner, values })?;
    Ok(Items::new(kinds))
}

// The name of the images.
fn name(alloc: Global) -> Result<Items<u8>, NoMemory> {
    let bytes = vec![in alloc; b'a']?;
    Ok(Items::new(bytes))
}

// A master list that ends at once.
fn at_once(alloc: Global) -> Result<Items<MasterLine>, NoMemory> {
    let lines = vec![in alloc; MasterLine::Finish]?;
    Ok(Items::new(lines))
}

// An image with these kinds, which does nothing.
fn image_with(
    alloc: Global,
    name: Items<u8>,
    master: Items<MasterLine>,
    kinds: Items<Kind>,
) -> Image
    ensures { result.kinds ≡ kinds }
{
    Image {
        name,
        inputs: Items::new(Vec::new(alloc)),
        outputs: Items::new(Vec::new(alloc)),
        result: None,
        globals: Items::new(Vec::new(alloc)),
        fields: Items::new(Vec::new(alloc)),
        registers: Items::new(Vec::new(alloc)),
        columns: Items::new(Vec::new(alloc)),
        kinds,
        places: Items::new(Vec::new(alloc)),
        blocks: Items::new(Vec::new(alloc)),
        master,
    }
}

// An image with one kind of messages, whose number is 0.
fn image_of(alloc: Global, combiner: Option<Reduce>, vtype: VType) -> Result<Image, NoMemory>
    ensures { IfOk result (λ image. image.kinds ≡ record { combiner = combiner; values = vtype ∷ [] } ∷ []) }
{
    let name = name(alloc)?;
    let master = at_once(alloc)?;
    let kinds = kinds_of(alloc, combiner, vtype)?;
    Ok(image_with(alloc, name, master, kinds))
}

// The same as a sound image.
fn sound_of(alloc: Global, combiner: Option<Reduce>, vtype: VType) -> Result<Sound, Fail>
    ensures { IfOk result (λ image. image.kinds ≡ record { combiner = combiner; values = vtype ∷ [] } ∷ []) }
{
    let image = image_of(alloc, combiner, vtype)?;
    Ok(verified(alloc, image)?)
}

// Empty rows of two places for such an image.
fn two_places(alloc: Global, reduce: Reduce, vtype: VType) -> Result<Rows, Fail>
    ensures places { IfOk result (λ rows. rows.places ≡ 2) }
    ensures vtype { IfOk result (λ rows. type_in rows 0 ≡ Some vtype) }
    ensures messages { IfOk result (λ rows. rows.messages ≡ 0) }
{
    let image = sound_of(alloc, Some(reduce), vtype)?;
    Ok(Rows::prepare(alloc, &image, 2)?)
}

// A batch of three messages to place 1.
fn three(alloc: Global, vtype: VType, a: Value, b: Value, c: Value) -> Result<KindBatch, NoMemory>
    requires first { type_of a ≡ vtype }
    requires second { type_of b ≡ vtype }
    requires third { type_of c ≡ vtype }
    ensures kind { IfOk result (λ batch. batch.kind ≡ 0) }
    ensures vtype { IfOk result (λ batch. batch.vtype ≡ vtype) }
    ensures messages { IfOk result (λ batch. batch.messages
        ≡ record { to = 1; kind = 0; values = a ∷ [] } ∷ record { to = 1; kind = 0; values = b ∷ [] }
        ∷ record { to = 1; kind = 0; values = c ∷ [] } ∷ []) }
{
    let mut batch = KindBatch::empty(alloc, 0, vtype);
    batch.add(1, a)?;
    batch.add(1, b)?;
    batch.add(1, c)?;
    Ok(batch)
}

// Rows in which three messages to place 1 were folded.
fn folded(
    alloc: Global,
    reduce: Reduce,
    vtype: VType,
    a: Value,
    b: Value,
    c: Value,
) -> Result<Rows, Fail>
    requires first { type_of a ≡ vtype }
    requires second { type_of b ≡ vtype }
    requires third { type_of c ≡ vtype }
    ensures { IfOk result (λ rows. rows.places ≡ 2) }
{
    let mut rows = two_places(alloc, reduce, vtype)?;
    let batch = three(alloc, vtype, a, b, c)?;
    rows.fold(&batch);
    Ok(rows)
}

// Compares totals.
fn check(rt: &impl Abort, found: Option<Total>, want: Option<Total>) {
    assert_eq!(rt; found, want);
}

// Compares the total of three messages with these numbers of 32 bits to place 1, and sees that place 0 has none.
fn check_total(
    rt: &(impl Abort + AllocGlobal),
    reduce: Reduce,
    (a, b, c): (i32, i32, i32),
    want: Total,
) -> Result<(), Fail> {
    let (a, b, c) = (Value::I32(a), Value::I32(b), Value::I32(c));
    let rows = folded(rt.alloc(), reduce, VType::I32, a, b, c)?;
    check(rt, rows.total(1, 0), Some(want));
    check(rt, rows.total(0, 0), None);
    Ok(())
}

// Compares the sum of three messages with the same number of 64 bits.
fn check_three_times(rt: &(impl Abort + AllocGlobal), number: i64, want: i128) -> Result<(), Fail> {
    let value = Value::I64(number);
    let rows = folded(rt.alloc(), Reduce::Sum, VType::I64, value, value, value)?;
    check(rt, rows.total(1, 0), Some(Total::Sum(want)));
    Ok(())
}

// Compares the combiner of a kind.
fn check_combiner(rt: &impl Abort, image: &Sound, kind: u32, want: Option<Reduce>) {
    assert_eq!(rt; combinable(image, kind), want);
}

#[test]
fn combiners(rt: HostRuntime) -> Result<(), Fail> {
    totals_are_worked();
    let image = sound_of(rt.alloc(), Some(Reduce::Sum), VType::I32)?;
    check_combiner(&rt, &image, 0, Some(Reduce::Sum));
    check_combiner(&rt, &image, 1, None);
    Ok(())
}

#[test]
fn no_combiner(rt: HostRuntime) -> Result<(), Fail> {
    let image = sound_of(rt.alloc(), None, VType::I32)?;
    check_combiner(&rt, &image, 0, None);
    Ok(())
}

#[test]
fn sums(rt: HostRuntime) -> Result<(), Fail> {
    check_total(&rt, Reduce::Sum, (5, 5, 7), Total::Sum(17))
}

// What comes is told, also where the sum is that of nothing.
#[test]
fn sums_that_are_zero(rt: HostRuntime) -> Result<(), Fail> {
    check_total(&rt, Reduce::Sum, (1, 0, -1), Total::Sum(0))
}

#[test]
fn sums_past_sixty_four_bits(rt: HostRuntime) -> Result<(), Fail> {
    check_three_times(&rt, i64::MAX, 27670116110564327421)?;
    check_three_times(&rt, i64::MIN, -27670116110564327424)
}

#[test]
fn the_least_and_the_greatest(rt: HostRuntime) -> Result<(), Fail> {
    check_total(&rt, Reduce::Min, (5, -2, 7), Total::Small(Value::I32(-2)))?;
    check_total(&rt, Reduce::Max, (5, -2, 7), Total::Small(Value::I32(7)))
}
