//! The totals of all combinable kinds.

ghost use Rattle.std.specs.Prelude.{◌≡◌, ◌<◌, ◌+◌, ◌^◌, ◌++◌, ℕ, IfOk, IfSome, All, List, None, Some, length, map};
ghost use Rattle.std.specs.Option.{option_map};
ghost use Rattle.gm_value.specs.declared.reductions.Reduce.{Reduce};
ghost use Rattle.gm_value.specs.Numbers.{number_of};
ghost use Rattle.gm_value.specs.Bag.{SameBag};
ghost use Rattle.gm_value.specs.Totals.{HasRoom};
ghost use Rattle.gm_image.specs.Views.{program};
ghost use Rattle.gm_machine.specs.Combining.{combiner};
ghost use Rattle.gm_machine.specs.Vertex.{Message};
ghost use Rattle.gm_combine.specs.Held.{AreTotals, reduce_in, type_in, total_in, type_of_kind, IsRow, value_type, type_if, type_held, reduce_held, total_held, TakesMore, HasPlace};
ghost use Rattle.gm_combine.specs.Batches.{values_of, type_carried};
ghost use Rattle.gm_combine.specs.Folds.{placed, AddsAll};

use crate::batches::{Carried, KindBatch};
use crate::typed_rows::TypedRow;
use gm_base::NoMemory;
use gm_image::{Kind, Sound};
use gm_value::{Reduce, Total, VType};
use std::alloc::Global;
use std::marker::Model;

/// The combiner of a kind of messages; None exactly where the image names none.
pub fn combinable(image: &Sound, kind: u32) -> Option<Reduce>
    ensures { result ≡ combiner (program image.now) kind }
{
    match image.image().kinds.as_slice().get(kind as usize) {
        Some(kind) => kind.combiner,
        None => None,
    }
}

/// The totals of one kind, and its combiner.
#[derive(Drop)]
pub(crate) struct KindRow {
    pub(crate) reduce: Reduce,
    pub(crate) row: TypedRow,
}

/// The exact totals of the messages that were folded, for each combinable kind and each of a worker's nodes.
#[derive(Drop)]
pub struct Rows {
    width: usize,
    messages: u64,
    kinds: Vec<Option<KindRow>>,
}

impl Model for Rows {
    ghost use Rattle.gm_combine.specs.Held.{HeldRows};

    ghost Value = { HeldRows };

    ghost use Rattle.std.specs.Prelude.{ℕ, ◌<◌, ◌^◌};
    ghost use Rattle.gm_combine.specs.Held.{row_at, IsRow};

    ghost view = { λ r. record { places = r.width; messages = r.messages; kinds = r.kinds.items } };

    ghost invariant = { λ r. (r.messages < 2 ^ 62) × ((kind : ℕ) → IsRow r.width r.messages (row_at r.kinds.items kind)) };
}

// The type of the values of a kind.
fn value_type(kind: &Kind) -> VType
    ensures { result ≡ value_type kind.now }
{
    match kind.values.as_slice().first() {
        Some(vtype) => *vtype,
        None => VType::I32,
    }
}

// An empty row for a kind, where it is combinable.
fn kind_row(alloc: Global, kind: &Kind, width: usize) -> Result<Option<KindRow>, NoMemory>
    ensures row { IfOk result (λ row. IsRow width 0 row) }
    ensures reduce { IfOk result (λ row. option_map (λ k. k.reduce) row ≡ kind.now.combiner) }
    ensures vtype { IfOk result (λ row. type_held row ≡ type_if kind.now) }
    ensures none { IfOk result (λ row. (place : ℕ) → total_held row place ≡ None) }
{
    match kind.combiner {
        Some(reduce) => {
            let row = TypedRow::prepare(alloc, reduce, value_type(kind), width)?;
            Ok(Some(KindRow { reduce, row }))
        }
        None => Ok(None),
    }
}

// Adds values at places to the row of a kind.
fn add_to(row: &mut Option<KindRow>, places: &[u32], values: &Carried)
    requires vtype { type_held row.old ≡ Some (type_carried values.now) }
    requires values { length (values_of values.now) ≡ length places.now }
    requires takes { TakesMore places.now row.old }
    ensures vtype { type_held row.new ≡ type_held row.old }
    ensures reduce { reduce_held row.new ≡ reduce_held row.old }
    ensures is { (width messages : ℕ) → IsRow width messages row.old → IsRow width (messages + length places.now) row.new }
    ensures added { (r : Reduce) → reduce_held row.old ≡ Some r
        → AddsAll r (total_held row.old) (placed places.now (map number_of (values_of values.now))) (total_held row.new) }
{
    if let Some(kind) = row {
        kind.row.add(places, values);
    }
}

// The total at a place of a kind's row, if there is such a row.
fn total_at(row: &Option<KindRow>, place: usize) -> Option<Total>
    requires { HasPlace place row.now }
    ensures total { result ≡ total_held row.now place }
    ensures room { IfSome result HasRoom }
{
    match row {
        Some(kind) => kind.row.total(place),
        None => None,
    }
}

impl Rows {
    /// Empty rows for the combinable kinds of an image, at so many places.
    pub fn prepare(alloc: Global, image: &Sound, width: usize) -> Result<Rows, NoMemory>
        ensures places { IfOk result (λ rows. rows.places ≡ width) }
        ensures reduces { IfOk result (λ rows. (kind : ℕ) → reduce_in rows kind ≡ combiner (program image.now) kind) }
        ensures types { IfOk result (λ rows. (kind : ℕ) → type_in rows kind ≡ type_of_kind (program image.now) kind) }
        ensures messages { IfOk result (λ rows. rows.messages ≡ 0) }
        ensures none { IfOk result (λ rows. (kind place : ℕ) → total_in rows kind place ≡ None) }
    {
        let mut kinds = Vec::new(alloc);
        for kind in image.image().kinds.as_slice() {
            let row = kind_row(alloc, kind, width)?;
            kinds.push(row)?;
        }
        Ok(Rows {
            width,
            messages: 0,
            kinds,
        })
    }

    /// Folds a batch of messages. It takes no memory.
    pub fn fold(&mut self, batch: &KindBatch)
        requires vtype { type_in self.old batch.now.kind ≡ Some batch.now.vtype }
        requires places { All (λ m. m.to < self.old.places) batch.now.messages }
        requires few { self.old.messages + length batch.now.messages < 2 ^ 62 }
        ensures places { self.new.places ≡ self.old.places }
        ensures reduces { (kind : ℕ) → reduce_in self.new kind ≡ reduce_in self.old kind }
        ensures types { (kind : ℕ) → type_in self.new kind ≡ type_in self.old kind }
        ensures messages { self.new.messages ≡ self.old.messages + length batch.now.messages }
        ensures totals { (messages more : List Message) → AreTotals self.old messages
            → SameBag more (messages ++ batch.now.messages) → AreTotals self.new more }
    {
        let places = batch.places.as_slice();
        add_to(&mut self.kinds[batch.kind as usize], places, &batch.values);
        self.messages += places.len() as u64;
    }

    /// The exact total of the messages of a kind to the node at a place; None where none came, and where the kind is
    /// not combinable.
    pub fn total(&self, place: usize, kind: u32) -> Option<Total>
        requires { place < self.now.places }
        ensures total { result ≡ total_in self.now kind place }
        ensures room { IfSome result HasRoom }
    {
        let kinds = self.kinds.as_slice();
        if (kind as usize) < kinds.len() {
            let row = &kinds[kind as usize];
            total_at(row, place)
        } else {
            None
        }
    }
}
