//! Batches of messages of one combinable kind.

ghost use Rattle.std.specs.Prelude.{◌≡◌, ◌∷◌, ◌++◌, [], OnOk, OnErr, length};
ghost use Rattle.gm_value.specs.Numbers.{type_of};
ghost use Rattle.gm_combine.specs.Batches.{values_of, type_carried};

use gm_base::NoMemory;
use gm_value::{VType, Value};
use std::alloc::Global;
use std::marker::Model;

/// Values of one type.
#[derive(Drop)]
pub(crate) enum Carried {
    Ints(Vec<i32>),
    Longs(Vec<i64>),
    Flags(Vec<bool>),
    Nodes(Vec<Option<u32>>),
}

/// Messages of one kind with one value each, in typed rows. A message is addressed by the place of its node among the
/// nodes of the worker that it is for.
#[derive(Drop)]
pub struct KindBatch {
    pub(crate) kind: u32,
    pub(crate) places: Vec<u32>,
    pub(crate) values: Carried,
}

impl Model for KindBatch {
    ghost use Rattle.gm_combine.specs.Batches.{Messages};

    ghost Value = { Messages };

    ghost use Rattle.std.specs.Prelude.{◌≡◌, length};
    ghost use Rattle.gm_combine.specs.Batches.{messages_to, values_of, type_carried};

    ghost view = { λ b. record {
      kind = b.kind;
      vtype = type_carried b.values;
      messages = messages_to b.kind b.places.items (values_of b.values);
    } };

    ghost invariant = { λ b. length (values_of b.values) ≡ length b.places.items };
}

// No value of a type.
fn no_values(alloc: Global, vtype: VType) -> Carried
    ensures none { values_of result ≡ [] }
    ensures typed { type_carried result ≡ vtype }
{
    match vtype {
        VType::I32 => Carried::Ints(Vec::new(alloc)),
        VType::I64 => Carried::Longs(Vec::new(alloc)),
        VType::Flag => Carried::Flags(Vec::new(alloc)),
        VType::Node => Carried::Nodes(Vec::new(alloc)),
    }
}

// Adds a value of the type.
#[inline(always)]
fn push(values: &mut Carried, value: Value) -> Result<(), NoMemory>
    requires { type_of value ≡ type_carried values.old }
    ensures typed { type_carried values.new ≡ type_carried values.old }
    ensures added { OnOk result (values_of values.new ≡ values_of values.old ++ value ∷ []) }
    ensures unchanged { OnErr result (values_of values.new ≡ values_of values.old) }
{
    match (values, value) {
        (Carried::Ints(cells), Value::I32(cell)) => cells.push(cell)?,
        (Carried::Longs(cells), Value::I64(cell)) => cells.push(cell)?,
        (Carried::Flags(cells), Value::Flag(cell)) => cells.push(cell)?,
        (Carried::Nodes(cells), Value::At(cell)) => cells.push(cell)?,
        _ => unreachable!(),
    }
    Ok(())
}

impl KindBatch {
    /// No message, of a kind whose messages carry one value of a type. It keeps the allocator and takes no memory.
    pub fn empty(alloc: Global, kind: u32, vtype: VType) -> KindBatch
        ensures kind { result.kind ≡ kind }
        ensures vtype { result.vtype ≡ vtype }
        ensures messages { result.messages ≡ [] }
    {
        KindBatch {
            kind,
            places: Vec::new(alloc),
            values: no_values(alloc, vtype),
        }
    }

    /// Adds a message to the node at a place. Where there is not enough memory the batch stays as it was.
    #[inline(always)]
    pub fn add(&mut self, place: u32, value: Value) -> Result<(), NoMemory>
        requires { type_of value ≡ self.old.vtype }
        ensures kind { self.new.kind ≡ self.old.kind }
        ensures vtype { self.new.vtype ≡ self.old.vtype }
        ensures added { OnOk result (self.new.messages
            ≡ self.old.messages ++ record { to = place; kind = self.old.kind; values = value ∷ [] } ∷ []) }
        ensures unchanged { OnErr result (self.new.messages ≡ self.old.messages) }
    {
        self.places.push(place)?;
        match push(&mut self.values, value) {
            Ok(()) => Ok(()),
            Err(NoMemory) => {
                self.places.pop();
                Err(NoMemory)
            }
        }
    }

    /// How many messages there are.
    pub fn len(&self) -> usize
        ensures { result ≡ length self.now.messages }
    {
        self.places.as_slice().len()
    }
}
