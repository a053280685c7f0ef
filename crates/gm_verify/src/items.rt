//! The declarations of inputs, outputs and the result, and the procedure's name.

ghost use Rattle.std.specs.Prelude.{◌≡◌, ◌+◌, ◌<◌, ◌≤◌, List, [], ◌∷◌, ◌++◌, OnOk, length, map, filter};
ghost use Rattle.std.specs.List.{list_all};
ghost use Rattle.gm_image.specs.Program as P;
ghost use Rattle.gm_image.specs.Views.{program, input, output};
ghost use Rattle.gm_image.specs.Rows.{NameRow, InputRow, OutputRow, ResultRow, ColumnsRow, rows_after};
ghost use Rattle.gm_image.specs.Indices.{held_by};
ghost use Rattle.gm_image.specs.Fits.{type_holds};
ghost use Rattle.gm_image.specs.Names.{is_name_byte, is_letter, begins_with_letter, is_name, is_of_edges, has_new_name, has_new_slot, may_hold, follows_edges, input_keeps};
ghost use Rattle.gm_image.specs.Soundness.{broken_rule};
ghost use Rattle.gm_value.specs.Operations.{same_type};
ghost use Rattle.gm_verify.specs.Checks.{Checks};
ghost use Rattle.gm_image.specs.Items.{item_of, holder_of};
ghost use Rattle.gm_verify.specs.Items.{Shows};

use crate::sorts::type_at;
use crate::stops::{VerifyStop, next_line};
use gm_image::{Holder, Image, ImageRule, InputItem, Item, OutputItem};
use gm_value::VType;
use std::alloc::{AllocError, Global};
use std::collections::HashSet;

// The types of what a holder's slots hold.
fn held_by(image: &Image, holder: Holder) -> &[VType]
    ensures { result.now ≡ held_by (program image.now) (holder_of holder) }
{
    match holder {
        Holder::Scalar => image.globals.as_slice(),
        Holder::Node => image.fields.as_slice(),
        Holder::Edge => image.columns.as_slice(),
    }
}

// Whether a type is that of a slot, where there is one.
fn fits_slot(t: VType, slot: Option<VType>) -> bool
    ensures { result ≡ type_holds (same_type t) slot }
{
    match slot {
        None => true,
        Some(u) => t == u,
    }
}

fn is_letter(byte: u8) -> bool
    ensures { result ≡ is_letter byte }
{
    (65 <= byte && byte <= 90) || (97 <= byte && byte <= 122) || byte == 95
}

fn is_name_byte(byte: u8) -> bool
    ensures { result ≡ is_name_byte byte }
{
    is_letter(byte) || (48 <= byte && byte <= 57)
}

// Whether bytes begin with a letter or `_`.
fn begins_with_letter(bytes: &[u8]) -> bool
    ensures { result ≡ begins_with_letter bytes.now }
{
    match bytes.first() {
        None => false,
        Some(first) => is_letter(*first),
    }
}

// Whether all bytes may stand in a name.
fn are_name_bytes(bytes: &[u8]) -> bool
    ensures { result ≡ list_all is_name_byte bytes.now }
{
    bytes.iter().all(|byte| is_name_byte(*byte))
}

// Whether bytes are a name.
fn is_name(bytes: &[u8]) -> bool
    ensures { result ≡ is_name bytes.now }
{
    begins_with_letter(bytes) && are_name_bytes(bytes)
}

// The names and the slots of some items, and how many of them are edge inputs.
#[derive(Drop)]
pub struct Seen<'a> {
    pub names: HashSet<&'a [u8]>,
    pub globals: HashSet<u32>,
    pub fields: HashSet<u32>,
    pub columns: HashSet<u32>,
    pub edges: usize,
}

impl<'a> Seen<'a> {
    // Of no items.
    fn new(alloc: Global) -> Seen<'a>
        ensures { Shows result [] }
    {
        Seen {
            names: HashSet::new(alloc),
            globals: HashSet::new(alloc),
            fields: HashSet::new(alloc),
            columns: HashSet::new(alloc),
            edges: 0,
        }
    }

    // Whether an item has a name that none of them has.
    fn has_new_name(&self, item: Item) -> bool
        ensures { (before : List P.Item) → Shows self.now before → result ≡ has_new_name before (item_of item.entry) }
    {
        !self.names.contains(&item.name)
    }

    // Whether an input has a slot that none of them has.
    fn has_new_slot(&self, item: Item) -> bool
        ensures { (before : List P.Item) → Shows self.now before → result ≡ has_new_slot before (item_of item.entry) }
    {
        let slots = match item.holder {
            Holder::Scalar => &self.globals,
            Holder::Node => &self.fields,
            Holder::Edge => &self.columns,
        };
        !slots.contains(&item.slot)
    }

    // Adds an item.
    fn add(&mut self, item: Item<'a>) -> Result<(), AllocError>
        requires { self.old.edges < 18446744073709551615 }
        ensures { OnOk result ((before : List P.Item) → Shows self.old before → Shows self.new (before ++ item_of item.entry ∷ [])) }
    {
        self.names.insert(item.name)?;
        match item.holder {
            Holder::Scalar => {
                self.globals.insert(item.slot)?;
            }
            Holder::Node => {
                self.fields.insert(item.slot)?;
            }
            Holder::Edge => {
                self.columns.insert(item.slot)?;
                self.edges += 1;
            }
        }
        Ok(())
    }
}

// Whether a property may have a type: one of nodes or edges has no nodes as values.
fn may_hold(holder: Holder, t: VType) -> bool
    ensures { result ≡ may_hold (holder_of holder) t }
{
    holder == Holder::Scalar || t != VType::Node
}

// Whether an edge input's slot is the one after those of the edge inputs before it.
fn follows_edges(seen: &Seen, item: Item) -> bool
    ensures { (before : List P.Item) → Shows seen.now before → result ≡ follows_edges (item_of item.entry).holder (item_of item.entry).slot before }
{
    item.holder != Holder::Edge || item.slot as usize == seen.edges
}

// Whether an input keeps the rule of names and inputs.
fn input_keeps(seen: &Seen, item: Item) -> bool
    ensures { (before : List P.Item) → Shows seen.now before → result ≡ input_keeps before (item_of item.entry) }
{
    is_name(item.name)
        && seen.has_new_name(item)
        && seen.has_new_slot(item)
        && may_hold(item.holder, item.vtype)
        && follows_edges(seen, item)
}

// The least rule that an input breaks.
fn input_rule(image: &Image, seen: &Seen, item: Item) -> Option<ImageRule>
    ensures { (before : List P.Item) → Shows seen.now before → result ≡ broken_rule (program image.now) (InputRow before (item_of item.entry)) }
{
    let held = held_by(image, item.holder);
    if item.slot as usize >= held.len() {
        return Some(ImageRule::I1);
    }
    if !fits_slot(item.vtype, type_at(held, item.slot)) {
        return Some(ImageRule::I2);
    }
    if !input_keeps(seen, item) {
        return Some(ImageRule::I10);
    }
    None
}

// The least rule that an output breaks.
fn output_rule(image: &Image, seen: &Seen, item: Item) -> Option<ImageRule>
    ensures { (before : List P.Item) → Shows seen.now before → result ≡ broken_rule (program image.now) (OutputRow before (item_of item.entry)) }
{
    let held = held_by(image, item.holder);
    if item.slot as usize >= held.len() {
        return Some(ImageRule::I1);
    }
    if !fits_slot(item.vtype, type_at(held, item.slot)) {
        return Some(ImageRule::I2);
    }
    if !is_name(item.name) || !seen.has_new_name(item) {
        return Some(ImageRule::I10);
    }
    None
}

// Checks the inputs, of which the first has a number in the text.
pub fn check_inputs(
    alloc: Global,
    image: &Image,
    inputs: &[InputItem],
    number: u64,
) -> Result<u64, VerifyStop>
    requires { number + length inputs.now ≤ 4294967296 }
    ensures { Checks (program image.now) number (rows_after InputRow [] (map input inputs.now)) result }
{
    let mut seen = Seen::new(alloc);
    let mut next = number;
    for declared in inputs {
        let item = declared.item();
        let rule = input_rule(image, &seen, item);
        next = next_line(rule, next)?;
        seen.add(item)?;
    }
    Ok(next)
}

// Checks the outputs, of which the first has a number in the text.
pub fn check_outputs(
    alloc: Global,
    image: &Image,
    outputs: &[OutputItem],
    number: u64,
) -> Result<u64, VerifyStop>
    requires { number + length outputs.now ≤ 4294967296 }
    ensures { Checks (program image.now) number (rows_after OutputRow [] (map output outputs.now)) result }
{
    let mut seen = Seen::new(alloc);
    let mut next = number;
    for declared in outputs {
        let item = declared.item();
        let rule = output_rule(image, &seen, item);
        next = next_line(rule, next)?;
        seen.add(item)?;
    }
    Ok(next)
}

// The least rule that the line of the procedure's name breaks.
pub fn name_rule(image: &Image) -> Option<ImageRule>
    ensures { result ≡ broken_rule (program image.now) NameRow }
{
    if !is_name(image.name.as_slice()) {
        return Some(ImageRule::I10);
    }
    None
}

// The least rule that the line of the result breaks.
pub fn result_rule(image: &Image) -> Option<ImageRule>
    ensures { result ≡ broken_rule (program image.now) ResultRow }
{
    let (t, slot) = image.result?;
    let globals = image.globals.as_slice();
    if slot as usize >= globals.len() {
        return Some(ImageRule::I1);
    }
    if !fits_slot(t, type_at(globals, slot)) {
        return Some(ImageRule::I2);
    }
    None
}

// How many inputs are of edges.
fn edge_count(inputs: &[InputItem]) -> usize
    ensures { result ≡ length (filter is_of_edges (map input inputs.now)) }
{
    let _all = inputs.len();
    let mut count = 0;
    for declared in inputs {
        match declared {
            InputItem::Edge { .. } => count += 1,
            InputItem::Scalar { .. } | InputItem::Node { .. } => {}
        }
    }
    count
}

// The least rule that the header of the columns breaks.
pub fn columns_rule(image: &Image) -> Option<ImageRule>
    ensures { result ≡ broken_rule (program image.now) ColumnsRow }
{
    if image.columns.len() != edge_count(image.inputs.as_slice()) {
        return Some(ImageRule::I10);
    }
    None
}
