//! Reading the numbers of an image. What goes in is an image, and what comes out is known of it: each number is in its
//! type's range, as each value of the program is. The image is gone through once.

ghost use Rattle.std.specs.Prelude.{◌≡◌, map};
ghost use Rattle.std.specs.List.{AllByRecursion};
ghost use Rattle.gm_image.specs.Views.{term, target, line, command, input, output, handler, block, program};
ghost use Rattle.gm_image.specs.Ranges.{IsIndex, InRange, TargetRanged, LineRanged, CommandRanged, InputRanged, OutputRanged, HandlerRanged, BlockRanged, PlaceIsIndex, ResultFits, Ranged};

use crate::images::{Block, Handler, Image, InputItem, OutputItem};
use crate::lines::{Expr, MasterLine, VertexLine};
use crate::shapes::Shape;
use gm_base::{Items, Place};
use gm_value::VType;

// What has numbers.
pub trait Numbered {
    // Its numbers are in their ranges.
    ghost ranged: { Self → Type 0 };

    // Reads its numbers.
    fn read_numbers(&self)
        ensures { ranged self.now };
}

// Reads the numbers of each.
fn read_all<T: Numbered>(items: &[T])
    ensures { AllByRecursion T.ranged items.now }
{
    for item in items {
        item.read_numbers();
    }
}

// Reads the numbers of each item.
fn read_items<T: Numbered>(items: &Items<T>)
    ensures { AllByRecursion T.ranged items.now }
{
    read_all(items.as_slice());
}

// Reads an index or a count.
fn read_index(index: u32)
    ensures { IsIndex index }
{
    let _index = index;
}

impl Numbered for Place {
    ghost ranged = { PlaceIsIndex };

    fn read_numbers(&self) {
        let _line = self.line;
        let _col = self.col;
    }
}

impl Numbered for Expr {
    ghost ranged = { λ e. InRange (term e) };

    fn read_numbers(&self) {
        match self.shape() {
            Shape::Leaf(_) => {}
            Shape::One(_, a) => a.read_numbers(),
            Shape::Two(_, a, b) => {
                a.read_numbers();
                b.read_numbers();
            }
            Shape::Choose(c, a, b) => {
                c.read_numbers();
                a.read_numbers();
                b.read_numbers();
            }
        }
    }
}

impl Numbered for (u32, Expr) {
    ghost ranged = { λ t. TargetRanged (target t) };

    fn read_numbers(&self) {
        read_index(self.0);
        self.1.read_numbers();
    }
}

// Reads an index and the numbers of an expression.
fn read_set(index: u32, value: &Expr)
    ensures { IsIndex index × InRange (term value.now) }
{
    read_index(index);
    value.read_numbers();
}

// Reads the numbers of a reduction.
fn read_reduction(place: u32, slots: &Items<(u32, Expr)>)
    ensures { IsIndex place × AllByRecursion TargetRanged (map target slots.now) }
{
    read_index(place);
    read_items(slots);
}

// Reads the numbers of a message.
fn read_message(kind: u32, to: &Expr, values: &Items<Expr>)
    ensures { IsIndex kind × InRange (term to.now) × AllByRecursion InRange (map term values.now) }
{
    read_index(kind);
    to.read_numbers();
    read_items(values);
}

impl Numbered for VertexLine {
    ghost ranged = { λ l. LineRanged (line l) };

    fn read_numbers(&self) {
        match self {
            VertexLine::SetField(field, value) => read_set(*field, value),
            VertexLine::SetRegister(register, value) => read_set(*register, value),
            VertexLine::Skip(count, condition) => read_set(*count, condition),
            VertexLine::Fold { place, slots, .. } => read_reduction(*place, slots),
            VertexLine::Put { place, slots, .. } => read_reduction(*place, slots),
            VertexLine::Send { kind, to, values } => read_message(*kind, to, values),
            VertexLine::EachOut(count) => read_index(*count),
            VertexLine::EachIn(count) => read_index(*count),
        }
    }
}

impl Numbered for MasterLine {
    ghost ranged = { λ l. CommandRanged (command l) };

    fn read_numbers(&self) {
        match self {
            MasterLine::SetGlobal(global, value) => read_set(*global, value),
            MasterLine::Test(target, condition) => read_set(*target, condition),
            MasterLine::Turn(exit, condition) => read_set(*exit, condition),
            MasterLine::Step(block) => read_index(*block),
            MasterLine::Jump(target) => read_index(*target),
            MasterLine::Back(head) => read_index(*head),
            MasterLine::Finish => {}
        }
    }
}

impl Numbered for InputItem {
    ghost ranged = { λ i. InputRanged (input i) };

    fn read_numbers(&self) {
        match self {
            InputItem::Scalar { slot, .. } => read_index(*slot),
            InputItem::Node { slot, .. } => read_index(*slot),
            InputItem::Edge { slot, .. } => read_index(*slot),
        }
    }
}

impl Numbered for OutputItem {
    ghost ranged = { λ i. OutputRanged (output i) };

    fn read_numbers(&self) {
        match self {
            OutputItem::Scalar { slot, .. } => read_index(*slot),
            OutputItem::Node { slot, .. } => read_index(*slot),
        }
    }
}

impl Numbered for Handler {
    ghost ranged = { λ h. HandlerRanged (handler h) };

    fn read_numbers(&self) {
        read_index(self.kind);
        read_items(&self.lines);
    }
}

impl Numbered for Block {
    ghost ranged = { λ b. BlockRanged (block b) };

    fn read_numbers(&self) {
        read_items(&self.handlers);
        read_items(&self.body);
    }
}

// Reads the numbers of a result.
fn read_result(outcome: Option<(VType, u32)>)
    ensures { ResultFits outcome }
{
    match outcome {
        None => {}
        Some((_, slot)) => read_index(slot),
    }
}

// Reads the numbers of an image.
pub fn read_image_numbers(image: &Image)
    ensures { Ranged (program image.now) }
{
    read_items(&image.inputs);
    read_items(&image.outputs);
    read_result(image.result);
    read_items(&image.places);
    read_items(&image.blocks);
    read_items(&image.master);
}
