//! Parts of an image, and where they begin.

ghost use Rattle.std.specs.Prelude.{◌≡◌, ◌+◌, IfOk, OnOk};
ghost use Rattle.gm_lowering.specs.Lowered as Lowered;
ghost use Rattle.gm_lowering.specs.Places.{shown_places};
ghost use Rattle.gm_masters.specs.Parts.{as_at, as_part, past_by};

use gm_base::{NoMemory, Place};
use gm_image::{Block, MasterLine};
use gm_layouts::{Layout, next, small};
use gm_places::Places;
use std::alloc::Global;

/// What stays the same over a tree: where variables lie, and the last line of the master list.
#[derive(Clone, Copy)]
pub struct Frame<'a> {
    pub layout: &'a Layout<'a>,
    pub finish: u32,
}

/// Where a statement's part of the image begins: the line of the master list, the block, the kind and the place that come
/// next, and how many loops with a counter or a flag are around.
#[derive(Clone, Copy, Debug)]
pub struct At {
    pub line: u32,
    pub block: u32,
    pub kind: u32,
    pub place: u32,
    pub depth: u32,
}

/// A statement's part of the image, and how many kinds of messages it has.
#[derive(Drop)]
pub struct Part {
    pub commands: Vec<MasterLine>,
    pub blocks: Vec<Block>,
    pub places: Vec<Place>,
    pub kinds: u32,
}

impl Part {
    /// A part with nothing.
    pub fn new(alloc: Global) -> Part
        ensures part { as_part result ≡ Lowered.no_part }
        ensures kinds { result.kinds ≡ 0 }
    {
        Part {
            commands: Vec::new(alloc),
            blocks: Vec::new(alloc),
            places: Vec::new(alloc),
            kinds: 0,
        }
    }

    /// Puts a part behind this one.
    pub fn append(&mut self, more: Part) -> Result<(), NoMemory>
        ensures part { OnOk result (as_part self.new ≡ Lowered.both (as_part self.old) (as_part more)) }
        ensures kinds { OnOk result (self.new.kinds ≡ self.old.kinds + more.kinds) }
    {
        let mut more = more;
        self.commands.append(&mut more.commands)?;
        self.blocks.append(&mut more.blocks)?;
        self.places.append(&mut more.places)?;
        self.kinds = sum(self.kinds, more.kinds)?;
        Ok(())
    }
}

/// The sum of two numbers of parts of an image.
pub(crate) fn sum(a: u32, b: u32) -> Result<u32, NoMemory>
    ensures { IfOk result (λ r. r ≡ a + b) }
{
    match a.checked_add(b) {
        Some(both) => Ok(both),
        None => Err(NoMemory),
    }
}

impl At {
    /// Behind some lines of the master list.
    pub(crate) fn lines_on(self, count: u32) -> Result<At, NoMemory>
        ensures { IfOk result (λ r. as_at r ≡ Lowered.lines_on count (as_at self)) }
    {
        Ok(At {
            line: sum(self.line, count)?,
            ..self
        })
    }

    /// Behind what places show.
    #[tactic(auto, using(crate::proofs::Counts::as_many_shown))]
    pub(crate) fn places_on(self, places: &Places) -> Result<At, NoMemory>
        ensures { IfOk result (λ r. as_at r ≡ Lowered.places_on (shown_places places.now) (as_at self)) }
    {
        Ok(At {
            place: sum(self.place, small(places.len())?)?,
            ..self
        })
    }

    /// In a loop with a counter or a flag.
    pub(crate) fn deeper(self) -> Result<At, NoMemory>
        ensures { IfOk result (λ r. as_at r ≡ Lowered.deeper (as_at self)) }
    {
        Ok(At {
            depth: next(self.depth)?,
            ..self
        })
    }

    /// Behind a part.
    #[tactic(auto, using(crate::proofs::Counts::as_many_commands, crate::proofs::Counts::as_many_blocks))]
    pub(crate) fn past(self, part: &Part) -> Result<At, NoMemory>
        ensures { IfOk result (λ r. as_at r ≡ past_by (as_at self) (as_part part.now) part.now.kinds) }
    {
        Ok(At {
            line: sum(self.line, small(part.commands.len())?)?,
            block: sum(self.block, small(part.blocks.len())?)?,
            kind: sum(self.kind, part.kinds)?,
            place: sum(self.place, small(part.places.len())?)?,
            depth: self.depth,
        })
    }
}
