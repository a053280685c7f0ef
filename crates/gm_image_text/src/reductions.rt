//! Reading reductions: of one slot with its value, or of several.

ghost use Rattle.std.specs.Prelude.{◌≡◌, [], ◌∷◌, Some, map};
ghost use Rattle.gm_image.specs.Fits.{is_extreme as is_extreme_lem};
ghost use Rattle.gm_image.specs.Views.{term, target};
ghost use Rattle.gm_image_text.specs.Tables.{row_in, reductions};
ghost use Rattle.gm_image_text.specs.Reading.{words_left, word_at, reduced_in, extreme_in, target_at, all_in, counted as counted_lem, several_in, picked_in};
ghost use Rattle.gm_image_text.specs.Giving.{GivesLine};

use crate::expressions::{index, index_and_expression, line_expression};
use crate::faults::LineStop;
use crate::heads::{REDUCTIONS, Version};
use crate::tables::known;
use crate::words::{Words, next_word};
use gm_base::Items;
use gm_image::Expr;
use gm_value::Reduce;
use std::alloc::Global;

// The reduction that a word says.
#[tactic(auto, unfolding(crate::specs::Tables::reductions))]
fn reduction_in(word: &[u8]) -> Result<Reduce, LineStop>
    ensures { GivesLine (λ x. x) result (row_in reductions word.now) }
{
    known(&REDUCTIONS, word)
}

// A reduction.
fn reduction<'a>(words: Words<'a>) -> Result<(Reduce, Words<'a>), LineStop>
    ensures { GivesLine (λ x. (x.0, words_left x.1)) result (word_at (row_in reductions) (words_left words.entry)) }
{
    let (word, rest) = next_word(words)?;
    let reduce = reduction_in(word)?;
    Ok((reduce, rest))
}

// A reduction, a place, and one slot with its value, which are all words.
pub fn reduced(alloc: Global, words: Words) -> Result<(Reduce, u32, (u32, Expr)), LineStop>
    ensures { GivesLine (λ x. (x.0, (x.1, (x.2.0, term x.2.1)))) result (reduced_in (words_left words.entry)) }
{
    let (reduce, rest) = reduction(words)?;
    let (place, rest) = index(rest)?;
    let slot = index_and_expression(alloc, rest)?;
    Ok((reduce, place, slot))
}

// A list of one thing.
pub fn single<T: Drop>(alloc: Global, item: T) -> Result<Items<T>, LineStop>
    ensures { GivesLine (λ x. x) result (Some (item ∷ [])) }
{
    let mut items = Vec::new(alloc);
    items.push(item)?;
    Ok(Items::new(items))
}

// Whether a reduction takes the least or the greatest.
fn is_extreme(reduce: Reduce) -> bool
    ensures { result ≡ is_extreme_lem reduce }
{
    matches!(reduce, Reduce::Min | Reduce::Max)
}

// The least or the greatest, as a word says it.
fn extreme(word: &[u8]) -> Result<Reduce, LineStop>
    ensures { GivesLine (λ x. x) result (extreme_in word.now) }
{
    let reduce = reduction_in(word)?;
    if is_extreme(reduce) {
        Ok(reduce)
    } else {
        Err(LineStop::Bad)
    }
}

// A slot and its value.
fn slot<'a>(alloc: Global, words: Words<'a>) -> Result<((u32, Expr), Words<'a>), LineStop>
    ensures { GivesLine (λ x. (target x.0, words_left x.1)) result (target_at (words_left words.entry)) }
{
    let (i, rest) = index(words)?;
    let (value, rest) = line_expression(alloc, rest)?;
    Ok(((i, value), rest))
}

// Slots with their values to the end of the line.
fn line_slots(alloc: Global, words: Words) -> Result<Vec<(u32, Expr)>, LineStop>
    ensures { GivesLine (λ x. map target x.items) result (all_in target_at (words_left words.entry)) }
{
    let mut slots = Vec::new(alloc);
    let mut rest = words;
    'slots: while rest.is_some() {
        let (slot, behind) = slot(alloc, rest)?;
        slots.push(slot)?;
        rest = behind;
    }
    Ok(slots)
}

// Two things and more, where a count says how many they are.
fn counted<T: Drop>(count: u32, items: Vec<T>) -> Result<Items<T>, LineStop>
    ensures { GivesLine (λ x. x) result (counted_lem count items.items) }
{
    if 1 < count && count as usize == items.len() {
        Ok(Items::new(items))
    } else {
        Err(LineStop::Bad)
    }
}

// A count, and behind it so many slots with their values, which are all words.
fn several(alloc: Global, words: Words) -> Result<Items<(u32, Expr)>, LineStop>
    ensures { GivesLine (λ x. map target x) result (several_in (words_left words.entry)) }
{
    let (count, rest) = index(words)?;
    let slots = line_slots(alloc, rest)?;
    counted(count, slots)
}

// The least or the greatest.
fn extreme_word<'a>(words: Words<'a>) -> Result<(Reduce, Words<'a>), LineStop>
    ensures { GivesLine (λ x. (x.0, words_left x.1)) result (word_at extreme_in (words_left words.entry)) }
{
    let (word, rest) = next_word(words)?;
    let reduce = extreme(word)?;
    Ok((reduce, rest))
}

// The least or the greatest, a place, and several slots with their values, which are all words.
fn extreme_of(alloc: Global, words: Words) -> Result<(Reduce, u32, Items<(u32, Expr)>), LineStop>
    ensures { GivesLine (λ x. (x.0, (x.1, map target x.2))) result (picked_in Version.Two (words_left words.entry)) }
{
    let (reduce, rest) = extreme_word(words)?;
    let (place, rest) = index(rest)?;
    let slots = several(alloc, rest)?;
    Ok((reduce, place, slots))
}

// The same in a version that has reductions of several slots.
pub fn picked(
    alloc: Global,
    version: Version,
    words: Words,
) -> Result<(Reduce, u32, Items<(u32, Expr)>), LineStop>
    ensures { GivesLine (λ x. (x.0, (x.1, map target x.2))) result (picked_in version (words_left words.entry)) }
{
    match version {
        Version::One => Err(LineStop::Bad),
        Version::Two => extreme_of(alloc, words),
    }
}
