//! Whether images do over graphs what is written of their programs: outputs, results, faults with their places, turns, cuts.

use crate::compare::same;
use crate::compiled::{compiled, parted_and_lowered};
use crate::listings::outcome_of;
use std::alloc::Global;
use std::process::Abort;
use std::sync::Wait;
use std::test::Fail;
use std::thread::Threads;

/// Whether the image of a program does over a graph what is wanted, before any supersteps are merged.
pub(crate) fn lowered_does(
    rt: &(impl Abort + Threads + Wait + Sync),
    alloc: Global,
    words: &str,
    text: &str,
    graph: &str,
    wanted: &str,
) -> Result<(), Fail> {
    let image = parted_and_lowered(alloc, text)?;
    let outcome = outcome_of(rt, alloc, words, &image, graph)?;
    same(rt, outcome.as_str(), wanted, text);
    Ok(())
}

// Whether the image that the compiler makes does.
fn compiled_does(
    rt: &(impl Abort + Threads + Wait + Sync),
    alloc: Global,
    words: &str,
    text: &str,
    graph: &str,
    wanted: &str,
) -> Result<(), Fail> {
    let image = compiled(alloc, text)?;
    let outcome = outcome_of(rt, alloc, words, &image, graph)?;
    same(rt, outcome.as_str(), wanted, text);
    Ok(())
}

/// Whether both images of a program do over a graph what is wanted.
pub(crate) fn images_do(
    rt: &(impl Abort + Threads + Wait + Sync),
    alloc: Global,
    words: &str,
    text: &str,
    graph: &str,
    wanted: &str,
) -> Result<(), Fail> {
    lowered_does(rt, alloc, words, text, graph, wanted)?;
    compiled_does(rt, alloc, words, text, graph, wanted)
}
