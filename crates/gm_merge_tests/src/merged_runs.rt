//! Runs of images before and after merging.

ghost use Rattle.std.specs.Prelude.{◌≡◌, []};

use crate::samples::{GLOBALS, PAIR, PLACES, REGISTERS, TARGET, TOTAL, TWO, graph_of, sound_of};
use gm_base::NoMemory;
use gm_graph::Graph;
use gm_image::Sound;
use gm_machine::run_one;
use gm_merge::merge;
use gm_model::RunEnd;
use std::alloc::Global;
use std::test::Fail;

// The run of an image, of which nothing else is known here.
fn run(alloc: Global, image: &Sound, graph: &Graph) -> Result<RunEnd, NoMemory>
    requires no_columns { image.now.columns ≡ [] }
    requires none { graph.now.edge_columns ≡ [] }
{
    run_one(alloc, image, graph, &[], 9)
}

// How many supersteps and messages a run took.
fn counts(end: &RunEnd) -> (u64, u64) {
    (end.supersteps, end.messages)
}

// How a run ended.
fn outcome_text(alloc: Global, end: &RunEnd) -> Result<String, Fail> {
    let outcome = &end.outcome;
    Ok(format!(in alloc; "{outcome:?}")?)
}

// The run of the image of a text.
fn run_before(alloc: Global, text: &[u8]) -> Result<RunEnd, Fail> {
    let graph = graph_of(alloc, TWO)?;
    let image = sound_of(alloc, text)?;
    Ok(run(alloc, &image, &graph)?)
}

// The run of its merged image.
fn run_after(alloc: Global, text: &[u8]) -> Result<RunEnd, Fail> {
    let graph = graph_of(alloc, TWO)?;
    let image = merge(alloc, sound_of(alloc, text)?)?;
    Ok(run(alloc, &image, &graph)?)
}

// Whether the two runs end alike, with so many supersteps and messages.
fn runs_are(
    alloc: Global,
    text: &[u8],
    before: (u64, u64),
    after: (u64, u64),
) -> Result<bool, Fail> {
    let old = run_before(alloc, text)?;
    let new = run_after(alloc, text)?;
    let same = outcome_text(alloc, &old)?.as_str() == outcome_text(alloc, &new)?.as_str();
    Ok(same && counts(&old) == before && counts(&new) == after)
}

#[test]
fn merged_images_end_alike_in_fewer_supersteps(rt: HostRuntime) -> Result<(), Fail> {
    assert!(rt; runs_are(rt.alloc(), PAIR, (2, 0), (1, 0))?);
    assert!(rt; runs_are(rt.alloc(), REGISTERS, (3, 0), (1, 0))?);
    assert!(rt; runs_are(rt.alloc(), PLACES, (2, 0), (1, 0))?);
    Ok(())
}

#[test]
fn steps_that_stay_apart_run_as_before(rt: HostRuntime) -> Result<(), Fail> {
    assert!(rt; runs_are(rt.alloc(), TOTAL, (2, 3), (2, 3))?);
    assert!(rt; runs_are(rt.alloc(), GLOBALS, (2, 0), (2, 0))?);
    assert!(rt; runs_are(rt.alloc(), TARGET, (1, 0), (1, 0))?);
    Ok(())
}
