//! The line that is written of a run.

ghost use Rattle.std.specs.Prelude.{◌≡◌, IfOk, length};
ghost use Rattle.gm_demo.specs.Lines.{distance_of as distance_of_lem, distances, farther as farther_lem, greatest, demo_line as demo_line_lem};

use crate::writing::{put, put_number};
use gm_base::NoMemory;
use gm_columns::Values;
use gm_value::Value;
use std::alloc::Global;

// The distance that a value says: its number, and none where that is the greatest Int.
fn distance_of(value: Value) -> Option<i128>
    ensures { result ≡ distance_of_lem value }
{
    let number = value.number();
    if number == i128::from(i32::MAX) {
        None
    } else {
        Some(number)
    }
}

// How many of the values say a distance.
fn reached(values: &Values) -> usize
    ensures { result ≡ length (distances values.now) }
{
    let mut count = 0;
    for node in 0..values.len() {
        if distance_of(values.get(node)).is_some() {
            count += 1;
        }
    }
    count
}

// The greater of two distances, of which each may be missing.
fn farther(known: Option<i128>, said: Option<i128>) -> Option<i128>
    ensures { result ≡ farther_lem known said }
{
    match (known, said) {
        (None, _) => said,
        (_, None) => known,
        (Some(known), Some(said)) => Some(known.max(said)),
    }
}

// The greatest distance that one of the values says, or 0.
fn farthest(values: &Values) -> i128
    ensures { result ≡ greatest (distances values.now) }
{
    let mut far = None;
    for node in 0..values.len() {
        far = farther(far, distance_of(values.get(node)));
    }
    far.unwrap_or(0)
}

/// The line of `demo N`, with its end: how many nodes and edges the graph has, how many nodes are reached, how far the
/// farthest of these is, and how many turns the run took. `nodes` is N, and `values` are the values of the first output
/// property at the nodes; a node is reached where its value is not the greatest Int.
#[tactic(auto, unfolding(crate::specs::Lines::demo_line))]
pub fn demo_line(
    alloc: Global,
    nodes: u32,
    values: &Values,
    turns: u64,
) -> Result<Vec<u8>, NoMemory>
    ensures { IfOk result (λ line. line.items ≡ demo_line_lem nodes values.now turns) }
{
    let mut line = Vec::new(alloc);
    put_number(&mut line, b"demo ", nodes)?;
    put_number(&mut line, b" edges ", 4 * u64::from(nodes))?;
    put_number(&mut line, b" reached ", reached(values))?;
    put_number(&mut line, b" far ", farthest(values))?;
    put_number(&mut line, b" turns ", turns)?;
    put(&mut line, b"\n")?;
    Ok(line)
}
