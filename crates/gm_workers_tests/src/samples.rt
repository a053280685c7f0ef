//! Vertex programs whose nodes have one input, and graphs for them.

ghost use Rattle.std.specs.Prelude.{◌≡◌, ◌≤◌, [], IfOk};

use gm_base::{Items, NoMemory};
use gm_graph::{Graph, Shape, Walks};
use gm_image::{Image, Sound};
use gm_image_text::read_image;
use gm_loader::{Limits, parse_graph};
use gm_value::VType;
use gm_verify::{VerifyStop, is_countable, verify};
use std::alloc::{AllocError, Global};
use std::test::Fail;

/// A vertex program: each node sends its value along its out-edges, and then adds up what came.
pub(crate) const TOTAL: &str = "gm-image 1\n\
    name total\n\
    inputs 1\n\
    node I v 0\n\
    outputs 1\n\
    node I s 1\n\
    result -\n\
    globals 0\n\
    fields 2\n\
    I\n\
    I\n\
    registers 0\n\
    columns 0\n\
    kinds 1\n\
    - I\n\
    places 1\n\
    2 32\n\
    blocks 2\n\
    block 0\n\
    body 2\n\
    each out 1\n\
    send 0 nb f 0\n\
    block 1\n\
    on 0 1\n\
    fold sum 0 1 m 0\n\
    body 0\n\
    master 3\n\
    step 0\n\
    step 1\n\
    end\n";

/// A vertex program: twice each node sends its value and itself, keeps the least pair that came, and puts the greatest onto
/// two globals.
pub(crate) const NEAREST: &str = "gm-image 2\n\
    name nearest\n\
    inputs 1\n\
    node I v 2\n\
    outputs 2\n\
    node I d 0\n\
    node N r 1\n\
    result N 1\n\
    globals 2\n\
    I\n\
    N\n\
    fields 3\n\
    I\n\
    N\n\
    I\n\
    registers 0\n\
    columns 0\n\
    kinds 1\n\
    - I N\n\
    places 1\n\
    4 9\n\
    blocks 1\n\
    block 1\n\
    on 0 1\n\
    pick min 0 2 0 m 0 1 m 1\n\
    body 3\n\
    pickput max 0 2 0 f 2 1 id\n\
    each out 1\n\
    send 0 nb f 2 id\n\
    master 3\n\
    step 0\n\
    step 0\n\
    end\n";

/// A vertex program: in each turn each node sends its value, adds up what came, and puts the sum onto a global, until that
/// is 40 or more.
pub(crate) const GROWTH: &str = "gm-image 2\n\
    name growth\n\
    inputs 1\n\
    node I v 0\n\
    outputs 1\n\
    node I s 0\n\
    result I 0\n\
    globals 1\n\
    I\n\
    fields 1\n\
    I\n\
    registers 0\n\
    columns 0\n\
    kinds 1\n\
    - I\n\
    places 2\n\
    2 3\n\
    4 5\n\
    blocks 1\n\
    block 1\n\
    on 0 1\n\
    fold sum 0 0 m 0\n\
    body 3\n\
    put sum 1 0 f 0\n\
    each out 1\n\
    send 0 nb f 0\n\
    master 4\n\
    loop 3 < g 0 c I 40\n\
    step 0\n\
    back 0\n\
    end\n";

/// A vertex program: how many steps each node is from one with a value of more than 900, found round by round. Its messages
/// may be combined.
pub(crate) const HOPS: &str = "gm-image 1\n\
    name hops\n\
    inputs 1\n\
    node I v 3\n\
    outputs 1\n\
    node I dist 0\n\
    result -\n\
    globals 2\n\
    B\n\
    B\n\
    fields 4\n\
    I\n\
    I\n\
    B\n\
    I\n\
    registers 0\n\
    columns 0\n\
    kinds 1\n\
    min I\n\
    places 3\n\
    12 28\n\
    12 30\n\
    17 12\n\
    blocks 3\n\
    block 0\n\
    body 3\n\
    set 0 ? < c I 900 f 3 c I 0 c I 2147483647\n\
    set 1 f 0\n\
    set 2 < c I 900 f 3\n\
    block 0\n\
    body 3\n\
    skip 2 f 2\n\
    each out 1\n\
    send 0 nb + 0 f 0 c I 1\n\
    block 1\n\
    on 0 1\n\
    fold min 1 1 m 0\n\
    body 3\n\
    set 2 < f 1 f 0\n\
    set 0 f 1\n\
    put or 2 1 f 2\n\
    master 9\n\
    set 0 c B False\n\
    step 0\n\
    loop 8 not g 0\n\
    set 1 c B False\n\
    step 1\n\
    step 2\n\
    set 0 not g 1\n\
    back 2\n\
    end\n";

/// A graph of three nodes, each of which reaches the others.
pub(crate) const TRIANGLE: &str = "1 2\n2 3\n3 1\n1 3\nv 1 5\nv 2 -4\nv 3 12\n";

/// A graph: node 0 has two edges to itself and the greatest value, and node 1 has an edge to it.
pub(crate) const LOOPS: &str = "0 0\n0 0\n1 0\nv 0 2147483647\nv 1 1\n";

// The next number of a sequence that looks like chance.
fn next(state: &mut u64) -> u64 {
    *state = state
        .wrapping_mul(6_364_136_223_846_793_005)
        .wrapping_add(1_442_695_040_888_963_407);
    *state >> 33
}

/// The text of a graph of so many nodes, each with a value below 1,000, and of so many edges, by chance.
pub(crate) fn chance(alloc: Global, nodes: u64, edges: u64) -> Result<String, AllocError>
    requires { 1 ≤ nodes }
{
    let mut state = 7;
    let mut text = String::new(alloc);
    for _edge in 0..edges {
        let from = next(&mut state) % nodes;
        let to = next(&mut state) % nodes;
        let line = format!(in alloc; "{from} {to}\n")?;
        text.push_str(line.as_str())?;
    }
    for node in 0..nodes {
        let value = next(&mut state) % 1000;
        let line = format!(in alloc; "v {node} {value}\n")?;
        text.push_str(line.as_str())?;
    }
    Ok(text)
}

// The image of a text. It has no columns.
fn image_of(alloc: Global, text: &[u8]) -> Result<Image, Fail>
    ensures { IfOk result (λ image. image.columns ≡ []) }
{
    let mut image = read_image(alloc, text)?;
    image.columns = Items::new(Vec::new(alloc));
    Ok(image)
}

/// An image as a sound one. One with too many lines is refused.
pub(crate) fn verified(alloc: Global, image: Image) -> Result<Sound, VerifyStop>
    ensures { IfOk result (λ sound. sound ≡ image) }
{
    if is_countable(&image) {
        verify(alloc, image)
    } else {
        Err(VerifyStop::NoMemory)
    }
}

/// The sound image of a text.
pub(crate) fn sound_of(alloc: Global, text: &[u8]) -> Result<Sound, Fail>
    ensures { IfOk result (λ image. image.columns ≡ []) }
{
    let image = image_of(alloc, text)?;
    Ok(verified(alloc, image)?)
}

// One column of numbers for the nodes, and none for the edges.
fn one_column(alloc: Global) -> Result<Shape, NoMemory>
    ensures { IfOk result (λ shape. shape.edges ≡ []) }
{
    let nodes = vec![in alloc; VType::I32]?;
    Ok(Shape {
        nodes: Items::new(nodes),
        edges: Items::new(Vec::new(alloc)),
        walks: Walks::BothWays,
    })
}

/// The graph of a text, whose nodes have one value. It has no edge columns.
pub(crate) fn graph_of(alloc: Global, text: &[u8]) -> Result<Graph, Fail>
    ensures { IfOk result (λ graph. graph.edge_columns ≡ []) }
{
    let shape = one_column(alloc)?;
    let limits = Limits {
        nodes: 10_000,
        edges: 100_000,
        bytes: 10_000_000,
    };
    Ok(parse_graph(alloc, text, &shape, &limits)?)
}
