//! Vertex programs whose nodes have one input, and graphs for them.

ghost use Rattle.std.specs.Prelude.{◌≡◌, [], IfOk};

use gm_base::{Items, NoMemory};
use gm_graph::{Graph, Shape, Walks};
use gm_image::{Image, Sound};
use gm_image_text::read_image;
use gm_loader::{Limits, parse_graph};
use gm_value::VType;
use gm_verify::{VerifyStop, is_countable, verify};
use std::alloc::Global;
use std::test::Fail;

/// A vertex program: each node sends its value along its out-edges, and then adds up what came.
pub(crate) const TOTAL: &str = "gm-image 1\n\
    name total\n\
    inputs 1\n\
    node I v 0\n\
    outputs 1\n\
    node I s 1\n\
    result -\n\
    globals 0\n\
    fields 2\n\
    I\n\
    I\n\
    registers 0\n\
    columns 0\n\
    kinds 1\n\
    - I\n\
    places 1\n\
    2 32\n\
    blocks 2\n\
    block 0\n\
    body 2\n\
    each out 1\n\
    send 0 nb f 0\n\
    block 1\n\
    on 0 1\n\
    fold sum 0 1 m 0\n\
    body 0\n\
    master 3\n\
    step 0\n\
    step 1\n\
    end\n";

/// A vertex program: twice each node sends its value and itself, keeps the least pair that came, and puts the greatest onto
/// two globals.
pub(crate) const NEAREST: &str = "gm-image 2\n\
    name nearest\n\
    inputs 1\n\
    node I v 2\n\
    outputs 2\n\
    node I d 0\n\
    node N r 1\n\
    result N 1\n\
    globals 2\n\
    I\n\
    N\n\
    fields 3\n\
    I\n\
    N\n\
    I\n\
    registers 0\n\
    columns 0\n\
    kinds 1\n\
    - I N\n\
    places 1\n\
    4 9\n\
    blocks 1\n\
    block 1\n\
    on 0 1\n\
    pick min 0 2 0 m 0 1 m 1\n\
    body 3\n\
    pickput max 0 2 0 f 2 1 id\n\
    each out 1\n\
    send 0 nb f 2 id\n\
    master 3\n\
    step 0\n\
    step 0\n\
    end\n";

/// A vertex program: in each turn each node sends its value, adds up what came, and puts the sum onto a global, until that
/// is 40 or more.
pub(crate) const GROWTH: &str = "gm-image 2\n\
    name growth\n\
    inputs 1\n\
    node I v 0\n\
    outputs 1\n\
    node I s 0\n\
    result I 0\n\
    globals 1\n\
    I\n\
    fields 1\n\
    I\n\
    registers 0\n\
    columns 0\n\
    kinds 1\n\
    - I\n\
    places 2\n\
    2 3\n\
    4 5\n\
    blocks 1\n\
    block 1\n\
    on 0 1\n\
    fold sum 0 0 m 0\n\
    body 3\n\
    put sum 1 0 f 0\n\
    each out 1\n\
    send 0 nb f 0\n\
    master 4\n\
    loop 3 < g 0 c I 40\n\
    step 0\n\
    back 0\n\
    end\n";

/// A graph: node 0 has the value 5 and two edges to node 1, which has the value 7 and an edge to itself.
pub(crate) const TWO: &str = "4 9\n4 9\n9 9\nv 4 5\nv 9 7\n";

/// A graph of three nodes, each of which reaches the others.
pub(crate) const TRIANGLE: &str = "1 2\n2 3\n3 1\n1 3\nv 1 5\nv 2 -4\nv 3 12\n";

/// A graph: node 0 has edges to four others, one of which has an edge back.
pub(crate) const STAR: &str = "0 1\n0 2\n0 3\n0 4\n4 0\nv 0 3\nv 2 8\nv 4 1\n";

/// A graph: node 0 has two edges to itself and the greatest value, and node 1 has an edge to it.
pub(crate) const LOOPS: &str = "0 0\n0 0\n1 0\nv 0 2147483647\nv 1 1\n";

// The image of a text. It has no columns.
fn image_of(alloc: Global, text: &[u8]) -> Result<Image, Fail>
    ensures { IfOk result (λ image. image.columns ≡ []) }
{
    let mut image = read_image(alloc, text)?;
    image.columns = Items::new(Vec::new(alloc));
    Ok(image)
}

/// An image as a sound one. One with too many lines is refused.
pub(crate) fn verified(alloc: Global, image: Image) -> Result<Sound, VerifyStop>
    ensures { IfOk result (λ sound. sound ≡ image) }
{
    if is_countable(&image) {
        verify(alloc, image)
    } else {
        Err(VerifyStop::NoMemory)
    }
}

/// The sound image of a text.
pub(crate) fn sound_of(alloc: Global, text: &[u8]) -> Result<Sound, Fail>
    ensures { IfOk result (λ image. image.columns ≡ []) }
{
    let image = image_of(alloc, text)?;
    Ok(verified(alloc, image)?)
}

// One column of numbers for the nodes, and none for the edges.
fn one_column(alloc: Global) -> Result<Shape, NoMemory>
    ensures { IfOk result (λ shape. shape.edges ≡ []) }
{
    let nodes = vec![in alloc; VType::I32]?;
    Ok(Shape {
        nodes: Items::new(nodes),
        edges: Items::new(Vec::new(alloc)),
        walks: Walks::BothWays,
    })
}

/// The graph of a text, whose nodes have one value. It has no edge columns.
pub(crate) fn graph_of(alloc: Global, text: &[u8]) -> Result<Graph, Fail>
    ensures { IfOk result (λ graph. graph.edge_columns ≡ []) }
{
    let shape = one_column(alloc)?;
    let limits = Limits {
        nodes: 100,
        edges: 100,
        bytes: 1000,
    };
    Ok(parse_graph(alloc, text, &shape, &limits)?)
}
