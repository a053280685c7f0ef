//! A long image whose steps may all be one.

use crate::samples::sound_of;
use gm_merge::merge;
use std::alloc::Global;
use std::test::Fail;

// How many steps it has.
const STEPS: u32 = 1000;

// The text of the image: each step has a block of its own, which reads a register that all set.
fn long_text(alloc: Global) -> Result<String, Fail> {
    let mut text = String::new(alloc);
    text.push_str(
        "gm-image 2\nname long\ninputs 0\noutputs 1\nnode I a 0\nresult -\nglobals 0\nfields 1\nI\nregisters 1\nI\ncolumns 0\nkinds 0\nplaces 0\nblocks 1000\n",
    )?;
    for _ in 0..STEPS {
        text.push_str("block 0\nbody 2\nset 0 r 0\nreg 0 f 0\n")?;
    }
    text.push_str("master 1001\n")?;
    for block in 0..STEPS {
        let line = format!(in alloc; "step {block}\n")?;
        text.push_str(line.as_str())?;
    }
    text.push_str("end\n")?;
    Ok(text)
}

// How many blocks its merged image has, and how many lines the body of the first: those of all blocks, and between any
// two a line by which the register starts again.
fn merged_size(alloc: Global) -> Result<(usize, usize), Fail> {
    let text = long_text(alloc)?;
    let merged = merge(alloc, sound_of(alloc, text.as_str().as_bytes())?)?;
    let blocks = merged.image().blocks.as_slice();
    let lines = match blocks.first() {
        Some(one) => one.body.len(),
        None => 0,
    };
    Ok((blocks.len(), lines))
}

#[test]
fn a_thousand_steps_become_one(rt: HostRuntime) -> Result<(), Fail> {
    assert!(rt; merged_size(rt.alloc())? == (1, 2999));
    Ok(())
}
