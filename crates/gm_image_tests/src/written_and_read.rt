//! What is written for a sound image is read again as the same image.

use crate::compare::same_bytes;
use crate::texts::{image_in, text_for, verified};
use gm_image::{Image, Sound};
use gm_image_text::{ImageFault, written_and_read};
use std::alloc::Global;
use std::process::Abort;
use std::test::Fail;

// Texts of sound images in version 2.
const SPIN: &[u8] =
    b"gm-image 2\nname spin\ninputs 0\noutputs 0\nresult I 0\nglobals 1\nI\nfields 0\nregisters 0\ncolumns 0\nkinds 0\nplaces 1\n3 21\nblocks 0\nmaster 4\nloop 3 < g 0 c I -2147483648\nset 0 + 0 g 0 c I 2147483647\nback 0\nend\n";

const TOTAL: &[u8] =
    b"gm-image 2\nname total\ninputs 1\nnode I v 0\noutputs 1\nnode I s 1\nresult -\nglobals 0\nfields 2\nI\nI\nregisters 0\ncolumns 0\nkinds 1\n- I\nplaces 1\n4294967295 32\nblocks 2\nblock 0\nbody 2\neach out 1\nsend 0 nb f 0\nblock 1\non 0 1\nfold sum 0 1 m 0\nbody 0\nmaster 3\nstep 0\nstep 1\nend\n";

const NEAREST: &[u8] =
    b"gm-image 2\nname nearest\ninputs 1\nnode I v 2\noutputs 0\nresult N 1\nglobals 2\nI\nN\nfields 3\nI\nN\nI\nregisters 0\ncolumns 0\nkinds 1\n- I N\nplaces 1\n4 9\nblocks 1\nblock 1\non 0 1\npick min 0 2 0 m 0 1 m 1\nbody 3\npickput max 0 2 0 f 2 1 id\neach out 1\nsend 0 nb f 2 id\nmaster 3\nstep 0\nstep 0\nend\n";

// The sound image that a text spells.
fn sound_image(alloc: Global, text: &[u8]) -> Result<Sound, Fail> {
    Ok(verified(alloc, image_in(alloc, text)?)?)
}

// What is written for an image and read, by a call that promises nothing.
fn read_again(alloc: Global, sound: &Sound) -> Result<Image, ImageFault> {
    written_and_read(alloc, sound)
}

// What is written for an image, read, and written again.
fn written_twice(alloc: Global, sound: &Sound) -> Result<Vec<u8>, Fail> {
    let again = verified(alloc, read_again(alloc, sound)?)?;
    Ok(text_for(alloc, &again)?)
}

// Compares what is written for the sound image that a text spells with the text.
fn compare_written(rt: &(impl Abort + AllocGlobal), text: &[u8]) -> Result<(), Fail> {
    let sound = sound_image(rt.alloc(), text)?;
    let written = text_for(rt.alloc(), &sound)?;
    same_bytes(rt, written.as_slice(), text, "written");
    Ok(())
}

// Compares what is written for an image, read, and written again with the text that spells it.
fn compare_again(rt: &(impl Abort + AllocGlobal), text: &[u8]) -> Result<(), Fail> {
    let sound = sound_image(rt.alloc(), text)?;
    let written = written_twice(rt.alloc(), &sound)?;
    same_bytes(rt, written.as_slice(), text, "written again");
    Ok(())
}

#[test]
fn sound_images_are_written_as_their_texts(rt: HostRuntime) -> Result<(), Fail> {
    compare_written(&rt, SPIN)?;
    compare_written(&rt, TOTAL)?;
    compare_written(&rt, NEAREST)
}

#[test]
fn what_is_written_is_read_again(rt: HostRuntime) -> Result<(), Fail> {
    compare_again(&rt, SPIN)?;
    compare_again(&rt, TOTAL)?;
    compare_again(&rt, NEAREST)
}
