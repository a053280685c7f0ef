//! Tests of whole texts.

use crate::compare::{same_bytes, same_count, sides};
use crate::texts::{
    changed_text, image_in, text_for, text_of, text_of_lines, verified, with_changes,
};
use gm_image::Image;
use gm_image_text::ImageFault;
use std::alloc::{AllocError, Global};
use std::process::Abort;
use std::test::Fail;

// The image, that nothing is wrong with it, and the lines that are changed with what stands in their place.
const READ: &str = "spin|none;\
    total|none;\
    pair|none;\
    each|none;\
    nearest|none;\
    spin|none|1|gm-image 2;\
    total|none|1|gm-image 2;\
    pair|none|1|gm-image 2;\
    each|none|1|gm-image 2;\
    nearest|none|1|gm-image 2";

// Reductions of several slots, and the first line that is bad.
const SLOTS: &str = "nearest|23|1|gm-image 1;\
    nearest|25|1|gm-image 1|23|fold min 0 0 m 0;\
    nearest|none|1|gm-image 1|23|fold min 0 0 m 0|25|put max 0 0 f 2;\
    nearest|none|23|pick max 4294967295 2 0 m 0 4294967295 m 1;\
    nearest|none|23|pickput min 0 2 0 m 0 1 m 1;\
    nearest|none|23|pick min 0 3 0 m 0 1 m 1 0 + 0 m 0 c I 1;\
    nearest|none|23|fold sum 0 0 m 0;\
    nearest|23|23|pick sum 0 2 0 m 0 1 m 1;\
    nearest|23|23|pick product 0 2 0 m 0 1 m 1;\
    nearest|23|23|pickput and 0 2 0 m 0 1 m 1;\
    nearest|23|23|pickput or 0 2 0 m 0 1 m 1;\
    nearest|23|23|pick min 0 1 0 m 0;\
    nearest|23|23|pickput min 0 1 0 m 0;\
    nearest|23|23|pick min 0 0;\
    nearest|23|23|pick min 0 2;\
    nearest|23|23|pick min 0 2 0 m 0;\
    nearest|23|23|pick min 0 2 0 m 0 1;\
    nearest|23|23|pick min 0 2 0 m 0 1 m;\
    nearest|23|23|pick min 0 2 0 m 0 1 m 1 2 m 0;\
    nearest|23|23|pick min 0 02 0 m 0 1 m 1;\
    nearest|23|23|pick min 0 2 0 m 0 1 m 1 ;\
    nearest|23|23|pick min 2 0 m 0 1 m 1;\
    nearest|23|23|fold min 0 0 m 0 1 m 1";

// Lines that are spelled otherwise.
const LINES: &str = "spin|17|17|;\
    spin|17|17|set;\
    spin|17|17|set 0;\
    spin|17|17| set 0 g 0;\
    spin|17|17|set  0 g 0;\
    spin|17|17|set 0 g 0 ;\
    spin|17|17|set 0 g 0\r;\
    spin|17|17|set\t0 g 0;\
    spin|17|17|set 00 g 0;\
    spin|17|17|set 0 g 01;\
    spin|17|17|set +0 g 0;\
    spin|17|17|set -0 g 0;\
    spin|17|17|set 4294967296 g 0;\
    spin|17|17|set 0 g 18446744073709551616;\
    spin|17|17|set 0 g 0 g 0;\
    spin|17|17|set 0 c I 2147483648;\
    spin|17|17|set 0 c I -2147483649;\
    spin|17|17|set 0 c I -0;\
    spin|17|17|set 0 c I --1;\
    spin|17|17|set 0 c I +1;\
    spin|17|17|set 0 c I 01;\
    spin|17|17|set 0 c I True;\
    spin|17|17|set 0 c L 9223372036854775808;\
    spin|17|17|set 0 c L -9223372036854775809;\
    spin|17|17|set 0 c B true;\
    spin|17|17|set 0 c B 1;\
    spin|17|17|set 0 c N 5;\
    spin|17|17|set 0 c N nil;\
    spin|17|17|set 0 c X 1;\
    spin|17|17|set 0 + g 0 c I 1;\
    spin|17|17|set 0 + 0 g 0;\
    spin|17|17|set 0 not 0 g 0;\
    spin|17|17|Set 0 g 0;\
    spin|17|17|end 0;\
    spin|17|17|step;\
    spin|17|17|each out 1;\
    spin|none|17|set 0 c N NIL";

// Lines that break rules.
const UNSOUND: &str = "spin|none|16|loop 2 < g 0 c I 6;\
    total|none|21|each out 2;\
    total|none|21|skip 1 c B True;\
    total|none|22|send 0 nb nb;\
    total|none|25|set 1 m 0;\
    total|none|29|step 2;\
    total|none|29|jump 0;\
    total|none|29|end;\
    pair|none|22|set 1 f 4294967295";

// Lines of which one is bad, or the next that is wanted.
const CHANGED: &str = "spin|3|3|inputs x;\
    spin|1|1|gm-image 01;\
    spin|2|2|name  spin;\
    spin|5|5|result - 0;\
    spin|5|5|result I;\
    spin|8|6|globals 2;\
    spin|7|6|globals 0;\
    spin|6|6|fields 1;\
    spin|7|7|i;\
    spin|13|13|03 21;\
    spin|20|15|master 5;\
    spin|19|15|master 3;\
    spin|15|15|master -4;\
    total|4|4|node I v w 0;\
    total|6|6|edge I s 1;\
    total|15|15|pick I;\
    total|23|20|body 3;\
    total|24|24|on 0;\
    total|25|25|fold add 0 1 m 0;\
    total|25|25|fold sum 0 1";

// Whole texts, and the first line that is bad.
const WHOLE_TEXTS: &str = "1|(none);\
    1|;\
    2|gm-image 1;\
    2|gm-image 2;\
    1|gm-image 0;\
    1|gm-image 3;\
    1|gm-image 12;\
    2|gm-image 1~name ;\
    2|gm-image 1~name a b;\
    3|gm-image 1~name a~outputs 0;\
    4|gm-image 1~name a~inputs 1~outputs 0;\
    4|gm-image 1~name a~inputs 4294967295~outputs 0;\
    3|gm-image 1~name a~inputs 4294967296;\
    5|gm-image 1~name a~inputs 0~outputs 1~edge I x 0;\
    5|gm-image 1~name a~inputs 0~outputs 0~result N;\
    11|gm-image 1~name a~inputs 0~outputs 0~result -~globals 0~fields 0~registers 0~columns 0~kinds 1~some I;\
    15|gm-image 1~name a~inputs 0~outputs 0~result -~globals 0~fields 0~registers 0~columns 0~kinds 0~places 0~blocks 1~block 0~body 2~pick min 0 2 0 g 0 1 g 1;\
    14|gm-image 1~name a~inputs 0~outputs 0~result -~globals 0~fields 0~registers 0~columns 0~kinds 0~places 0~blocks 0~master 0~end";

// What is wrong with a text, if something is.
fn fault(alloc: Global, text: &[u8]) -> Option<ImageFault> {
    image_in(alloc, text).err()
}

// Whether nothing is wrong with a text, or this line of it is bad, if a line is named.
fn is_bad_at(alloc: Global, text: &[u8], line: &str) -> bool {
    let bad = line.parse::<u32>().ok();
    fault(alloc, text) == bad.map(ImageFault::BadText)
}

// Sees that what is wrong with a text is what is wanted.
fn compare_fault(rt: &(impl Abort + AllocGlobal), text: &[u8], want: &str, case: &str) {
    let is_right = is_bad_at(rt.alloc(), text, want);
    assert!(rt; is_right, "{case}");
}

// The same of a case.
fn compare(rt: &(impl Abort + AllocGlobal), case: &str) -> Result<(), Fail> {
    let (text, want) = changed_text(rt.alloc(), case)?;
    compare_fault(rt, &text, want, case);
    Ok(())
}

// The same of so many cases.
fn compare_all(rt: &(impl Abort + AllocGlobal), cases: &str, count: usize) -> Result<(), Fail> {
    let mut read = 0usize;
    for case in cases.split(';') {
        compare(rt, case)?;
        read = read.saturating_add(1);
    }
    same_count(rt, read, count, "cases");
    Ok(())
}

// How many inputs, fields, blocks and master lines an image has.
fn counts_of(image: &Image) -> [usize; 4] {
    [
        image.inputs.len(),
        image.fields.len(),
        image.blocks.len(),
        image.master.len(),
    ]
}

// Whether an image has this name, and so many parts.
fn has_parts(image: &Image, name: &str, counts: [usize; 4]) -> bool {
    image.name.as_slice() == name.as_bytes() && counts_of(image) == counts
}

// Sees that the text of this name is read as an image of this name, with so many parts.
fn compare_parts(
    rt: &(impl Abort + AllocGlobal),
    name: &str,
    counts: [usize; 4],
) -> Result<(), Fail> {
    let image = image_in(rt.alloc(), text_of(name).as_bytes())?;
    assert!(rt; has_parts(&image, name, counts), "{name}");
    Ok(())
}

#[test]
fn texts_of_images_are_read(rt: HostRuntime) -> Result<(), Fail> {
    compare_all(&rt, READ, 10)?;
    compare_parts(&rt, "total", [1, 2, 2, 3])
}

#[test]
fn several_slots_are_read_in_version_2(rt: HostRuntime) -> Result<(), Fail> {
    compare_all(&rt, SLOTS, 23)
}

#[test]
fn lines_that_are_spelled_otherwise_are_bad(rt: HostRuntime) -> Result<(), Fail> {
    compare_all(&rt, LINES, 37)
}

#[test]
fn texts_of_unsound_images_are_read(rt: HostRuntime) -> Result<(), Fail> {
    compare_all(&rt, UNSOUND, 9)
}

#[test]
fn a_changed_line_is_bad_or_the_next_that_is_wanted(rt: HostRuntime) -> Result<(), Fail> {
    compare_all(&rt, CHANGED, 20)
}

// Sees that a whole text is bad at the line that its case names.
fn compare_whole(rt: &(impl Abort + AllocGlobal), case: &str) -> Result<(), Fail> {
    let (line, lines) = sides(case)?;
    let text = text_of_lines(rt.alloc(), lines)?;
    compare_fault(rt, &text, line, case);
    Ok(())
}

#[test]
fn whole_texts_are_bad_at_their_first_bad_line(rt: HostRuntime) -> Result<(), Fail> {
    let mut read = 0usize;
    for case in WHOLE_TEXTS.split(';') {
        compare_whole(&rt, case)?;
        read = read.saturating_add(1);
    }
    same_count(&rt, read, 18, "cases");
    Ok(())
}

// What is written for the sound image that a text spells.
fn written(alloc: Global, text: &[u8]) -> Result<Vec<u8>, Fail> {
    let sound = verified(alloc, image_in(alloc, text)?)?;
    Ok(text_for(alloc, &sound)?)
}

// Compares what is written for the text of this name with the text in version 2.
fn compare_written(rt: &(impl Abort + AllocGlobal), name: &str) -> Result<(), Fail> {
    let text = text_of(name);
    let again = written(rt.alloc(), text.as_bytes())?;
    let second = with_changes(rt.alloc(), text, &["1", "gm-image 2"])?;
    same_bytes(rt, again.as_slice(), second.as_slice(), name);
    Ok(())
}

#[test]
fn images_are_written_in_version_2(rt: HostRuntime) -> Result<(), Fail> {
    compare_written(&rt, "spin")?;
    compare_written(&rt, "total")?;
    compare_written(&rt, "pair")?;
    compare_written(&rt, "nearest")
}

// The first front of a text that is not bad at its last line.
fn wrong_front(alloc: Global, text: &[u8]) -> Option<usize> {
    let mut line: u32 = 1;
    for end in 0..text.len() {
        if fault(alloc, &text[..end]) != Some(ImageFault::BadText(line)) {
            return Some(end);
        }
        if text[end] == b'\n' {
            line = line.saturating_add(1);
        }
    }
    None
}

#[test]
fn each_proper_front_of_a_text_is_bad_at_its_last_line(rt: HostRuntime) {
    let text = text_of("total").as_bytes();
    assert_eq!(rt; wrong_front(rt.alloc(), text), None);
}

// A `set` of an expression with so many `not` before a global.
fn deep_line(alloc: Global, nots: u32) -> Result<String, AllocError> {
    let mut line = String::from_str(alloc, "set 0")?;
    for _ in 0..nots {
        line.push_str(" not")?;
    }
    line.push_str(" g 0")?;
    Ok(line)
}

// Sees what is wrong with a text that has such an expression in its line 17.
fn compare_depth(rt: &(impl Abort + AllocGlobal), nots: u32, want: &str) -> Result<(), Fail> {
    let line = deep_line(rt.alloc(), nots)?;
    let text = with_changes(rt.alloc(), text_of("spin"), &["17", line.as_str()])?;
    compare_fault(rt, &text, want, "depth");
    Ok(())
}

#[test]
fn the_last_level_is_read_and_no_further_one(rt: HostRuntime) -> Result<(), Fail> {
    compare_depth(&rt, 1023, "none")?;
    compare_depth(&rt, 1024, "17")
}
