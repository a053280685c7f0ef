//! Programs that are compiled: their images are run as they are, and shown before what they write.

use crate::calls::{PLAIN, calls_hold, joined, put_file, run, run_with};
use crate::compare::{all_read, same};
use gm_base::Status;
use gm_examples::{COUNT, examples};
use gm_files::MemFiles;
use gm_rows::compiled::SHOWN;
use gm_tables::{is_row, parts_of, sides};
use std::alloc::Global;
use std::process::Abort;
use std::sync::Wait;
use std::test::Fail;
use std::thread::Threads;

// The image that is printed of an example's program.
fn image_of(
    rt: &(impl Abort + Threads + Wait + Sync),
    alloc: Global,
    row: &str,
) -> Result<String, Fail> {
    let (_, given, _) = parts_of(row)?;
    let (program, _) = sides(given, "%%\n")?;
    let input = joined(alloc, program, "")?;
    let (status, image) = run(rt, alloc, "compile -", input, PLAIN)?;
    assert_eq!(rt; status, Status::Done, "{row}");
    Ok(image)
}

// The files of an image over an example's graph.
fn files_of(alloc: Global, image: &str, graph: &str) -> Result<MemFiles, Fail> {
    let mut files = Vec::new(alloc);
    put_file(alloc, &mut files, "it.image", image.as_bytes())?;
    put_file(alloc, &mut files, "it.graph", graph.as_bytes())?;
    Ok(MemFiles::new(files, Vec::new(alloc)))
}

// What the run of an image over an example's graph writes.
fn written_by(
    rt: &(impl Abort + Threads + Wait + Sync),
    alloc: Global,
    row: &str,
    image: &str,
) -> Result<String, Fail> {
    let (line, given, _) = parts_of(row)?;
    let (_, words) = sides(line, ":")?;
    let (_, graph) = sides(given, "%%\n")?;
    let mut files = files_of(alloc, image, graph)?;
    let words = format!(in alloc; "exec it.image it.graph {words}")?;
    let (_, written) = run_with(
        rt,
        alloc,
        words.as_str(),
        Vec::new(alloc),
        PLAIN,
        &mut files,
    )?;
    Ok(written)
}

// A text without its last line, which has the turns of a program's run, and the supersteps of an image's.
fn but_the_last_line(text: &str) -> &str {
    match text.trim_end().rsplit_once("\n") {
        Some((front, _)) => front,
        None => "",
    }
}

// An example's image writes what the example does, but for the last line.
fn image_writes_the_same(
    rt: &(impl Abort + Threads + Wait + Sync),
    alloc: Global,
    row: &str,
) -> Result<(), Fail> {
    let image = image_of(rt, alloc, row)?;
    let written = written_by(rt, alloc, row, image.as_str())?;
    let (_, _, wanted) = parts_of(row)?;
    same(
        rt,
        but_the_last_line(written.as_str()),
        but_the_last_line(wanted),
        row,
    );
    Ok(())
}

#[test]
fn images_of_examples_write_the_same(rt: HostRuntime) -> Result<(), Fail> {
    let mut read = 0usize;
    for row in examples().split('~') {
        if is_row(row) {
            image_writes_the_same(&rt, rt.alloc(), row)?;
            read = read.saturating_add(1);
        }
    }
    all_read(&rt, read, COUNT);
    Ok(())
}

#[test]
fn images_are_shown(rt: HostRuntime) -> Result<(), Fail> {
    calls_hold(&rt, rt.alloc(), PLAIN, "", SHOWN, 5)
}
