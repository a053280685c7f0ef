use crate::compare::{same, same_debug};
use gm_base::*;
use gm_files::*;
use std::alloc::{AllocError, Global};
use std::path::{Path, PathBuf};
use std::process::Abort;
use std::test::Fail;
use std::{fs, process};

// Two files of one name and an empty one; the call with this number fails.
fn small_files(alloc: Global, fails: u64) -> Result<MemFiles, AllocError> {
    let mut files = Vec::new(alloc);
    files.push((
        String::from_str(alloc, "one")?,
        vec![in alloc; 7u8, 8, 9, 7, 8]?,
    ))?;
    files.push((String::from_str(alloc, "none")?, Vec::new(alloc)))?;
    files.push((String::from_str(alloc, "one")?, vec![in alloc; 1u8]?))?;
    Ok(MemFiles::new(files, vec![in alloc; fails]?))
}

#[test]
fn reads_parts_of_files(rt: HostRuntime) -> Result<(), Fail> {
    let mut files = small_files(rt.alloc(), 4)?;
    // the name, the place, what comes out, and what the buffer then begins with
    let table = [
        ("one", 0, Ok(2), [7, 8]),
        ("one", 2, Ok(2), [9, 7]),
        ("one", 4, Ok(1), [8, 0]),
        ("one", 4, Err(FileFault::Failed), [0, 0]),
        ("one", 5, Ok(0), [0, 0]),
        ("one", u64::MAX, Ok(0), [0, 0]),
        ("none", 0, Ok(0), [0, 0]),
        ("on", 0, Err(FileFault::Absent), [0, 0]),
        ("", 0, Err(FileFault::Absent), [0, 0]),
    ];
    for (row, (name, at, outcome, placed)) in table.iter().enumerate() {
        let mut into = [0; 2];
        let read = files.read_at(name, *at, &mut into);
        same(&rt, row, read, *outcome);
        same(&rt, row, into, *placed);
    }
    Ok(())
}

// Reads a file whole, and compares what comes out.
fn check_read(
    rt: &(impl Abort + AllocGlobal),
    row: usize,
    files: &mut MemFiles,
    name: &str,
    limit: u64,
    want: &str,
) -> Result<(), Fail> {
    let read = read_file(rt.alloc(), files, name, limit);
    same_debug(rt, row, &read, want)
}

#[test]
fn reads_whole_files(rt: HostRuntime) -> Result<(), Fail> {
    // the name, the limit, the call that fails, what comes out, and what comes out of a second reading
    let table = [
        ("one", 5, 0, "Ok([7, 8, 9, 7, 8])", "Ok([7, 8, 9, 7, 8])"),
        ("one", 4, 0, "Err(TooLong)", "Err(TooLong)"),
        ("none", 0, 0, "Ok([])", "Ok([])"),
        ("two", 5, 0, "Err(Absent)", "Err(Absent)"),
        ("one", 5, 1, "Err(Failed)", "Ok([7, 8, 9, 7, 8])"),
        ("one", 5, 2, "Err(Failed)", "Ok([7, 8, 9, 7, 8])"),
        ("two", 5, 1, "Err(Failed)", "Err(Absent)"),
    ];
    for (row, (name, limit, fails, first, second)) in table.iter().enumerate() {
        let mut files = small_files(rt.alloc(), *fails)?;
        check_read(&rt, row, &mut files, name, *limit, first)?;
        check_read(&rt, row, &mut files, name, *limit, second)?;
    }
    Ok(())
}

// A file of 150,000 bytes; the call with this number fails.
fn long_file(alloc: Global, fails: u64) -> Result<MemFiles, AllocError> {
    let name = String::from_str(alloc, "long")?;
    let bytes = vec![in alloc; 5u8; 150000]?;
    let files = vec![in alloc; (name, bytes)]?;
    Ok(MemFiles::new(files, vec![in alloc; fails]?))
}

// How many bytes come out of the long file, read whole up to a limit.
fn count_of(alloc: Global, files: &mut MemFiles, limit: u64) -> Result<usize, FileStop> {
    Ok(read_file(alloc, files, "long", limit)?.len())
}

#[test]
fn each_read_of_a_long_file_fails_in_turn(rt: HostRuntime) -> Result<(), Fail> {
    // the call that fails, and what comes out; the last of four reads finds the end
    let table = [
        (1, Err(FileStop::Failed)),
        (2, Err(FileStop::Failed)),
        (3, Err(FileStop::Failed)),
        (4, Err(FileStop::Failed)),
        (9, Ok(150000)),
    ];
    for (row, (fails, outcome)) in table.iter().enumerate() {
        let mut files = long_file(rt.alloc(), *fails)?;
        let read = count_of(rt.alloc(), &mut files, 150000);
        same(&rt, row, read, *outcome);
        let again = count_of(rt.alloc(), &mut files, 149999);
        same(&rt, row, again, Err(FileStop::TooLong));
    }
    Ok(())
}

// Reads a file as a source, and compares what comes out, and whether it is absent; then reads again.
fn check_source(
    rt: &(impl Abort + AllocGlobal),
    row: usize,
    files: &mut MemFiles,
    name: &str,
    want: &str,
    absent: bool,
) -> Result<(), Fail> {
    let mut source = FileSource::new(files, name);
    same(rt, row, source.absent(), false);
    let read = read_all(rt.alloc(), &mut source, 5);
    same_debug(rt, row, &read, want)?;
    same(rt, row, source.absent(), absent);
    // The first fault stays.
    let _ = read_all(rt.alloc(), &mut source, 5);
    same(rt, row, source.absent(), absent);
    Ok(())
}

#[test]
fn a_file_as_a_source(rt: HostRuntime) -> Result<(), Fail> {
    // the name, the call that fails, what comes out, and whether the file is absent
    let table = [
        ("one", 0, "Ok([7, 8, 9, 7, 8])", false),
        ("one", 1, "Err(Failed)", false),
        ("one", 2, "Err(Failed)", false),
        ("two", 0, "Err(Failed)", true),
        ("two", 1, "Err(Failed)", false),
    ];
    for (row, (name, fails, want, absent)) in table.iter().enumerate() {
        let mut files = small_files(rt.alloc(), *fails)?;
        check_source(&rt, row, &mut files, name, want, *absent)?;
    }
    Ok(())
}

// A folder of this test alone, with a file of ten bytes and an empty folder in it.
fn make_folder(rt: &HostRuntime) -> Result<PathBuf, Fail> {
    let process = process::id(rt.process());
    let name = format!(in rt.alloc(); "gm_base_{process}")?;
    let folder = std::env::temp_dir(rt)?.join(rt.alloc(), name.as_str())?;
    fs::create_dir(rt, folder.as_path())?;
    fs::create_dir(rt, folder.join(rt.alloc(), "folder")?)?;
    fs::write(rt, folder.join(rt.alloc(), "ten")?, "0123456789")?;
    fs::write(rt, folder.join(rt.alloc(), "abc")?, "abcdefghij")?;
    Ok(folder)
}

// Reads a part of a file of the folder, and compares what comes out and what the buffer then begins with.
fn check_part<F: Files>(
    rt: &impl Abort,
    row: usize,
    files: &mut F,
    path: &Path,
    at: u64,
    outcome: Result<usize, FileFault>,
    placed: [u8; 4],
) {
    let mut into = *b"----";
    let read = files.read_at(path.as_str(), at, &mut into);
    same(rt, row, read, outcome);
    same(rt, row, into, placed);
}

// Reads a file of the folder whole, and compares how many bytes come out.
fn check_whole<F: Files>(
    rt: &(impl Abort + AllocGlobal),
    row: usize,
    files: &mut F,
    path: &Path,
    limit: u64,
    outcome: Result<usize, FileStop>,
) {
    let read = read_file(rt.alloc(), files, path.as_str(), limit);
    same(rt, row, read.map(|bytes| bytes.len()), outcome);
}

#[test]
fn files_of_the_system(rt: HostRuntime) -> Result<(), Fail> {
    let folder = make_folder(&rt)?;
    let mut files = DiskFiles::new(rt.alloc(), &rt)?;
    // the name, the place, what comes out, and what the buffer then begins with
    let parts = [
        ("ten", 0, Ok(4), *b"0123"),
        ("ten", 4, Ok(4), *b"4567"),
        ("abc", 8, Ok(2), *b"ij--"),
        ("ten", 8, Ok(2), *b"89--"),
        ("ten", 10, Ok(0), *b"----"),
        ("ten", 3, Ok(4), *b"3456"),
        ("ten", 99, Ok(0), *b"----"),
        ("gone", 0, Err(FileFault::Absent), *b"----"),
        ("gone/ten", 0, Err(FileFault::Absent), *b"----"),
        ("folder", 0, Err(FileFault::Failed), *b"----"),
        ("ten/ten", 0, Err(FileFault::Failed), *b"----"),
        ("abc", 0, Ok(4), *b"abcd"),
    ];
    for (row, (name, at, outcome, placed)) in parts.iter().enumerate() {
        let path = folder.join(rt.alloc(), *name)?;
        check_part(
            &rt,
            row,
            &mut files,
            &path.as_path(),
            *at,
            *outcome,
            *placed,
        );
    }
    // the name, the limit, and what comes out of a whole reading
    let wholes = [
        ("ten", 10, Ok(10)),
        ("ten", 9, Err(FileStop::TooLong)),
        ("gone", 10, Err(FileStop::Absent)),
        ("folder", 10, Err(FileStop::Failed)),
    ];
    for (row, (name, limit, outcome)) in wholes.iter().enumerate() {
        let path = folder.join(rt.alloc(), *name)?;
        check_whole(&rt, row, &mut files, &path.as_path(), *limit, *outcome);
    }
    fs::remove_dir_all(&rt, folder.as_path())?;
    Ok(())
}
