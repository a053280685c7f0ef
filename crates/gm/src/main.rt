//! The program `gm`: the streams of the process and the files of the system, handed to the driver.
#![tactic(auto)]

use gm_base::{NoMemory, OpenGate, Status};
use gm_driver::gm;
use gm_files::{DiskFiles, ReadSource, WriteSink};
use gm_observe::{Counter, Observer, Table};
use std::env;
use std::io::ErrorKind;
use std::process::ExitCode;
use std::sync::Wait;
use std::thread::Threads;

// The words of the command line behind the program's name. A word that is not UTF-8 is a faulty command line, as
// no word at all is.
fn words(rt: &HostRuntime) -> Result<Vec<String>, NoMemory> {
    let mut words = Vec::new(rt.alloc());
    match env::args(rt) {
        Ok(arguments) => {
            for word in arguments.skip(1) {
                words.push(word)?;
            }
        }
        Err(error) => {
            if error.kind() == ErrorKind::OutOfMemory {
                return Err(NoMemory);
            }
        }
    }
    Ok(words)
}

// The answer for these words, over the streams of the process and the files of the system. A run of an image may be
// observed by a counter and by a table, which report in this order. Its workers are threads by the handle `threads`.
fn answer(rt: &HostRuntime, threads: &(impl Threads + Wait + Sync)) -> Result<Status, NoMemory> {
    let words = words(rt)?;
    let mut input = ReadSource::new(rt.stdin());
    let mut files = DiskFiles::new(rt.alloc(), rt)?;
    let mut output = WriteSink::new(rt.stdout());
    let counter: Box<dyn Observer> = Box::new(rt.alloc(), Counter::new(rt.alloc()))?;
    let table: Box<dyn Observer> = Box::new(rt.alloc(), Table::new(rt.alloc()))?;
    let mut observers: Vec<Box<dyn Observer>> = Vec::new(rt.alloc());
    observers.push(counter).map_err(NoMemory::from)?;
    observers.push(table).map_err(NoMemory::from)?;
    Ok(gm(
        threads,
        rt.alloc(),
        &words,
        &mut input,
        &mut files,
        &mut output,
        &OpenGate,
        &mut observers,
    ))
}

fn main(rt: HostRuntime) -> ExitCode {
    let status = match answer(&rt, &rt) {
        Ok(status) => status,
        Err(NoMemory) => Status::NoMemory,
    };
    ExitCode::from(status.code())
}
