//! The program: it hands its words, the files and standard output to the top call, prints the status line where there
//! is one, and ends with the status number.
#![tactic(auto)]

use io_edge::{DirShelf, OutSink};
use kdbsim_top::{Status, kdbsim, status_code, status_line};
use run_join::Millisecond;
use std::alloc::Global;
use std::process::ExitCode;
use std::rt::Files;
use std::sync::Wait;
use std::thread::Threads;
use std::time::Clock;
use std::{env, io};

fn main(rt: HostRuntime) -> ExitCode {
    let status = match words(&rt) {
        Ok(words) => answer(&rt, rt.alloc(), words.as_slice()),
        Err(error) if error.kind() == io::ErrorKind::OutOfMemory => Status::OutOfMemory,
        Err(_) => Status::Usage,
    };
    report(&rt, &status);
    ExitCode::from(status_code(&status))
}

/// The answer to the program's words, with the files of the system, standard output and its clock.
fn answer<R: Files + Print + Threads + Wait + Clock + Sync>(
    rt: &R,
    alloc: Global,
    words: &[String],
) -> Status {
    let mut shelf = DirShelf::new(rt);
    let mut out = OutSink::new(rt);
    kdbsim(rt, alloc, words, &mut shelf, &mut out, Millisecond::new(rt))
}

/// The program's words after its name; words that aren't text are no command.
fn words(rt: &HostRuntime) -> io::Result<Vec<String>> {
    let mut words = Vec::new(rt.alloc());
    for word in env::args(rt)?.skip(1) {
        words.push(word)?;
    }
    Ok(words)
}

/// Prints the line of a status, if it has one. A line that can't be made or printed is left out; the number stays.
fn report(rt: &HostRuntime, status: &Status) {
    if let Ok(line) = status_line(rt.alloc(), status) {
        if !line.as_bytes().is_empty() {
            let _ = rt.write_all(line.as_bytes());
            let _ = rt.write_all(b"\n");
        }
    }
}
