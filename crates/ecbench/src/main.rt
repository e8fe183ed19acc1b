//! The bench: a Chromebook's embedded controller and its host in one process, driven by a script on standard input.
//!
//! It is the program, and all other crates stand below it. `run` has the contract that matters: what each exit says of
//! the script, the printed bytes and the journal, and that the journal is a run of the controller from the flash as it
//! came to the flash as it is handed back. `main` opens the streams and the flash, and tells people on standard error
//! what went wrong, of which no clause speaks.
#![tactic(auto)]

#[cfg(test)]
mod arm_tests;
mod arming;
#[cfg(test)]
mod bus_tests;
mod calling;
mod drilling;
#[cfg(test)]
mod image_tests;
mod marking;
mod run;
mod serving;
mod setup;
#[cfg(test)]
mod sync_tests;
mod syncing;
mod telling;
#[cfg(test)]
mod testing;
#[cfg(test)]
mod tests;
mod tracing;
#[cfg(test)]
mod upset_tests;

use bench_io::{FileFlash, StdSink, StdSource};
use bench_shelf::FileShelf;
use bench_words::Word;
use run::{Exit, run};
use std::alloc::Global;
use std::env::{self, Args};
use std::fmt::Display;
use std::fs::{self, File};
use std::io;
use std::process::ExitCode;
use telling::{FaultyLine, FaultyWords, fault_of, image_of};

/// The exit status where the flash file cannot be opened.
const NOT_OPENED: u8 = 1;

fn main(rt: HostRuntime) -> ExitCode {
    let words = match env::args(&rt).and_then(|args| read_words(rt.alloc(), args)) {
        Ok(words) => words,
        Err(error) if error.kind() == io::ErrorKind::InvalidData => {
            return told_usage(&rt, &"a word is not UTF-8");
        }
        Err(_) => return told(&rt, Exit::NoMemory),
    };
    let faulty = FaultyWords {
        words: words.as_slice(),
    };
    let Some(path) = words.first().and_then(Word::flash_path) else {
        return told_usage(&rt, &faulty);
    };
    let _held = hold_streams(&rt);
    let flash = match open_flash(&rt, path) {
        Ok(flash) => flash,
        Err(error) if error.kind() == io::ErrorKind::OutOfMemory => {
            return told(&rt, Exit::NoMemory);
        }
        Err(error) => {
            let _ = eprintln!(rt; "ecbench: {path}: {error}");
            return ExitCode::from(NOT_OPENED);
        }
    };
    let mut source = StdSource::new(rt.reader());
    let mut sink = StdSink::new(io::writer(&rt));
    let mut shelf = FileShelf::new(&rt);
    let ended = run(
        rt.alloc(),
        words.as_slice(),
        flash,
        &mut source,
        &mut sink,
        &mut shelf,
    );
    match ended.exit {
        Exit::BadWords => told_usage(&rt, &faulty),
        Exit::BadFlash => told_with_size(&rt, path, Exit::BadFlash),
        Exit::BadLine { line, .. } => told_line(&rt, ended.exit, line, ended.reader.line()),
        Exit::SourceFault => told_with_cause(&rt, Exit::SourceFault, source.error()),
        Exit::SinkFault => told_with_cause(&rt, Exit::SinkFault, sink.error()),
        Exit::ShelfFault => told_image(&rt, ended.exit, ended.reader.line()),
        exit => told(&rt, exit),
    }
}

// The words behind the program's name.
fn read_words(alloc: Global, args: Args) -> io::Result<Vec<Word>> {
    let mut words = Vec::new(alloc);
    for arg in args.skip(1) {
        words.push(Word::new(alloc, arg.as_bytes())?)?;
    }
    Ok(words)
}

// Opens three files that hold nothing. A file that is opened gets the first number that is free, so that the flash gets
// none of a standard stream that is closed.
fn hold_streams(rt: &HostRuntime) -> io::Result<(File, File, File)> {
    Ok((
        File::open(rt, "/dev/null")?,
        File::open(rt, "/dev/null")?,
        File::open(rt, "/dev/null")?,
    ))
}

// The flash over a file that is there, to be read and written.
fn open_flash(rt: &HostRuntime, path: &str) -> io::Result<FileFlash<File>> {
    let mut options = File::options();
    options.read(true).write(true);
    FileFlash::new(rt.alloc(), options.open(rt, path)?)
}

// The status of an exit, which is told on standard error where it is not 0.
fn told(rt: &HostRuntime, exit: Exit) -> ExitCode {
    if exit != Exit::Done {
        let _ = eprintln!(rt; "ecbench: {exit}");
    }
    ExitCode::from(exit.status())
}

// The status of words that are not the command's: what is wrong with them is told, and the usage.
fn told_usage<D: Display>(rt: &HostRuntime, wrong: &D) -> ExitCode {
    let _ = eprintln!(rt;
        "ecbench: {wrong}\nusage: ecbench FLASH [--bus lpc|i2c|spi] [--pin on|off] < SCRIPT"
    );
    ExitCode::from(Exit::BadWords.status())
}

// The status of an exit for which the flash file's size is the cause: its path and size are told with it.
fn told_with_size(rt: &HostRuntime, path: &str, exit: Exit) -> ExitCode {
    let Ok(metadata) = fs::metadata(rt, path) else {
        return told(rt, exit);
    };
    let _ = eprintln!(rt; "ecbench: {path} has {} bytes: {exit}", metadata.len());
    ExitCode::from(exit.status())
}

// The status of a line that is outside the grammar: where it is at fault is told, and what was expected there.
fn told_line(rt: &HostRuntime, exit: Exit, number: u32, line: &[u8]) -> ExitCode {
    let Some(fault) = fault_of(line) else {
        return told(rt, exit);
    };
    let faulty = FaultyLine {
        number,
        line,
        fault,
    };
    let _ = eprintln!(rt; "ecbench: {faulty}");
    ExitCode::from(exit.status())
}

// The status of a line whose image could not be read: the image is named.
fn told_image(rt: &HostRuntime, exit: Exit, line: &[u8]) -> ExitCode {
    let _ = eprintln!(rt; "ecbench: {}: {exit}", image_of(line));
    ExitCode::from(exit.status())
}

// The status of an exit with an error as its cause, which is told with it.
fn told_with_cause(rt: &HostRuntime, exit: Exit, cause: Option<&io::Error>) -> ExitCode {
    let Some(error) = cause else {
        return told(rt, exit);
    };
    let _ = eprintln!(rt; "ecbench: {exit}: {error}");
    ExitCode::from(exit.status())
}
