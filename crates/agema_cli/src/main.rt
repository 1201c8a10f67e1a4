//! The program: it runs the command of its words over the files of the system and the standard output.
#![tactic(auto)]

ghost use Rattle.std.specs.Prelude.{◌≡◌};
ghost use Rattle.std.specs.Process.{exit_status};
ghost use Rattle.agema_answers.specs.Status.{status_of};

mod help;

use crate::help::{HELP, VERSION};
use agema_answers::Ended;
use agema_core::run;
use agm_shelf::{FilesShelf, StdSink};
use std::process::ExitCode;
use std::{env, io};

// The exit status for each of the program's own ends, where the words can't be had or help can't be printed.
const NO_MEMORY: u8 = 5;

const NOT_PRINTED: u8 = 6;

const NOT_TEXT: u8 = 7;

// The words behind the program's name.
fn words_of(rt: &HostRuntime) -> Result<Vec<String>, io::Error> {
    let mut words = Vec::new(rt.alloc());
    for word in env::args(rt)?.skip(1) {
        if words.push(word).is_err() {
            return Err(io::Error::from(io::ErrorKind::OutOfMemory));
        }
    }
    Ok(words)
}

// What `--help` and `--version` print, each as the only word.
fn own_text(words: &[String]) -> Option<&'static str> {
    match words {
        [word] if word.as_str() == "--help" => Some(HELP),
        [word] if word.as_str() == "--version" => Some(VERSION),
        _ => None,
    }
}

// Tells on standard error how a run ended, where it did not do all. Nothing is told where memory is wanted for the line.
fn tell(rt: HostRuntime, ended: &Ended) {
    if matches!(ended, Ended::Done) {
        return;
    }
    if let Ok(line) = ended.explain(rt.alloc()) {
        let _ = rt.stderr().write_all(line.as_slice());
    }
}

// Tells how a run ended, and answers with its status.
fn end(rt: HostRuntime, ended: &Ended) -> ExitCode
    ensures { exit_status result ≡ status_of ended.now }
{
    tell(rt, ended);
    ExitCode::from(ended.status())
}

// Runs the command that the words are.
fn run_words(rt: HostRuntime, words: &[String]) -> ExitCode {
    let mut shelf = FilesShelf::new(rt);
    let mut sink = StdSink::new(rt);
    end(rt, &run(rt.alloc(), words, &mut shelf, &mut sink))
}

fn main(rt: HostRuntime) -> ExitCode {
    let words = match words_of(&rt) {
        Ok(words) => words,
        Err(error) if error.kind() == io::ErrorKind::OutOfMemory => return ExitCode::from(
            NO_MEMORY,
        ),
        Err(_) => return ExitCode::from(NOT_TEXT),
    };
    match own_text(words.as_slice()) {
        Some(text) => match print!(rt; "{text}") {
            Ok(()) => ExitCode::from(0),
            Err(_) => ExitCode::from(NOT_PRINTED),
        },
        None => run_words(rt, words.as_slice()),
    }
}
