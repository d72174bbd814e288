// lmcard: makes card images in the LM80C DOS format and reads their labels. It prints what it did, a line an action; what
// went wrong goes to standard error, with status 1.
#![tactic(auto)]

// The words of the command line.
mod command;
// A day with a card in memory.
mod demo;
// What can go wrong, in words.
mod failure;
// Card images as files.
mod files;
// The geometry that an image file stands for.
mod geometry;
// A label for a person to read.
mod show;

use command::Command;
use failure::Failure;
use std::env;
use std::process::ExitCode;

fn run(rt: &HostRuntime, words: &[String]) -> Result<(), Failure> {
    match Command::parse(words)? {
        Command::New {
            image,
            sectors,
            name,
            id,
        } => files::new(rt, image, sectors, name, id),
        Command::Info { image } => files::info(rt, image),
        Command::Demo => demo::run(rt),
    }
}

// Says what went wrong, and with which image.
fn report(rt: &HostRuntime, words: &[String], failure: &Failure) {
    let _ = match words {
        [_, image, ..] if !matches!(failure, Failure::Usage) => {
            eprintln!(rt; "lmcard: {image}: {failure}")
        }
        _ => eprintln!(rt; "lmcard: {failure}"),
    };
}

// Carries out the command line, and says what went wrong.
fn carry_out(rt: &HostRuntime) -> Result<(), Failure> {
    let words: Vec<String> = env::args(rt)?.skip(1).collect(rt.alloc())?;
    run(rt, &words).inspect_err(|failure| report(rt, &words, failure))
}

// An exit code, since a failure that `main` returns would be printed once more.
fn main(rt: HostRuntime) -> ExitCode {
    match carry_out(&rt) {
        Ok(()) => ExitCode::SUCCESS,
        Err(_) => ExitCode::FAILURE,
    }
}
