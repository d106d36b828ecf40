// Drives rigs over a week's book: one over its plan as laid, and others over the sheet that its edits leave.

#![tactic(auto)]

mod naming;
mod telling;
mod watching;
mod weeks;

use anyhow::anyhow;
use book::load::LONGEST_BOOK;
use clap::{Arg, ArgAction, ArgMatches, Command};
use std::alloc::Global;
use std::io::{self, Read, Write};
use std::process::ExitCode;
use std::{env, fs};
use task::Facts;
use weeks::Week;

// One byte past the longest book, so that a longer one is seen to be longer.
const MOST_BYTES: u64 = LONGEST_BOOK as u64 + 1;

const ABOUT: &str = "Drives rigs over a week's book";

fn command<'a>(heap: Global) -> anyhow::Result<Command<'a>> {
    let book = Arg::new(heap, "BOOK").help("the book; standard input without it");
    let without = Arg::new(heap, "without")
        .long("without")
        .value_name("FACT")
        .help("a start fact, by its number, that the rigs lack")
        .action(ArgAction::Set);
    Ok(
        Command::new(heap, "drive_week")
            .about(ABOUT)
            .arg(without)?
            .arg(book)?,
    )
}

fn bytes_of<R: Read + Drop>(source: R, heap: Global) -> io::Result<Vec<u8>> {
    let mut bytes = Vec::new(heap);
    source.take(MOST_BYTES).read_to_end(&mut bytes)?;
    Ok(bytes)
}

// The bytes of the book that the command line names.
fn book_of(rt: &HostRuntime, name: Option<&str>) -> io::Result<Vec<u8>> {
    match name {
        Some(path) => bytes_of(fs::open(rt, path)?, rt.alloc()),
        None => bytes_of(rt.stdin(), rt.alloc()),
    }
}

// Tells of the book's week; whether every rig came to the end of its sheet.
fn tell<W: Write>(out: &mut W, book: &[u8], lacking: &Facts, heap: Global) -> anyhow::Result<bool> {
    let week = Week::read(book, heap)?;
    let start = week.start_without(lacking);
    let done = week.tell_lowest(out, &start, heap)?;
    let highest = week.tell_highest(out, &start, &done)?;
    Ok(done.as_laid.is_ok() && done.as_edited.is_ok() && highest)
}

fn lacking(matches: &ArgMatches<'_>) -> anyhow::Result<Facts> {
    let mut facts = Facts::empty();
    if let Some(text) = matches.get_str("without") {
        if !facts.insert(text.parse::<usize>()?) {
            return Err(anyhow!("there is no fact {text}"));
        }
    }
    Ok(facts)
}

fn start(rt: &HostRuntime, matches: &ArgMatches<'_>) -> anyhow::Result<bool> {
    let lacking = lacking(matches)?;
    let book = book_of(rt, matches.get_str("BOOK"))?;
    let mut out = Vec::new(rt.alloc());
    let finished = tell(&mut out, book.as_slice(), &lacking, rt.alloc())?;
    rt.write_all(out.as_slice())?;
    Ok(finished)
}

fn main(rt: HostRuntime) -> anyhow::Result<ExitCode> {
    let mut words = Vec::new(rt.alloc());
    for word in env::args(&rt)? {
        words.push(word)?;
    }
    let matches = match command(rt.alloc())?.try_get_matches_from(words.as_slice()) {
        Ok(matches) => matches,
        Err(error) => {
            error.print(&rt)?;
            return Ok(ExitCode::from(error.exit_code() as u8));
        }
    };
    match start(&rt, &matches) {
        Ok(true) => Ok(ExitCode::SUCCESS),
        Ok(false) => Ok(ExitCode::FAILURE),
        Err(fault) => {
            eprintln!(rt; "drive_week: {fault}")?;
            Ok(ExitCode::FAILURE)
        }
    }
}

#[cfg(test)]
mod tests;
