// Reads a week's book, carries out its edits and lists the sheet that they leave, or says why the book is refused.

#![tactic(auto)]

use anyhow::anyhow;
use book::load::LONGEST_BOOK;
use std::alloc::Global;
use std::io::Read;
use std::{env, fs, io};
use week::{Outcome, answer};

const HELP: &str = "usage: runsheet [BOOK]

Reads a week's book from the file BOOK, or from standard input, lays its plan
and carries out its edits. Writes a line for each edit, `done' with what it
saves or `no' with the number of its refusal, then the price of the sheet and
its steps. A book that is refused gives the one line `bad' with the refusal's
number and line, a plan that cannot be laid the one line `unlaid' with a 3, the
place and the fact that it wants, and both give status 1.";

// One byte past the longest book, so that a longer one is seen to be longer.
const MOST_BYTES: u64 = LONGEST_BOOK as u64 + 1;

// Longer than any answer: the line for an edit is at most two bytes longer than the edit's own, and a listing has at most
// 129 lines of at most 16 bytes.
const ANSWER_ROOM: usize = 65_536;

fn bytes_of<R: Read + Drop>(source: R, heap: Global) -> io::Result<Vec<u8>> {
    let mut bytes = Vec::new(heap);
    source.take(MOST_BYTES).read_to_end(&mut bytes)?;
    Ok(bytes)
}

// Whether the book was accepted. By a bool: a refused book is no fault to report, since its answer says why.
fn run(rt: &HostRuntime, book: &[u8]) -> anyhow::Result<bool> {
    let mut out = [0; ANSWER_ROOM];
    let outcome = answer(book, &mut out).map_err(|_| anyhow!("the answer is too long"))?;
    let (Outcome::Listed(len) | Outcome::Refused(len)) = outcome;
    rt.write_all(&out[..len])?;
    Ok(matches!(outcome, Outcome::Listed(_)))
}

// The bytes of the book that the arguments name.
fn book_of(rt: &HostRuntime, name: Option<String>) -> io::Result<Vec<u8>> {
    match name {
        Some(path) => bytes_of(fs::open(rt, path.as_str())?, rt.alloc()),
        None => bytes_of(rt.stdin(), rt.alloc()),
    }
}

fn start(rt: &HostRuntime) -> anyhow::Result<bool> {
    let mut args = env::args(rt)?;
    let _program = args.next();
    let name = args.next();
    if args.next().is_some() {
        return Err(anyhow!("more than one book; try --help"));
    }
    if name.as_ref().is_some_and(|word| word.as_str() == "--help") {
        println!(rt; "{HELP}")?;
        return Ok(true);
    }
    let book = book_of(rt, name)?;
    run(rt, book.as_slice())
}

fn main(rt: HostRuntime) -> anyhow::Result<()> {
    match start(&rt) {
        Ok(true) => Ok(()),
        // The answer says why; this gives the status.
        Ok(false) => Err(anyhow!("refused")),
        Err(fault) => {
            eprintln!(rt; "runsheet: {fault}")?;
            Err(fault)
        }
    }
}
