// Document 01's program: reads a book from standard input, runs it, and writes its output to
// standard output. Where it fails, a line on standard error says at what. Started with an argument,
// as ./rothc does, it writes the exit status of ./rothc to descriptor 3, as a digit.
#![tactic(auto)]

ghost use Rattle.std.specs.Prelude.{◌≡◌, ◌<◌, ◌≤◌, false, true, length, IfOk, MatchResult};
ghost use Rattle.book_report.specs.Report.{book_refused};
ghost use Rattle.rothc.specs.Status.{status_number, status_of};

use book_report::{OUTPUT_SIZE, report};
use io::write_all;
use std::env::{Env, FillError};
use std::fmt;
use std::io::{Error, ErrorKind, Print, Read};

const STATUS_FILENO: i32 = 3;

// How many times in a row a call is made again after a signal: every loop has to end, and at a
// signal each microsecond this one takes a quarter of an hour.
const TRIES: u64 = 1_000_000_000;

// How many times the status is handed over, where the answer doesn't say why it was not taken.
const STATUS_TRIES: u64 = 1_000;

// Reads to the end of the input, in pieces of any length, or until the slice is full. What was read
// is counted, since that is what it gives.
fn read_book<R: Read>(input: &mut R, book: &mut [u8]) -> Result<usize, Error>
    ensures { IfOk result (λ n. n ≤ length book.new) }
{
    let mut length = 0;
    let mut tries = TRIES;
    while length < book.len() {
        match input.read(&mut book[length..]) {
            Ok(0) => break,
            Ok(piece) => {
                length += piece;
                tries = TRIES;
            }
            Err(e) if e.kind() == ErrorKind::Interrupted && 0 < tries => tries -= 1,
            Err(e) => return Err(e),
        }
    }
    Ok(length)
}

// Writes all of a text, in pieces of any length, or fails. A write that takes nothing is a failure.
// The loop counts nothing: it ends where nothing is left of the text.
fn write_whole<W: Print>(out: &W, text: &[u8]) -> Result<(), Error> {
    let mut left = text;
    let mut tries = TRIES;
    while !left.is_empty() {
        match out.write_some(left) {
            Ok(0) => return Err(Error::from(ErrorKind::WriteZero)),
            Ok(taken) => {
                left = &left[taken..];
                tries = TRIES;
            }
            Err(e) if e.kind() == ErrorKind::Interrupted && 0 < tries => tries -= 1,
            Err(e) => return Err(e),
        }
    }
    Ok(())
}

// What failed, and why.
#[derive(Drop)]
enum Fault {
    Input(Error),
    Output(Error),
}

impl fmt::Display for Fault {
    fn fmt<W: fmt::Write>(&self, f: &mut fmt::Formatter<W>) -> fmt::Result {
        match self {
            Fault::Input(why) => write!(f, "standard input: {why}"),
            Fault::Output(why) => write!(f, "standard output: {why}"),
        }
    }
}

// Says on standard error what failed, in the system's words, which end where its number begins.
fn say(rt: &HostRuntime, fault: &Fault) -> Result<(), Error> {
    let mut words = format!(in rt.alloc(); "rothc: {fault}")?;
    if let Some(end) = words.as_str().find(" (os error") {
        words.truncate(end);
    }
    eprintln!(rt; "{words}")
}

// Runs a book and writes its output whole, or fails. Gives whether the book was refused, of which
// `Status::of` makes a status.
fn run(rt: &HostRuntime, book: &[u8]) -> Result<bool, Fault>
    ensures { IfOk result (λ refused. refused ≡ book_refused book.now) }
{
    // An array and a length, as in `main`: a Vec's memory could fail.
    let mut out = [0u8; OUTPUT_SIZE];
    let written = report(book, &mut out);
    write_whole(rt, &out[..written.length]).map_err(Fault::Output)?;
    Ok(written.refused)
}

// The exit status.
#[derive(Clone, Copy)]
enum Status {
    Months = 0,
    Refused = 1,
    Failed = 2,
}

impl Status {
    // By whether an output was written whole, and whether it is a refusal.
    #[tactic(auto, unfolding(crate::specs::Status::status_of))]
    fn of(ran: &Result<bool, Fault>) -> Status
        ensures { MatchResult ran.now
            (λ refused. status_number result ≡ status_of true refused)
            (λ _. status_number result ≡ status_of false false) }
    {
        match ran {
            Ok(false) => Status::Months,
            Ok(true) => Status::Refused,
            Err(_) => Status::Failed,
        }
    }

    // Its number, which is a digit.
    fn number(self) -> u8
        ensures number { result ≡ status_number self }
        ensures digit { result < 10 }
    {
        self as u8
    }
}

// Hands the exit status to ./rothc, where that started the program. A write that fails is made
// again, since a signal may have interrupted it: the answer doesn't say which.
fn tell(rt: &HostRuntime, status: Status) {
    // Of a fixed size, as the book.
    let mut argument = [0u8; 1];
    if let Err(FillError::NotPresent) = rt.arg(1, &mut argument) {
        return;
    }
    for _ in 0..STATUS_TRIES {
        if write_all(STATUS_FILENO, &[b'0' + status.number()]) {
            return;
        }
    }
}

// Where reading fails nothing is written. The array's last byte is the first one past the 65,536
// that a book may have. The program by itself ends with 0, as is documented, and ./rothc is handed
// the status: so there is no ExitCode.
fn main(rt: HostRuntime) {
    let mut book = [0u8; 65_537];
    let ran = match read_book(&mut rt.stdin(), &mut book) {
        Ok(length) => run(&rt, &book[..length]),
        Err(why) => Err(Fault::Input(why)),
    };
    if let Err(fault) = &ran {
        let _ = say(&rt, fault);
    }
    tell(&rt, Status::of(&ran));
}
