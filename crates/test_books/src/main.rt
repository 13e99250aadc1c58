// Runs many books in one go, for tests: standard input is a row of framed books, each a line with
// its length in bytes and then that many bytes. The output of each is written to standard output,
// one after another. A fault of the framing ends it.
#![tactic(auto)]

ghost use Rattle.std.specs.Prelude.{◌<◌, length, IfSome};

use book_report::{OUTPUT_SIZE, report};
use book_values::read_value;

const STDIN_FILENO: i32 = 0;

const STDOUT_FILENO: i32 = 1;

// Runs a book and writes its output. Answers whether it was written. The output is an array and a
// length, as are the books: a Vec would add the kit's memory to what this program assumes.
fn run_one(book: &[u8]) -> bool {
    let mut out = [0u8; OUTPUT_SIZE];
    let written = report(book, &mut out);
    io::write_all(STDOUT_FILENO, &out[..written.length])
}

// The first of framed books, and those after it. None where there is no more, or the framing is at
// fault.
fn first_book(books: &[u8]) -> Option<(&[u8], &[u8])>
    ensures { IfSome result (λ r. length r.1.now < length books.now) }
{
    let (size, next) = read_value(books, 0)?;
    let framed = books.get(next..)?.strip_prefix(b"\n")?;
    framed.split_at_checked(size as usize)
}

// Runs all framed books, until none is left: nothing is counted.
fn run_all(books: &[u8]) {
    let mut books = books;
    while let Some((book, rest)) = first_book(books) {
        if !run_one(book) {
            return;
        }
        books = rest;
    }
}

fn main() {
    // More than the framed books of the tests. An array, as the output of each.
    let mut books = [0u8; 500_000];
    let length = io::read_full(STDIN_FILENO, &mut books);
    run_all(&books[..length]);
}
