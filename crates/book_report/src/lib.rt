// A book in, the program's output out: the book is run and its answer written, as bytes, to a lent
// array. specs/Report.antt says what is written, and whether it is a refusal.
#![tactic(auto)]

ghost use Rattle.std.specs.Prelude.{◌≡◌, ◌≤◌, length};
ghost use Rattle.book_digits.specs.Digits.{overwritten};
ghost use Rattle.book_report.specs.Report.{months_run, output_of, report_of, book_refused};

use book_output::{write_finished, write_refused};
use book_run::{BookAnswer, ROWS_WIDTH, run_book};

// Always enough bytes for what is written for a book: 1,200 lines of at most 168, the first and the
// last.
pub const OUTPUT_SIZE: usize = 204_800;

// Writes what a book's answer and its rows give, and gives the length.
#[tactic(auto, unfolding(crate::specs::Report::output_of))]
pub fn write_answer(
    answer: BookAnswer,
    rows: &[u64; ROWS_WIDTH],
    out: &mut [u8; OUTPUT_SIZE],
) -> usize
    requires { months_run answer ≤ 1200 }
    ensures length { result ≡ length (output_of answer rows.now) }
    ensures written { out.new
        ≡ overwritten out.old 0 (output_of answer rows.now) }
    ensures within { result ≤ length out.new }
{
    match answer {
        Ok(ran) => write_finished(out, ran.months as usize, ran.total.0, ran.co2.0, rows),
        Err(e) => write_refused(out, e.refusal.number(), e.place),
    }
}

// What was written for a book: its length, and whether it is a refusal. A flag, since both kinds
// have a length.
#[derive(Clone, Copy)]
pub struct Written {
    pub length: usize,
    pub refused: bool,
}

// Runs a book and writes its output from the start of `out`. Gives the output's length, and whether
// the book was refused.
#[tactic(auto, unfolding(crate::specs::Report::report_of, crate::specs::Report::book_refused))]
pub fn report(book: &[u8], out: &mut [u8; OUTPUT_SIZE]) -> Written
    ensures length { result.length ≡ length (report_of book.now) }
    ensures refused { result.refused ≡ book_refused book.now }
    ensures written { out.new
        ≡ overwritten out.old 0 (report_of book.now) }
    ensures within { result.length ≤ length out.new }
{
    // Of a fixed size: there is no heap.
    let mut rows = [0u64; ROWS_WIDTH];
    let answer = run_book(book, &mut rows);
    let length = write_answer(answer, &rows, out);
    Written {
        length,
        refused: answer.is_err(),
    }
}
