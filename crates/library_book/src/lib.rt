// The body of rothc_book: a book in, the program's output out.
#![tactic(auto)]

ghost use Rattle.std.specs.Prelude.{◌≡◌};
ghost use Rattle.library_month.specs.Calls.{call_number};
ghost use Rattle.library_book.specs.Calls.{rothc_book};

use book_digits::write_bytes;
use book_report::{OUTPUT_SIZE, write_answer};
use book_run::{ROWS_WIDTH, run_book};
use library_month::{CallAnswer, CallRefusal};
use month_refusals::Refusal;

// What the program writes for a book, with its length, which C takes through a pointer. An output
// that is too short for it stays as it was.
pub fn book(book: &[u8], out: &mut [u8], length: &mut u64) -> CallAnswer
    ensures { record { number = call_number result; out = out.new; size = length.new }
        ≡ rothc_book book.now out.old }
{
    // Of fixed sizes: there is no heap.
    let mut rows = [0u64; ROWS_WIDTH];
    let mut text = [0u8; OUTPUT_SIZE];
    let answer = run_book(book, &mut rows);
    let n = write_answer(answer, &rows, &mut text);
    *length = n as u64;
    if out.len() < n {
        return Err(CallRefusal::Refused(Refusal::Room));
    }
    write_bytes(out, 0, &text[..n]);
    answer?;
    Ok(())
}
