// The lines of a weather office's table on a byte slice: month;temperature;rain;evapotranspiration,
// each ended by byte 10. specs/Lines.antt says what each function gives.
#![tactic(auto)]

ghost use Rattle.std.specs.Prelude.{◌≡◌};
ghost use Rattle.table_lines.specs.Lines.{read_tenths, read_signed_tenths, next_tenths};
ghost use Rattle.table_lines.specs.Lines.{next_signed, table_line, line_ends, line_count};

use book_lines::{WeatherNumbers, ended};
use book_values::{after_minus, digit_at, past, read_value, without_minus};

// A value with a dot and one digit after it, in tenths.
#[tactic(auto, using(book_values::proofs::Laws::value_below), unfolding(crate::specs::Lines::read_tenths, crate::specs::Lines::with_tenth, book_values::specs::Values::past, book_values::specs::Values::digit_at))]
fn read_tenths(s: &[u8], at: usize) -> Option<(u64, usize)>
    ensures { result ≡ read_tenths s.now at }
{
    let (n, dot) = read_value(s, at)?;
    let place = past(s, dot, b'.')?;
    let tenths = digit_at(s, place)?;
    Some((10 * n + tenths, place + 1))
}

// The same where there may be a minus. Not one function with the book's value, which would take the
// reading of a number as a closure: each is a match of two arms.
#[tactic(auto, using(crate::proofs::Tenths::tenths_fit, book_values::proofs::Minus::signed_minus, book_values::proofs::Minus::signed_plain), unfolding(crate::specs::Lines::read_signed_tenths, book_values::specs::Values::past))]
fn read_signed_tenths(s: &[u8], at: usize) -> Option<(i64, usize)>
    ensures { result ≡ read_signed_tenths s.now at }
{
    match past(s, at, b'-') {
        Some(first) => after_minus(read_tenths(s, first)),
        None => without_minus(read_tenths(s, at)),
    }
}

// A semicolon, and the number after it. This, the next and the book's `spaced_value` are a line
// each; one for all would take the byte and the reading.
#[tactic(auto, unfolding(crate::specs::Lines::next_tenths, book_values::specs::Values::past))]
fn next_tenths(s: &[u8], at: usize) -> Option<(u64, usize)>
    ensures { result ≡ next_tenths s.now at }
{
    read_tenths(s, past(s, at, b';')?)
}

// The same where there may be a minus.
#[tactic(auto, unfolding(crate::specs::Lines::next_signed, book_values::specs::Values::past))]
fn next_signed(s: &[u8], at: usize) -> Option<(i64, usize)>
    ensures { result ≡ next_signed s.now at }
{
    read_signed_tenths(s, past(s, at, b';')?)
}

// The line of this number: its temperature, rain and evapotranspiration in tenths.
#[tactic(auto, unfolding(crate::specs::Lines::table_line, crate::specs::Lines::numbered))]
pub fn table_line(s: &[u8], at: usize, number: u64) -> Option<(WeatherNumbers, usize)>
    ensures { result ≡ table_line s.now at number }
{
    let (month, a) = read_value(s, at)?;
    if month != number {
        return None;
    }
    let (temperature, b) = next_signed(s, a)?;
    let (rain, c) = next_tenths(s, b)?;
    let (evapotranspiration, next) = ended(s, next_tenths(s, c))?;
    let numbers = WeatherNumbers {
        temperature,
        rain,
        evaporation: evapotranspiration,
    };
    Some((numbers, next))
}

// How many bytes 10 a text has. The loop takes many bytes in a turn of the machine. Tried as a
// counted `filter`, which takes each by itself: a line of a long table took 1.22 times as long.
#[tactic(auto, using(crate::proofs::Counting::ends_empty, crate::proofs::Counting::ends_front, crate::proofs::Counting::ends_whole, crate::proofs::Counting::ends_one_more, crate::proofs::Counting::ends_no_more))]
fn line_ends(s: &[u8]) -> usize
    ensures { result ≡ line_ends s.now }
{
    let mut ends = 0;
    for byte in s {
        if *byte == b'\n' {
            ends += 1;
        }
    }
    ends
}

// How many lines a table has: one for each byte 10, and one for bytes after the last of them.
#[tactic(auto, using(crate::proofs::Counting::ends_most, crate::proofs::Counting::last_ended, crate::proofs::Counting::last_open, crate::proofs::Counting::no_last))]
pub fn line_count(s: &[u8]) -> usize
    ensures { result ≡ line_count s.now }
{
    let ends = line_ends(s);
    match s.last() {
        Some(last) if *last != b'\n' => ends + 1,
        _ => ends,
    }
}
