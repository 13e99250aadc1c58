// A history of a field, from the new state of a soil: months, lists, spin-ups and takings-back,
// each an act of ten numbers. What each returns is written, and then the whole field. (Those of
// test_calls read a line and write one each; an act's months are alike.) The calls
// are the bodies of the functions for C, which have one line each. All arrays here are of a fixed
// size, as the memory in the C interface: a Vec's could fail, and would add to what the test
// programs assume.
#![tactic(auto)]

ghost use Rattle.std.specs.Prelude.{◌≡◌};
ghost use Rattle.test_history.specs.History.{history_read};

use library_month::{CallAnswer, call_number};
use list_rows::{ENTRIES_WIDTH, LAND_WIDTH, ROW_WIDTH, WEATHER_WIDTH};
use month_layouts::{FIELD_WIDTH, SOIL_WIDTH};
use test_lines::Line;
use test_numbers::Reader;

// An act is its kind, a number and a month's entries: ten numbers and no struct, as a line of the
// reference has them. A history has so many acts at most, and a
// list in it so many months.
const ACT_WIDTH: usize = 2 + ENTRIES_WIDTH;

const MOST_ACTS: usize = 80;

const MOST_MONTHS: usize = 60;

type Weather = [i64; WEATHER_WIDTH];

type Land = [i64; LAND_WIDTH];

// What an act does.
enum Kind {
    TakeBack,
    Month,
    List,
    SpinUp,
}

impl From<i64> for Kind {
    fn from(number: i64) -> Kind {
        match number {
            0 => Kind::TakeBack,
            1 => Kind::Month,
            2 => Kind::List,
            // 3; the reference writes no other number
            _ => Kind::SpinUp,
        }
    }
}

// A single month call.
fn month(field: &mut [u64], number: u64, entries: &[i64]) -> CallAnswer {
    let mut row = [7u64; ROW_WIDTH];
    library_month::month(field, number, entries, &mut row)
}

// A list of so many months alike. A number above the most, which the reference doesn't write, is
// taken as the most.
fn list(field: &mut [u64], number: u64, weather: &Weather, land: &Land) -> CallAnswer {
    let months = MOST_MONTHS.min(number as usize);
    let lands = [*land; MOST_MONTHS];
    let mut rows = [[7u64; ROW_WIDTH]; MOST_MONTHS];
    let mut place = 7u64;
    library_list::list(
        field,
        weather,
        lands[..months].as_flattened(),
        rows[..months].as_flattened_mut(),
        &mut place,
    )
}

// A spin-up of so many years of twelve months alike.
fn spin_up(field: &mut [u64], years: u64, weather: &Weather, land: &Land) -> CallAnswer {
    let weathers = [*weather; 12];
    let lands = [*land; 12];
    let mut result = [7u64; 2];
    library_list::spin_up(
        field,
        weathers.as_flattened(),
        lands.as_flattened(),
        years,
        &mut result,
    )
}

// An act. Its number is never below 0, so that its distance from 0 is the number itself.
fn act(field: &mut [u64], numbers: &[i64; ACT_WIDTH]) -> CallAnswer {
    let number = numbers[1].unsigned_abs();
    let entries = &numbers[2..];
    let weather = entries.first_chunk().unwrap();
    let land = entries.last_chunk().unwrap();
    match Kind::from(numbers[0]) {
        Kind::TakeBack => library_back::take_back(field),
        Kind::Month => month(field, number, entries),
        Kind::List => list(field, number, weather, land),
        Kind::SpinUp => spin_up(field, number, weather, land),
    }
}

// The line of a history, read after its letter. The contract says its form and what is left of the
// text after it, on every path, and no more: what is called and written is in no value that this
// gives, and is held against the reference's lines when test_calls runs.
#[tactic(auto, unfolding(crate::specs::History::history_read))]
pub fn history(reader: &mut Reader) -> Option<()>
    ensures { (result, reader.new.left.now) ≡ history_read reader.old.left.now }
{
    let soil: [u64; SOIL_WIDTH] = reader.array()?;
    let mut memory = [0i64; ACT_WIDTH * MOST_ACTS];
    let (acts, _) = reader.list(&mut memory)?.as_chunks();
    reader.line_end()?;
    let mut field = [7u64; FIELD_WIDTH];
    let mut line = Line::new();
    line.add(&[call_number(library_month::start(&soil, &mut field))]);
    for numbers in acts {
        line.add(&[call_number(act(&mut field, numbers))]);
    }
    line.add(&field);
    line.finish();
    Some(())
}
