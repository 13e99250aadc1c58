// The rows of a list of months, step 7 of document 01: weather, land and months' rows as numbers in
// lent memory, read and written, how many there are, and the entries of a month. Lists, books and
// the library use these functions, which alone know how many numbers a row has, and their order.
// A row is asked for by its number beside the slice, as C lends the numbers of all rows.
#![tactic(auto)]

ghost use Rattle.std.specs.Prelude.{◌≡◌, ◌+◌, ◌*◌, ◌%◌, ◌≤◌, ◌<◌, length};
ghost use Rattle.std.proofs.lemmas.List.Edits.{sets};
ghost use Rattle.list_rows.specs.Rows.{weather_width, land_width, entries_width, row_width};
ghost use Rattle.list_rows.specs.Rows.{weather_from, land_from, weather_numbers, land_numbers};
ghost use Rattle.list_rows.specs.Rows.{entries_of, row_written};
ghost use Rattle.list_rows.specs.Rows.{weather_rows, rows_outside, entries_at};

use month_layouts::{numbers_at, put_numbers_at};
use month_state::{Entries, Land, Row, Weather};

// How many numbers each has.
pub const WEATHER_WIDTH: usize = 4;

pub const LAND_WIDTH: usize = 4;

pub const ENTRIES_WIDTH: usize = WEATHER_WIDTH + LAND_WIDTH;

pub const ROW_WIDTH: usize = 7;

// A list, a book's section and a table have at most so many rows. Each asks it in a function of its
// own, as the papers do in a sentence of its own.
pub const ROWS_LIMIT: usize = 1200;

// The weather row from a place on. Weather and land have a function each way, since their fields
// have names of their own; what they share is `numbers_at` and `put_numbers`.
#[tactic(auto, using(crate::proofs::Layouts::weather_there), unfolding(crate::specs::Rows::weather_from))]
fn weather_from(numbers: &[i64], place: usize) -> Weather
    requires { place + weather_width ≤ length numbers.now }
    ensures { result ≡ weather_from numbers.now place }
{
    let [temperature, rain, evaporation, source]: [i64; WEATHER_WIDTH] = numbers_at(numbers, place);
    Weather {
        temperature,
        rain,
        evaporation,
        source,
    }
}

// The land row from a place on.
#[tactic(auto, using(crate::proofs::Layouts::land_there), unfolding(crate::specs::Rows::land_from))]
fn land_from(numbers: &[i64], place: usize) -> Land
    requires { place + land_width ≤ length numbers.now }
    ensures { result ≡ land_from numbers.now place }
{
    let [cover, plant, manure, activity]: [i64; LAND_WIDTH] = numbers_at(numbers, place);
    Land {
        cover,
        plant,
        manure,
        activity,
    }
}

// The numbers of a weather row, in their order.
#[tactic(auto, unfolding(crate::specs::Rows::weather_numbers))]
pub fn weather_numbers(w: Weather) -> [i64; WEATHER_WIDTH]
    ensures { result ≡ weather_numbers w }
{
    [w.temperature, w.rain, w.evaporation, w.source]
}

// The numbers of a land row, in their order.
#[tactic(auto, unfolding(crate::specs::Rows::land_numbers))]
pub fn land_numbers(l: Land) -> [i64; LAND_WIDTH]
    ensures { result ≡ land_numbers l }
{
    [l.cover, l.plant, l.manure, l.activity]
}

// A month's entries from their numbers.
#[tactic(auto, unfolding(crate::specs::Rows::entries_of))]
pub fn entries_of(numbers: &[i64]) -> Entries
    requires { length numbers.now ≡ entries_width }
    ensures { result ≡ entries_of numbers.now }
{
    Entries {
        weather: weather_from(numbers, 0),
        land: land_from(numbers, WEATHER_WIDTH),
    }
}

// Row i, counted from 0, of rows of N numbers, written in lent memory. Everything else stays.
pub fn put_numbers<T: Copy, const N: usize>(numbers: &mut [T], i: usize, row: [T; N])
    requires { N * i + N ≤ length numbers.old }
    ensures { numbers.new ≡ sets numbers.old (N * i) row }
{
    put_numbers_at(numbers, N * i, row);
}

// The row of the month at place j, counted from 0, written in lent memory.
#[tactic(auto, unfolding(crate::specs::Rows::row_written, crate::specs::Rows::row_numbers))]
pub fn put_row(out: &mut [u64], j: usize, row: Row)
    requires { row_width * j + row_width ≤ length out.old }
    ensures { out.new ≡ row_written out.old j row }
{
    let Row {
        dpm,
        rpm,
        bio,
        hum,
        iom,
        co2,
        deficit,
    } = row;
    put_numbers(
        out,
        j,
        [dpm.0, rpm.0, bio.0, hum.0, iom.0, co2.0, deficit.0],
    );
}

// 3: whether so many numbers aren't rows of a width, or the rows are outside 1 to 1,200.
#[tactic(auto, unfolding(crate::specs::Rows::rows_outside))]
pub fn rows_outside(width: usize, count: usize) -> bool
    requires { 0 < width }
    ensures { result ≡ rows_outside width count }
{
    count % width != 0 || !(1..=ROWS_LIMIT).contains(&(count / width))
}

// The entries of the month at place j, counted from 0, i being its weather row.
#[tactic(auto, unfolding(crate::specs::Rows::entries_at))]
pub fn entries_at(weather: &[i64], land: &[i64], i: usize, j: usize) -> Entries
    requires weather { weather_width ≤ length weather.now }
    requires row { i ≡ j % weather_rows weather.now }
    requires land { land_width * j + land_width ≤ length land.now }
    ensures { result ≡ entries_at weather.now land.now j }
{
    Entries {
        weather: weather_from(weather, WEATHER_WIDTH * i),
        land: land_from(land, LAND_WIDTH * j),
    }
}

// The weather row that follows row i: after the last, the first again. Tried with `%`: a month of a
// list of 12 takes 1.05 times as long.
pub fn next_weather(weather: &[i64], i: usize) -> usize
    requires { i < weather_rows weather.now }
    ensures { result ≡ (i + 1) % weather_rows weather.now }
{
    let rows = weather.len() / WEATHER_WIDTH;
    if i + 1 < rows { i + 1 } else { 0 }
}
