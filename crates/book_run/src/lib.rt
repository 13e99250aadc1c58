// The book of document 01: the soil, all weather, then the land, whose rows are read up to the
// first that is malformed and then run as step 7's months. specs/Book.antt says what each function
// gives.
#![tactic(auto)]

ghost use Rattle.std.specs.Prelude.{◌≡◌, ◌*◌, ◌≤◌, ◌<◌, length};
ghost use Rattle.list_rows.specs.Rows.{weather_width};
ghost use Rattle.month_refusals.specs.Asked.{told, Exactly, placed_found, placed_told};
ghost use Rattle.book_lines.specs.Lines.{head_line};
ghost use Rattle.book_run.specs.Book.{bad_count, counted, ending, land_section, land_head};
ghost use Rattle.book_run.specs.Book.{weather_section, weather_head, soil_of, soil_section};
ghost use Rattle.book_run.specs.Book.{book_of};
ghost use Rattle.book_run.specs.BookAsked.{book_asked};

use book_lines::{SoilNumbers, head_line, soil_line};
use book_rows::{LandOfBook, WeatherOfBook, read_rows};
use list_rows::{LAND_WIDTH, ROW_WIDTH, ROWS_LIMIT, WEATHER_WIDTH};
use list_run::run_months;
use month_layouts::MEMORY_WIDTH;
use month_refusals::{CheckedState, Refusal, RefusedAt, check_soil};
use month_state::{Soil, State, five_pools};
use number_units::Grams;

// How many bytes a book has at most.
const LENGTH_LIMIT: usize = 65_536;

// How many numbers the rows of a book's months are at most.
pub const ROWS_WIDTH: usize = ROW_WIDTH * ROWS_LIMIT;

// A book that ran to its end: the months run, the five pools together and the CO2 to date.
#[derive(Clone, Copy)]
pub struct Finished {
    pub months: u64,
    pub total: Grams,
    pub co2: Grams,
}

// A book's answer: it ran to its end, or it is refused on a line.
pub type BookAnswer = Result<Finished, RefusedAt>;

// 3: whether a count of rows is outside 1 to 1,200.
fn bad_count(count: u64) -> bool
    ensures { result ≡ bad_count count }
{
    !(1..=ROWS_LIMIT as u64).contains(&count)
}

// After the last land row: bytes that follow are refused on the line after it.
#[tactic(auto, using(crate::proofs::Laws::pools_fit), unfolding(crate::specs::Book::ending))]
fn ending(s: &[u8], place: usize, line: u64, months: u64, state: CheckedState) -> BookAnswer
    ensures { result ≡ ending s.now place line months state.state }
{
    if place != s.len() {
        return Err(Refusal::Form.on(line));
    }
    Ok(Finished {
        months,
        total: five_pools(state.state),
        co2: state.state.co2,
    })
}

// The land's rows, read into an array, and their months. A book hands on no state that they keep.
// What the sections hand on stays apart, as in specs/Book.antt: place and state are new in each.
fn land_section(
    count: usize,
    s: &[u8],
    place: usize,
    head: u64,
    weather: &[i64],
    state: CheckedState,
    rows: &mut [u64; ROWS_WIDTH],
) -> BookAnswer
    requires weather { weather_width ≤ length weather.now }
    requires count { (count ≤ 1200) × (head < 2000) }
    ensures { record { answer = result; rows = rows.new }
        ≡ land_section count s.now place head weather.now state.state
        rows.old }
{
    // Of a fixed size, with how many rows were read: there is no heap.
    let mut land = [0i64; LAND_WIDTH * ROWS_LIMIT];
    let read = read_rows::<LandOfBook>(s, place, head + 1, count, &mut land);
    let size = LAND_WIDTH * read.rows;
    let mut memory = [0u64; MEMORY_WIDTH];
    let ran = run_months(state, weather, &land[..size], read.rows, rows, &mut memory);
    ran.answer.map_err(|e| e.refusal.on(head + e.place))?;
    let end = read.ends?;
    ending(s, end, head + 1 + count as u64, count as u64, ran.state)
}

// The head of the weather or the land on a line: its count, and the place of its rows.
fn counted_head(s: &[u8], place: usize, name: &[u8], line: u64) -> Result<(usize, usize), RefusedAt>
    ensures { result ≡ counted (head_line s.now place name.now) bad_count line }
{
    let head = head_line(s, place, name);
    let (count, next) = head.ok_or(Refusal::Form.on(line))?;
    if bad_count(count) {
        return Err(Refusal::Rows.on(line));
    }
    Ok((count as usize, next))
}

// The land's head on a line, and its rows.
#[tactic(auto, unfolding(crate::specs::Book::land_head))]
fn land_head(
    s: &[u8],
    place: usize,
    line: u64,
    weather: &[i64],
    state: CheckedState,
    rows: &mut [u64; ROWS_WIDTH],
) -> BookAnswer
    requires { (weather_width ≤ length weather.now) × (line < 2000) }
    ensures { record { answer = result; rows = rows.new }
        ≡ land_head s.now place line weather.now state.state rows.old }
{
    let (count, next) = counted_head(s, place, b"LAND ", line)?;
    land_section(count, s, next, line, weather, state, rows)
}

// The weather's rows, read into an array, and then the land.
fn weather_section(
    count: usize,
    s: &[u8],
    place: usize,
    state: CheckedState,
    rows: &mut [u64; ROWS_WIDTH],
) -> BookAnswer
    requires { (1 ≤ count) × (count ≤ 1200) }
    ensures { record { answer = result; rows = rows.new }
        ≡ weather_section count s.now place state.state rows.old }
{
    // Of a fixed size, as the land's.
    let mut weather = [0i64; WEATHER_WIDTH * ROWS_LIMIT];
    let size = WEATHER_WIDTH * count;
    let next = read_rows::<WeatherOfBook>(s, place, 4, count, &mut weather[..size]).ends?;
    land_head(s, next, count as u64 + 4, &weather[..size], state, rows)
}

// The weather's head on line 3, and its rows.
#[tactic(auto, unfolding(crate::specs::Book::weather_head))]
fn weather_head(
    s: &[u8],
    place: usize,
    state: CheckedState,
    rows: &mut [u64; ROWS_WIDTH],
) -> BookAnswer
    ensures { record { answer = result; rows = rows.new }
        ≡ weather_head s.now place state.state rows.old }
{
    let (count, next) = counted_head(s, place, b"WEATHER ", 3)?;
    weather_section(count, s, next, state, rows)
}

// A line's numbers as a soil. No `From`: both types are of other crates.
fn soil_of(n: SoilNumbers) -> Soil
    ensures { result ≡ soil_of n }
{
    Soil {
        clay: n.clay,
        depth: n.depth,
        kind: n.kind,
        pools: [n.dpm, n.rpm, n.bio, n.hum].map(Grams),
        iom: Grams(n.iom),
    }
}

// The soil on line 2, whose new state the months begin with.
fn soil_section(s: &[u8], place: usize, rows: &mut [u64; ROWS_WIDTH]) -> BookAnswer
    ensures { record { answer = result; rows = rows.new }
        ≡ soil_section s.now place rows.old }
{
    let (numbers, next) = soil_line(s, place).ok_or(Refusal::Form.on(2))?;
    let soil = soil_of(numbers);
    check_soil(soil).map_err(|refusal| refusal.on(2))?;
    let state = CheckedState {
        state: State::new(soil),
    };
    weather_head(s, next, state, rows)
}

// A book: its length, the soil's head on line 1, and all that follows it. Rows past those of the
// months that ran stay as they were. Each refusal is given exactly where it is the first that
// applies, line by line.
pub fn run_book(s: &[u8], rows: &mut [u64; ROWS_WIDTH]) -> BookAnswer
    ensures left { record { answer = result; rows = rows.new }
        ≡ book_of s.now rows.old }
    ensures told { placed_told result ≡ told (book_asked s.now) }
    ensures exactly { Exactly (book_asked s.now) (placed_found result) }
{
    if LENGTH_LIMIT < s.len() {
        return Err(Refusal::Length.on(0));
    }
    // Not by `counted_head`: the soil's count is 1, and its section doesn't ask for it.
    let (count, next) = head_line(s, 0, b"SOIL ").ok_or(Refusal::Form.on(1))?;
    if count != 1 {
        return Err(Refusal::Rows.on(1));
    }
    soil_section(s, next, rows)
}
