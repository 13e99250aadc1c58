// The rows of the book's WEATHER and LAND sections, read from its lines into lent slices of
// numbers, and a line of weather as a row. specs/Rows.antt says what each function gives.
#![tactic(auto)]

ghost use Rattle.std.specs.Prelude.{◌≡◌, ℕ, ◌*◌, ◌≤◌, List, length};
ghost use Rattle.list_rows.specs.Rows.{weather_width};
ghost use Rattle.book_rows.specs.Rows.{LineFits, as_weather, weather_row, land_row, RowGives};
ghost use Rattle.book_rows.specs.Rows.{weather_gives, land_gives, row_gives, read_rows, begun_with};

use book_lines::{WeatherNumbers, land_line, weather_line};
use list_rows::{LAND_WIDTH, WEATHER_WIDTH, land_numbers, put_numbers, weather_numbers};
use month_checks::check_weather;
use month_refusals::{Refusal, RefusedAt};
use month_state::{Land, Weather};

// The activity of a book's additions, in thousandths: that of fresh carbon.
const FRESH: i64 = 1000;

// The source of a book's evaporation: open pan.
const OPEN_PAN: i64 = 0;

// A line of weather as a row: another form is refused as `malformed`, then 13, 14 and 19 are asked.
// Numbers that were read fit 64 bits with a sign (`LineFits`), so that a cast is enough.
pub fn as_weather(
    malformed: Refusal,
    source: i64,
    line: Option<(WeatherNumbers, usize)>,
) -> Result<(Weather, usize), Refusal>
    requires { LineFits line }
    ensures { result ≡ as_weather malformed source line }
{
    let (numbers, next) = line.ok_or(malformed)?;
    let row = Weather {
        temperature: numbers.temperature,
        rain: numbers.rain as i64,
        evaporation: numbers.evaporation as i64,
        source,
    };
    check_weather(row)?;
    Ok((row, next))
}

// A kind of line that is a row. A land row is as wide as a weather row.
pub trait RowLine {
    // What the line of this number, at a place of a text, gives.
    ghost gives: { List ℕ → ℕ → ℕ → RowGives };

    // The row's numbers with the place of the next line, or why it is refused.
    fn row(s: &[u8], place: usize, line: u64) -> Result<([i64; WEATHER_WIDTH], usize), Refusal>
        ensures { row_gives result ≡ gives s.now place line };
}

// A weather line of a book: another form of it is 2.
pub struct WeatherOfBook;

impl RowLine for WeatherOfBook {
    ghost gives = { λ s place line. weather_gives (weather_row s place) };

    fn row(s: &[u8], place: usize, _line: u64) -> Result<([i64; WEATHER_WIDTH], usize), Refusal> {
        let (weather, next) = as_weather(Refusal::Form, OPEN_PAN, weather_line(s, place))?;
        Ok((weather_numbers(weather), next))
    }
}

// A land line of a book: another form of it is 2.
pub struct LandOfBook;

impl RowLine for LandOfBook {
    ghost gives = { λ s place line. land_gives (land_row s place) };

    fn row(s: &[u8], place: usize, _line: u64) -> Result<([i64; LAND_WIDTH], usize), Refusal> {
        let (numbers, next) = land_line(s, place).ok_or(Refusal::Form)?;
        let land = Land {
            cover: numbers.cover as i64,
            plant: numbers.plant as i64,
            manure: numbers.manure as i64,
            activity: FRESH,
        };
        Ok((land_numbers(land), next))
    }
}

// How reading rows ends: with the place of the next line, or refused on a line.
pub type RowsEnd = Result<usize, RefusedAt>;

// How many rows were put in the slice, and how reading them ended.
#[derive(Clone, Copy)]
pub struct RowsPut {
    pub rows: usize,
    pub ends: RowsEnd,
}

// So many rows of a kind from a place and a line on. Their numbers are written from the slice's
// first place on, up to those of the first row that is at fault. The bounds of count and line stay
// clauses, as in list_run: places and lines are counted on without a test.
pub fn read_rows<R: RowLine>(
    s: &[u8],
    place: usize,
    line: u64,
    count: usize,
    numbers: &mut [i64],
) -> RowsPut
    requires { (weather_width * count ≤ length numbers.old) × (count ≤ 1200) × (line ≤ 2000) }
    ensures rows { weather_width * result.rows
        ≡ length (read_rows R.gives count s.now place line).numbers }
    ensures ends { result.ends ≡ (read_rows R.gives count s.now place line).ends }
    ensures numbers { numbers.new
        ≡ begun_with numbers.old (read_rows R.gives count s.now place line).numbers }
{
    let mut next = place;
    for i in 0..count {
        let row_line = line + i as u64;
        match R::row(s, next, row_line) {
            // Taken apart by itself: the check reads no array in an arm's pattern.
            Ok(found) => {
                let (row, after) = found;
                put_numbers(numbers, i, row);
                next = after;
            }
            Err(refusal) => {
                return RowsPut {
                    rows: i,
                    ends: Err(refusal.on(row_line)),
                };
            }
        }
    }
    RowsPut {
        rows: count,
        ends: Ok(next),
    }
}
