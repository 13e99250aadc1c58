// A weather office's table, change 2026-01 of document 02: bytes in, weather rows of four numbers
// to a lent output. specs/Table.antt says what each function gives.
#![tactic(auto)]

ghost use Rattle.std.specs.Prelude.{◌≡◌, length};
ghost use Rattle.month_refusals.specs.Asked.{Finds, told, Exactly, placed_found, placed_told};
ghost use Rattle.book_rows.specs.Rows.{weather_gives};
ghost use Rattle.table_import.specs.Table.{table_row, before_lines, table_asked, table_of};

use book_rows::{RowLine, as_weather, read_rows};
use list_rows::{ROWS_LIMIT, WEATHER_WIDTH, weather_numbers};
use month_refusals::{Refusal, RefusedAt};
use table_lines::{line_count, table_line};

// A table's answer: how many rows it has, or why it is refused, and the line (0 for 3 and 8).
pub type TableAnswer = Result<u64, RefusedAt>;

// The source of a table's evaporation: potential evapotranspiration.
const POTENTIAL: i64 = 1;

// A line of a table: another form, or another month than the line's number, is 18.
struct WeatherOfTable;

impl RowLine for WeatherOfTable {
    ghost gives = { λ s place line. weather_gives (table_row s place line) };

    #[tactic(auto, using(crate::proofs::Laws::table_fits), unfolding(crate::specs::Table::table_row))]
    fn row(s: &[u8], place: usize, line: u64) -> Result<([i64; WEATHER_WIDTH], usize), Refusal> {
        let (w, next) = as_weather(Refusal::TableForm, POTENTIAL, table_line(s, place, line))?;
        Ok((weather_numbers(w), next))
    }
}

// 3 and 8: a table of so many lines, before they are read.
#[tactic(auto, unfolding(crate::specs::Table::before_lines, crate::specs::Table::lines_outside, month_refusals::specs::Asked::first_of, month_refusals::specs::Asked::at, month_refusals::specs::Asked::found))]
fn check_lines(lines: usize, room: usize) -> Result<(), Refusal>
    ensures { Finds (before_lines lines room) result }
{
    if !(1..=ROWS_LIMIT).contains(&lines) {
        return Err(Refusal::Rows);
    }
    if room < WEATHER_WIDTH * lines {
        return Err(Refusal::Room);
    }
    Ok(())
}

// A table: its rows at the start of the output. A refused one leaves the output as it was: the rows
// are read into other memory first. Each refusal is given exactly where it is the first that
// applies.
#[tactic(auto, using(crate::proofs::Laws::lines_few, crate::proofs::Laws::room_enough, crate::proofs::Laws::front_long, crate::proofs::Laws::fronts_same))]
pub fn table(s: &[u8], out: &mut [i64]) -> TableAnswer
    ensures left { record { answer = result; output = out.new }
        ≡ table_of s.now out.old }
    ensures told { placed_told result
        ≡ told (table_asked s.now (length out.old)) }
    ensures exactly { Exactly (table_asked s.now (length out.old))
        (placed_found result) }
{
    let lines = line_count(s);
    check_lines(lines, out.len()).map_err(|refusal| refusal.on(0))?;
    // An array, since the library has no heap.
    let mut rows = [0; WEATHER_WIDTH * ROWS_LIMIT];
    read_rows::<WeatherOfTable>(s, 0, 1, lines, &mut rows).ends?;
    let size = WEATHER_WIDTH * lines;
    out[..size].copy_from_slice(&rows[..size]);
    Ok(lines as u64)
}
