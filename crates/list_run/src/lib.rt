// A list of months from a given state, step 7 of document 01: weather and land rows lent as slices
// of numbers, the rows that the months give written to a lent output, and the states before them
// kept in lent memory.
#![tactic(auto)]

ghost use Rattle.std.specs.Prelude.{◌≡◌, ◌*◌, ◌≤◌, length};
ghost use Rattle.list_rows.specs.Rows.{weather_width, land_width, row_width, land_rows};
ghost use Rattle.month_refusals.specs.Asked.{Finds, told, Exactly, placed_found, placed_told};
ghost use Rattle.list_run.specs.Run.{ended, months, rows_written, kept_months};
ghost use Rattle.list_run.specs.Run.{before_months, list_asked, run};
ghost use Rattle.list_run.specs.ListCalls.{FieldOfCalls};

use kept_months::keep;
use list_rows::{
    LAND_WIDTH, ROW_WIDTH, WEATHER_WIDTH, entries_at, next_weather, put_row, rows_outside,
};
use month_call::{Answer, list_month};
use month_layouts::MEMORY_WIDTH;
use month_refusals::{CheckedState, Refusal, RefusedAt, check_bounds, check_soil};
use month_state::{Outcome, State};

// A list's answer: it ran to its end, or it was refused at a place: 0, or the month counted from
// its first.
pub type ListAnswer = Result<(), RefusedAt>;

// The answer of a list that ends with a month's answer, at that month's place.
fn ended(answer: Answer, place: u64) -> ListAnswer
    ensures { result ≡ ended answer place }
{
    match answer {
        Ok(_) => Ok(()),
        Err(refusal) => Err(refusal.on(place)),
    }
}

// So many months from the first, their rows written as they run, and the state before each kept.
// The first refusal ends them. Whoever hands no memory on (a book, a spin-up) lends some for the
// run, and puts the kept count to 0 where the state goes out.
// Weather and land stay two slices: of a struct a promise would say `rows.entry.weather.now`. The
// count and the weather's width stay clauses, here and in the book: a type of a count would be
// opened as a number at each use.
pub fn run_months(
    s: CheckedState,
    weather: &[i64],
    land: &[i64],
    count: usize,
    out: &mut [u64],
    memory: &mut [u64; MEMORY_WIDTH],
) -> Outcome<ListAnswer, CheckedState>
    requires weather { weather_width ≤ length weather.now }
    requires land { (land_width * count ≤ length land.now) × (count ≤ 1200) }
    requires room { row_width * count ≤ length out.old }
    ensures left { record {
      outcome = record { answer = result.answer; state = result.state.state };
      output = out.new;
    }
        ≡ months count weather.now land.now 0 s.state out.old }
    ensures kept { memory.new
        ≡ kept_months (rows_written result.answer count) weather.now land.now 0 s.state
        memory.old }
{
    let mut state = s;
    // Counted by hand: `entries_at` asks which weather row is the month's, which a `cycle` hides.
    let mut i = 0;
    for j in 0..count {
        let month = list_month(state, entries_at(weather, land, i, j));
        let Ok(row) = month.answer else {
            return Outcome {
                answer: ended(month.answer, j as u64 + 1),
                state: month.state,
            };
        };
        put_row(out, j, row);
        keep(state.state, memory);
        state = month.state;
        i = next_weather(weather, i);
    }
    Outcome {
        answer: Ok(()),
        state,
    }
}

// 3, 4 to 7, 8 and 10: a list before its months.
fn check_list(s: State, weather: &[i64], land: &[i64], room: usize) -> Result<(), Refusal>
    ensures { Finds (before_months s weather.now land.now room) result }
{
    if rows_outside(WEATHER_WIDTH, weather.len()) || rows_outside(LAND_WIDTH, land.len()) {
        return Err(Refusal::Rows);
    }
    check_soil(s.soil)?;
    if room < ROW_WIDTH * (land.len() / LAND_WIDTH) {
        return Err(Refusal::Room);
    }
    check_bounds(s)
}

// A list of months: one for each land row, the weather rows taken in turn and again from the first.
// Its refusals are the papers', each given exactly where it is the first that applies. The state
// before each month that ran is kept, so that it leaves the field that single month calls leave.
pub fn run(
    s: State,
    weather: &[i64],
    land: &[i64],
    out: &mut [u64],
    memory: &mut [u64; MEMORY_WIDTH],
) -> Outcome<ListAnswer, State>
    ensures left { record { outcome = result; output = out.new }
        ≡ run s weather.now land.now out.old }
    ensures kept { memory.new
        ≡ kept_months (rows_written result.answer (land_rows land.now)) weather.now
        land.now 0 s memory.old }
    ensures field { FieldOfCalls weather.now land.now 0 s
        memory.old (rows_written result.answer (land_rows land.now))
        result.state }
    ensures told { placed_told result.answer
        ≡ told (list_asked s weather.now land.now
        (length out.old)) }
    ensures exactly { Exactly (list_asked s weather.now land.now
        (length out.old))
        (placed_found result.answer) }
{
    match check_list(s, weather, land, out.len()) {
        Ok(()) => {
            let checked = CheckedState { state: s };
            let months = land.len() / LAND_WIDTH;
            let ran = run_months(checked, weather, land, months, out, memory);
            Outcome {
                answer: ran.answer,
                state: ran.state.state,
            }
        }
        Err(refusal) => Outcome {
            answer: Err(refusal.on(0)),
            state: s,
        },
    }
}
