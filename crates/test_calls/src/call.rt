// The calls. Each reads its line after the letter, and gives None, with nothing written, where the
// line departs from the form. Lent memory that a call writes holds 7 everywhere before it, and so
// does the memory of a state's kept ones where a line doesn't say it.
//
// A contract says the form of a line and what is left of the text after it, on every path. It says
// no more: what is called and written is in no value that a function gives, and is held against the
// reference's `stdout` when the program runs. All arrays here are of a fixed size, as the memory in
// the C interface: a Vec's could fail, and would add to what this program assumes.
ghost use Rattle.std.specs.Prelude.{◌≡◌, cond, Some, None, Bool, ℕ, option_map};
ghost use Rattle.test_calls.specs.Calls.{state_read, start_line, month_line, take_back_line};
ghost use Rattle.test_calls.specs.Calls.{survival_line, age_line, radiocarbon_line, series_line};
ghost use Rattle.test_calls.specs.Calls.{list_takes, spin_up_takes, table_line, line_read};
ghost use Rattle.test_calls.specs.Calls.{call_left};

use library_calls::{
    rothc_age_survival, rothc_list, rothc_month, rothc_radiocarbon, rothc_spin_up, rothc_start,
    rothc_survival, rothc_survival_terms, rothc_table, rothc_take_back,
};
use list_rows::{ENTRIES_WIDTH, LAND_WIDTH, ROW_WIDTH, WEATHER_WIDTH};
use month_layouts::{FIELD_WIDTH, KEPT_WIDTH, SOIL_WIDTH, STATE_WIDTH};
use test_history::history;
use test_lines::Line;
use test_numbers::Reader;

type Field = [u64; FIELD_WIDTH];

// The current state, which the memory of a state begins with.
fn current(state: &Field) -> &[u64] {
    &state[..STATE_WIDTH]
}

// Reads the current state into a field, whose kept states stay.
#[tactic(auto, unfolding(crate::specs::Calls::state_read))]
fn read_state(reader: &mut Reader, state: &mut Field) -> Option<()>
    ensures { (result, reader.new.left.now) ≡ state_read reader.old.left.now }
{
    reader.numbers(&mut state[..STATE_WIDTH])
}

// N: a soil's new state.
#[tactic(auto, unfolding(crate::specs::Calls::start_line))]
fn start(reader: &mut Reader) -> Option<()>
    ensures { (result, reader.new.left.now) ≡ start_line reader.old.left.now }
{
    let soil: [u64; SOIL_WIDTH] = reader.array()?;
    reader.line_end()?;
    let mut state = [7u64; FIELD_WIDTH];
    let number = rothc_start(&soil, &mut state);
    let mut line = Line::new();
    line.add(&[number]);
    line.add(current(&state));
    line.finish();
    Some(())
}

// M: a single month call.
#[tactic(auto, unfolding(crate::specs::Calls::month_line))]
fn month(reader: &mut Reader) -> Option<()>
    ensures { (result, reader.new.left.now) ≡ month_line reader.old.left.now }
{
    let mut state = [7u64; FIELD_WIDTH];
    read_state(reader, &mut state)?;
    let number = reader.number()?;
    let entries: [i64; ENTRIES_WIDTH] = reader.array()?;
    reader.line_end()?;
    let mut row = [7u64; ROW_WIDTH];
    let refusal = rothc_month(&mut state, number, &entries, &mut row);
    let mut line = Line::new();
    line.add(&[refusal]);
    line.add(&row);
    line.add(current(&state));
    line.finish();
    Some(())
}

// A call over weather, land, a number and a state.
trait SeriesCall {
    // Which numbers it takes.
    ghost takes: { ℕ → Bool };

    fn run(state: &mut Field, weather: &[i64], land: &[i64], number: u64) -> Option<()>
        ensures { result ≡ cond (takes number) (Some tt) None };
}

// L: a list of months with an output of so many numbers.
struct ListCall;

impl SeriesCall for ListCall {
    ghost takes = { list_takes };

    fn run(state: &mut Field, weather: &[i64], land: &[i64], size: u64) -> Option<()> {
        let mut memory = [7u64; 8_500];
        let rows = memory.get_mut(..size as usize)?;
        let mut place = 7u64;
        let number = rothc_list(state, weather, land, rows, &mut place);
        let mut line = Line::new();
        line.add(&[number, place]);
        line.add(current(state));
        line.add(rows);
        line.finish();
        Some(())
    }
}

// S: a spin-up.
struct SpinUpCall;

impl SeriesCall for SpinUpCall {
    ghost takes = { spin_up_takes };

    fn run(state: &mut Field, weather: &[i64], land: &[i64], years: u64) -> Option<()> {
        let mut result = [7u64; 2];
        let number = rothc_spin_up(state, weather, land, years, &mut result);
        let mut line = Line::new();
        line.add(&[number]);
        line.add(&result);
        line.add(current(state));
        line.finish();
        Some(())
    }
}

// L and S: the weather, the land, a number and the state.
#[tactic(auto, unfolding(crate::specs::Calls::series_line))]
fn series<S: SeriesCall>(reader: &mut Reader) -> Option<()>
    ensures { (result, reader.new.left.now) ≡ series_line S.takes reader.old.left.now }
{
    let mut weather = [0i64; WEATHER_WIDTH * 1_250];
    let weather = reader.list(&mut weather)?;
    let mut land = [0i64; LAND_WIDTH * 1_250];
    let land = reader.list(&mut land)?;
    let number = reader.number()?;
    let mut state = [7u64; FIELD_WIDTH];
    read_state(reader, &mut state)?;
    reader.line_end()?;
    S::run(&mut state, weather, land, number)
}

// The places of kept states: each number of a place is the place's number more than the base's.
fn put_places(state: &mut Field, base: &[u64; KEPT_WIDTH]) {
    let kept = &mut state[STATE_WIDTH..];
    for (place, numbers) in kept.chunks_exact_mut(KEPT_WIDTH).enumerate() {
        for (number, base) in numbers.iter_mut().zip(base) {
            *number = base.wrapping_add(place as u64);
        }
    }
}

// B: taking back.
#[tactic(auto, unfolding(crate::specs::Calls::take_back_line))]
fn take_back(reader: &mut Reader) -> Option<()>
    ensures { (result, reader.new.left.now) ≡ take_back_line reader.old.left.now }
{
    let mut state = [7u64; FIELD_WIDTH];
    read_state(reader, &mut state)?;
    let base = reader.array()?;
    reader.line_end()?;
    put_places(&mut state, &base);
    let number = rothc_take_back(&mut state);
    let mut line = Line::new();
    line.add(&[number]);
    line.add(current(&state));
    line.finish();
    Some(())
}

// 1 where two numbers are at most 1 apart, else 0.
fn close(a: u64, b: u64) -> u64 {
    u64::from(a.abs_diff(b) <= 1)
}

// D: a survival number.
#[tactic(auto, unfolding(crate::specs::Calls::survival_line))]
fn survival(reader: &mut Reader) -> Option<()>
    ensures { (result, reader.new.left.now) ≡ survival_line reader.old.left.now }
{
    let [n, pool, wanted] = reader.array::<u64, 3>()?;
    reader.line_end()?;
    let s = rothc_survival(n, pool);
    let mut line = Line::new();
    line.add(&[close(s, wanted)]);
    line.finish();
    Some(())
}

// K: a survival number, whether it is the one of a `D` line's call, and how many terms were summed.
#[tactic(auto, unfolding(crate::specs::Calls::survival_line))]
fn survival_terms(reader: &mut Reader) -> Option<()>
    ensures { (result, reader.new.left.now) ≡ survival_line reader.old.left.now }
{
    let [n, pool, wanted] = reader.array::<u64, 3>()?;
    reader.line_end()?;
    let mut terms = 7u64;
    let s = rothc_survival_terms(n, pool, &mut terms);
    let same = s == rothc_survival(n, pool);
    let mut line = Line::new();
    line.add(&[close(s, wanted), u64::from(same), terms]);
    line.finish();
    Some(())
}

// R: a radiocarbon report.
#[tactic(auto, unfolding(crate::specs::Calls::radiocarbon_line))]
fn radiocarbon(reader: &mut Reader) -> Option<()>
    ensures { (result, reader.new.left.now) ≡ radiocarbon_line reader.old.left.now }
{
    let mut state = [7u64; FIELD_WIDTH];
    read_state(reader, &mut state)?;
    let pool = reader.number()?;
    reader.line_end()?;
    let mut report = [7i64; 3];
    let number = rothc_radiocarbon(&state, pool, &mut report);
    let mut line = Line::new();
    line.add(&[number]);
    line.add(&report);
    line.finish();
    Some(())
}

// A: the survival number of an age.
#[tactic(auto, unfolding(crate::specs::Calls::age_line))]
fn age_survival(reader: &mut Reader) -> Option<()>
    ensures { (result, reader.new.left.now) ≡ age_line reader.old.left.now }
{
    let [years, wanted] = reader.array::<u64, 2>()?;
    reader.line_end()?;
    let s = rothc_age_survival(years);
    let mut line = Line::new();
    line.add(&[close(s, wanted)]);
    line.finish();
    Some(())
}

// T: the output's length, the table's, and on the lines after this one the table itself and byte
// 10.
#[tactic(auto, unfolding(crate::specs::Calls::table_line))]
fn table(reader: &mut Reader) -> Option<()>
    ensures { (result, reader.new.left.now) ≡ table_line reader.old.left.now }
{
    let room = reader.number::<u64>()?;
    let size = reader.number::<u64>()?;
    reader.line_end()?;
    let bytes = reader.bytes(size as usize)?;
    reader.line_end()?;
    let mut memory = [7i64; 4_900];
    let weather = memory.get_mut(..room as usize)?;
    let mut rows = 7u64;
    let mut place = 7u64;
    let number = rothc_table(bytes, weather, &mut rows, &mut place);
    let mut line = Line::new();
    line.add(&[number, rows, place]);
    line.add(weather);
    line.finish();
    Some(())
}

// The line after its letter. A letter stays one: an enum would be made of it and matched again.
#[tactic(auto, unfolding(crate::specs::Calls::line_read))]
fn line(letter: u8, reader: &mut Reader) -> Option<()>
    ensures { (result, reader.new.left.now) ≡ line_read letter reader.old.left.now }
{
    match letter {
        b'N' => start(reader),
        b'M' => month(reader),
        b'B' => take_back(reader),
        b'H' => history(reader),
        b'L' => series::<ListCall>(reader),
        b'S' => series::<SpinUpCall>(reader),
        b'D' => survival(reader),
        b'K' => survival_terms(reader),
        b'R' => radiocarbon(reader),
        b'A' => age_survival(reader),
        b'T' => table(reader),
        _ => None,
    }
}

// The call that a text begins with: what follows it.
#[tactic(auto, unfolding(crate::specs::Calls::call_left))]
pub fn call(text: &[u8]) -> Option<&[u8]>
    ensures { option_map (λ left. left.now) result ≡ call_left text.now }
{
    let mut reader = Reader::new(text);
    let letter = reader.byte()?;
    line(letter, &mut reader)?;
    Some(reader.left)
}
