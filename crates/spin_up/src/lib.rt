// Spin-up of document 01: twelve weather and twelve land rows repeated for up to a given number of
// years, until a year settles, as document 02 has it (change 2026-05).
#![tactic(auto)]

ghost use Rattle.std.specs.Prelude.{◌≡◌, ◌≤◌};
ghost use Rattle.month_state.specs.State.{kept_aside};
ghost use Rattle.month_refusals.specs.Asked.{Finds, told, Exactly, placed_found, placed_told};
ghost use Rattle.spin_up.specs.SpinUp.{near, pools_settle, settles, year_outcome, years};
ghost use Rattle.spin_up.specs.SpinUp.{before_years, spin_asked, spin_up, spin_years, spin_end};
ghost use Rattle.spin_up.specs.Reached.{after_years};

use list_rows::{LAND_WIDTH, ROW_WIDTH, WEATHER_WIDTH};
use list_run::{ListAnswer, run_months};
use month_layouts::MEMORY_WIDTH;
use month_refusals::{CheckedState, Refusal, RefusedAt, check_bounds, check_soil};
use month_state::{Outcome, Soil, State, five_pools};
use number_units::Grams;

// The years of a spin-up: settled with the years run, or unsettled with the years allowed.
#[derive(Clone, Copy, PartialEq, Eq)]
pub enum Years {
    Settled(u64),
    Unsettled(u64),
}

// A spin-up's answer: its years, or a refusal at a place: 0, or the month counted over all its
// years. The state beside it is the state reached, with none kept, or after a refusal the starting
// state.
pub type SpinAnswer = Result<Years, RefusedAt>;

// Whether grams at a year's end are at most 1,000 from those that it began with.
fn near(start: Grams, end: Grams) -> bool
    ensures { result ≡ near start.0 end.0 }
{
    start.0.abs_diff(end.0) <= 1000
}

// Whether each of the five pools settles, from a year's start to its end.
#[tactic(auto, unfolding(crate::specs::SpinUp::pools_settle))]
fn pools_settle(start: Soil, end: Soil) -> bool
    ensures { result ≡ pools_settle start end }
{
    let [dpm, rpm, bio, hum] = start.pools;
    let [end_dpm, end_rpm, end_bio, end_hum] = end.pools;
    near(dpm, end_dpm)
        && near(rpm, end_rpm)
        && near(bio, end_bio)
        && near(hum, end_hum)
        && near(start.iom, end.iom)
}

// Whether a year settles, from its start to its end, asked once in twelve months. In line, it moved
// the code of tables, which stands behind the loop's, and that took longer (docs/LANDINGS.md).
#[inline(never)]
#[tactic(auto, using(crate::proofs::Laws::small), unfolding(crate::specs::SpinUp::settles))]
fn settles(start: CheckedState, end: CheckedState) -> bool
    ensures { result ≡ settles start.state end.state }
{
    let total = near(five_pools(start.state), five_pools(end.state));
    total && pools_settle(start.state.soil, end.state.soil)
}

// The numbers of twelve weather rows, and of twelve land rows.
type YearOfWeather = [i64; WEATHER_WIDTH * 12];

type YearOfLand = [i64; LAND_WIDTH * 12];

// A year's twelve months. Their rows and the states that they keep are handed to no one, and lie in
// arrays, since there is no heap.
fn year(
    s: CheckedState,
    weather: &YearOfWeather,
    land: &YearOfLand,
) -> Outcome<ListAnswer, CheckedState>
    ensures { record { answer = result.answer; state = result.state.state }
        ≡ year_outcome weather.now land.now s.state }
{
    let mut rows = [0; ROW_WIDTH * 12];
    let mut memory = [0; MEMORY_WIDTH];
    run_months(s, weather, land, 12, &mut rows, &mut memory)
}

// A state with none kept, as a spin-up ends with it.
fn none_kept(s: State) -> State
    ensures { result ≡ kept_aside s }
{
    State { kept: 0, ..s }
}

// The years, one after another until one settles or is refused.
fn run_years(
    s: CheckedState,
    weather: &YearOfWeather,
    land: &YearOfLand,
    allowed: u64,
) -> Outcome<SpinAnswer, State>
    requires { allowed ≤ 10000 }
    ensures { result ≡ years allowed weather.now land.now 0 s.state s.state }
{
    let mut state = s;
    for before in 0..allowed {
        let ran = year(state, weather, land);
        if let Err(e) = ran.answer {
            return Outcome {
                answer: Err(e.refusal.on(12 * before + e.place)),
                state: s.state,
            };
        }
        if settles(state, ran.state) {
            return Outcome {
                answer: Ok(Years::Settled(before + 1)),
                state: none_kept(ran.state.state),
            };
        }
        state = ran.state;
    }
    Outcome {
        answer: Ok(Years::Unsettled(allowed)),
        state: none_kept(state.state),
    }
}

// 3, 4 to 7, 9 and 10: a spin-up before its years. Not one with a list's: what is asked beside 4 to
// 7 and 10 is another thing there, and stands between them in the papers' order.
fn check_spin_up(s: State, weather: &[i64], land: &[i64], allowed: u64) -> Result<(), Refusal>
    ensures { Finds (before_years s weather.now land.now allowed) result }
{
    if weather.len() != WEATHER_WIDTH * 12 || land.len() != LAND_WIDTH * 12 {
        return Err(Refusal::Rows);
    }
    check_soil(s.soil)?;
    match allowed {
        1..=10_000 => check_bounds(s),
        _ => Err(Refusal::Years),
    }
}

// A spin-up of at most the years that are allowed. The state is that after the years run, with none
// kept unless it is refused, and each refusal is given exactly where it is the first that applies.
// Not one with a list's `run`: what is asked before the months differs, in the papers' order.
pub fn spin_up(s: State, weather: &[i64], land: &[i64], allowed: u64) -> Outcome<SpinAnswer, State>
    ensures outcome { result ≡ spin_up s weather.now land.now allowed }
    ensures told { placed_told result.answer
        ≡ told (spin_asked s weather.now land.now allowed) }
    ensures exactly { Exactly (spin_asked s weather.now land.now allowed)
        (placed_found result.answer) }
    ensures years { result.state
        ≡ spin_end result.answer
        (after_years (spin_years result.answer) weather.now land.now s) }
{
    match check_spin_up(s, weather, land, allowed) {
        Ok(()) => {
            let start = CheckedState { state: s };
            let weather = weather.as_array().unwrap();
            let land = land.as_array().unwrap();
            run_years(start, weather, land, allowed)
        }
        Err(refusal) => Outcome {
            answer: Err(refusal.on(0)),
            state: s,
        },
    }
}
