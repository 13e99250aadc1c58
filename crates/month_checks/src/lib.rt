// The papers' checks of a month's weather, of its entries and of a single month call, each in the
// papers' order.
#![tactic(auto)]

ghost use Rattle.std.specs.Prelude.{◌≡◌, ◌++◌, Ok};
ghost use Rattle.month_refusals.specs.Asked.{Finds};
ghost use Rattle.month_refusals.specs.Refusals.{outside, temperature_outside, water_outside};
ghost use Rattle.month_refusals.specs.Refusals.{source_outside, cover_outside, additions_outside};
ghost use Rattle.month_refusals.specs.Refusals.{activity_outside, ceiling_passed, state_asked};
ghost use Rattle.month_refusals.specs.Refusals.{turn_asked, weather_asked, land_asked, land_check};
ghost use Rattle.month_refusals.specs.Refusals.{carbon_asked, entries_asked, month_asked};

use month_refusals::{CheckedState, Refusal, check_bounds, check_soil};
use month_state::{Entries, Land, State, Weather, natural};
use step_pools::total;

// 4 to 7 and 10: a state that is lent.
pub fn check_state(s: State) -> Result<(), Refusal>
    ensures { Finds (state_asked s) result }
{
    check_soil(s.soil)?;
    check_bounds(s)
}

// Whether a signed number is below the first or above the last of a range.
fn outside(first: i64, last: i64, z: i64) -> bool
    ensures { result ≡ outside first last z }
{
    !(first..=last).contains(&z)
}

// Each of the papers' conditions is a function of its name, and all are said by `outside`.

// 13: temperature is outside -400 to 500.
#[tactic(auto, unfolding(month_refusals::specs::Refusals::temperature_outside))]
fn temperature_outside(w: Weather) -> bool
    ensures { result ≡ temperature_outside w }
{
    outside(-400, 500, w.temperature)
}

// 14: rain or evaporation is outside 0 to 20,000.
#[tactic(auto, unfolding(month_refusals::specs::Refusals::water_outside))]
fn water_outside(w: Weather) -> bool
    ensures { result ≡ water_outside w }
{
    outside(0, 20_000, w.rain) || outside(0, 20_000, w.evaporation)
}

// 19: the evaporation's source is neither 0 nor 1.
#[tactic(auto, unfolding(month_refusals::specs::Refusals::source_outside))]
fn source_outside(w: Weather) -> bool
    ensures { result ≡ source_outside w }
{
    outside(0, 1, w.source)
}

// 13, 14 and 19: a month's weather, or a line of weather.
#[tactic(auto, unfolding(month_refusals::specs::Refusals::weather_asked, month_refusals::specs::Asked::first_of, month_refusals::specs::Asked::at, month_refusals::specs::Asked::found))]
pub fn check_weather(w: Weather) -> Result<(), Refusal>
    ensures { Finds (weather_asked w) result }
{
    if temperature_outside(w) {
        return Err(Refusal::Temperature);
    }
    if water_outside(w) {
        return Err(Refusal::Water);
    }
    if source_outside(w) {
        return Err(Refusal::Source);
    }
    Ok(())
}

// 15: cover is neither 0 nor 1.
#[tactic(auto, unfolding(month_refusals::specs::Refusals::cover_outside))]
fn cover_outside(l: Land) -> bool
    ensures { result ≡ cover_outside l }
{
    outside(0, 1, l.cover)
}

// 16: plant or manure is outside 0 to 100,000,000.
#[tactic(auto, unfolding(month_refusals::specs::Refusals::additions_outside))]
fn additions_outside(l: Land) -> bool
    ensures { result ≡ additions_outside l }
{
    outside(0, 100_000_000, l.plant) || outside(0, 100_000_000, l.manure)
}

// 21: the additions' activity is outside 0 to 2,000.
#[tactic(auto, unfolding(month_refusals::specs::Refusals::activity_outside))]
fn activity_outside(l: Land) -> bool
    ensures { result ≡ activity_outside l }
{
    outside(0, 2_000, l.activity)
}

// 15, 16 and 21: what the land is given.
#[tactic(auto, unfolding(month_refusals::specs::Refusals::land_asked, month_refusals::specs::Asked::first_of, month_refusals::specs::Asked::at, month_refusals::specs::Asked::found))]
fn check_land(l: Land) -> Result<(), Refusal>
    ensures { Finds (land_asked l) result }
{
    if cover_outside(l) {
        return Err(Refusal::Cover);
    }
    if additions_outside(l) {
        return Err(Refusal::Additions);
    }
    if activity_outside(l) {
        return Err(Refusal::Activity);
    }
    Ok(())
}

// 17: active pools before the month, plus plant and manure, exceed the ceiling. The state's pools
// are checked, so that no sum wraps.
#[tactic(auto, using(crate::proofs::Checked::additions_given, crate::proofs::Checked::pools_checked), unfolding(month_refusals::specs::Refusals::ceiling_passed))]
fn ceiling_passed(s: CheckedState, l: Land) -> bool
    requires { land_check l ≡ Ok tt }
    ensures { result ≡ ceiling_passed s.state l }
{
    let active = total(s.state.soil.pools);
    let plant = natural(l.plant);
    let manure = natural(l.manure);
    State::CARBON_CEILING < active.0 + plant + manure
}

// 15, 16, 21 and 17: what the land is given, and the carbon that it makes up with the pools.
#[tactic(auto, unfolding(month_refusals::specs::Refusals::carbon_asked, month_refusals::specs::Refusals::land_asked, month_refusals::specs::Asked::first_of, month_refusals::specs::Asked::at, month_refusals::specs::Asked::found))]
fn check_carbon(s: CheckedState, l: Land) -> Result<(), Refusal>
    ensures { Finds (carbon_asked s.state l) result }
{
    check_land(l)?;
    if ceiling_passed(s, l) {
        return Err(Refusal::Ceiling);
    }
    Ok(())
}

// 12 to 17, with 19 after 14 and 21 after 16: the entries of a month.
#[tactic(auto, unfolding(month_refusals::specs::Refusals::entries_asked, month_refusals::specs::Refusals::weather_asked, month_refusals::specs::Refusals::limit_reached, month_refusals::specs::Asked::first_of, month_refusals::specs::Asked::at, month_refusals::specs::Asked::found))]
pub fn check_entries(s: CheckedState, e: Entries) -> Result<(), Refusal>
    ensures { Finds (entries_asked s.state e) result }
{
    if State::MONTH_LIMIT <= s.state.months {
        return Err(Refusal::MonthLimit);
    }
    check_weather(e.weather)?;
    check_carbon(s, e.land)
}

// 11, then 12 to 17 with 19 after 14 and 21 after 16.
#[tactic(auto, using(crate::proofs::Checked::months_checked), unfolding(month_refusals::specs::Refusals::turn_asked, month_refusals::specs::Refusals::out_of_turn, month_refusals::specs::Asked::first_of, month_refusals::specs::Asked::at, month_refusals::specs::Asked::found))]
fn check_turn(s: CheckedState, number: u64, e: Entries) -> Result<(), Refusal>
    ensures { Finds (turn_asked s.state number ++ entries_asked s.state e) result }
{
    if number != s.state.months + 1 {
        return Err(Refusal::Turn);
    }
    check_entries(s, e)
}

// 4 to 7, 10 to 17, 19 after 14 and 21 after 16: a single month call.
pub fn check_month(s: State, number: u64, e: Entries) -> Result<(), Refusal>
    ensures { Finds (month_asked s number e) result }
{
    check_state(s)?;
    check_turn(CheckedState { state: s }, number, e)
}
