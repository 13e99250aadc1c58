// The single month call of document 01: a state and a month's entries by value, the next state or a
// refusal.
#![tactic(auto)]

ghost use Rattle.std.specs.Prelude.{◌≡◌, ◌+◌, ◌≤◌, ◌<◌, ◌^◌, nat_abs, Ok};
ghost use Rattle.step_water.specs.Water.{is_potential, tenths};
ghost use Rattle.month_state.specs.declared.Entries.{Entries};
ghost use Rattle.month_refusals.specs.Asked.{at, told, answer_told};
ghost use Rattle.month_refusals.specs.Refusals.{month_asked, weather_check, land_check};
ghost use Rattle.month_call.specs.Month.{crop, potential, largest_deficit, next_deficit};
ghost use Rattle.month_call.specs.Month.{rate_after, Accepted, steps_of, outcome_of, month_call};
ghost use Rattle.month_call.specs.Month.{list_month};

use month_checks::{check_entries, check_month};
use month_refusals::{CheckedState, Refusal};
use month_state::{Entries, Land, Outcome, Row, Soil, State, Weather, natural, one_more_kept};
use number_units::{Grams, Parts};
use step_additions::{Additions, Kind};
use step_decay::{Shares, survivals};
use step_factors::{clay_number, temperature_factor};
use step_survival::rate_number;
use step_turnover::{TurnedBoth, turn_both};
use step_water::{Evaporation, max_deficit, moisture_factor, new_deficit};

// A month's answer: its row, or why it is refused.
pub type Answer = Result<Row, Refusal>;

// What steps 1 to 6 give: the pools after the month, its CO2, the new deficit, and the modern grams
// after it. They are fields as in the row and the state: a `TurnedBoth` in here would be taken
// apart where both are built.
#[derive(Clone, Copy)]
struct AfterSteps {
    pools: [Grams; 4],
    co2: Grams,
    deficit: Parts,
    modern: [Grams; 4],
}

// Whether a crop covers the soil.
// The land's check stays a clause: a type with it would be built in four functions for three users.
#[tactic(auto, using(month_checks::proofs::Checked::cover_asked))]
fn under_crop(l: Land) -> bool
    requires { land_check l ≡ Ok tt }
    ensures { result ≡ crop l }
{
    natural(l.cover) == 1
}

// The month's evaporation, by its source. No `TryFrom` as of a kind: 19 has let 0 and 1 pass alone.
#[tactic(auto, using(month_checks::proofs::Checked::evaporation_read))]
fn evaporation_of(w: Weather) -> Evaporation
    requires { weather_check w ≡ Ok tt }
    ensures source { is_potential result ≡ potential w }
    ensures tenths { (tenths result ≡ nat_abs w.evaporation) × (tenths result ≤ 20000) }
{
    let source = natural(w.source);
    let tenths = natural(w.evaporation);
    if source == 1 {
        Evaporation::Potential(tenths)
    } else {
        Evaporation::OpenPan(tenths)
    }
}

// Step 3: the new deficit, with the soil's largest one.
// Accepted stays a clause, here and below: a type of a state and its entries would be made in one
// place for three private functions, and cost a copy of the state in each month (tried).
fn deficit_after(s: State, largest: Parts, e: Entries) -> Parts
    requires { Accepted s e × (largest.0 ≡ largest_deficit s.soil) }
    ensures { result.0 ≡ next_deficit s e }
{
    let crop = under_crop(e.land);
    let evaporation = evaporation_of(e.weather);
    let rain = natural(e.weather.rain);
    new_deficit(crop, largest, s.deficit, evaporation, rain)
}

// Steps 1, 3 and 4: the rate number, with the soil's largest deficit and d, the new one.
fn rate_after(s: State, largest: Parts, d: Parts, e: Entries) -> u64
    requires { Accepted s e × (largest.0 ≡ largest_deficit s.soil) × (d.0 ≤ largest.0) }
    ensures { result ≡ rate_after s.soil d.0 e }
{
    let crop = under_crop(e.land);
    let a = temperature_factor(e.weather.temperature);
    let b = moisture_factor(largest, d);
    rate_number(crop, a, b)
}

// A month's additions, as numbers without a sign.
#[tactic(auto, using(month_checks::proofs::Checked::additions_given))]
fn additions_of(kind: Kind, l: Land) -> Additions
    requires { land_check l ≡ Ok tt }
    ensures kind { result.kind ≡ kind }
    ensures plant { (result.plant.0 ≡ nat_abs l.plant) × (result.plant.0 ≤ 100000000) }
    ensures manure { (result.manure.0 ≡ nat_abs l.manure) × (result.manure.0 ≤ 100000000) }
{
    Additions {
        kind,
        plant: Grams(natural(l.plant)),
        manure: Grams(natural(l.manure)),
    }
}

// Steps 1 to 6 of an accepted month. The row and the state are built of what comes back where they
// are used, which saves copying both.
fn run_steps(s: State, e: Entries) -> AfterSteps
    requires { Accepted s e }
    ensures { result ≡ steps_of s e }
{
    let soil = s.soil;
    let largest = max_deficit(soil.clay, soil.depth);
    let deficit = deficit_after(s, largest, e);
    let n = rate_after(s, largest, deficit, e);
    let survival = survivals(n);
    let r = clay_number(soil.clay);
    let shares = Shares { survival, r };
    let kind = Kind::try_from(soil.kind).unwrap();
    let given = additions_of(kind, e.land);
    let activity = natural(e.land.activity);
    let turned = turn_both(soil.pools, s.modern, shares, given, activity);
    let TurnedBoth { pools, co2, modern } = turned;
    AfterSteps {
        pools,
        co2,
        deficit,
        modern,
    }
}

// An accepted month's row, and the state moved on, from what its steps give.
#[tactic(auto, unfolding(crate::specs::Month::steps_of, crate::specs::Month::outcome_of, crate::specs::Month::row_of, crate::specs::Month::moved_to))]
fn done(s: State, after: AfterSteps) -> Outcome<Answer, State>
    requires { (s.months + 1 < 2 ^ 64) × (s.co2.0 + after.co2.0 < 2 ^ 64) }
    ensures { (e : Entries) → after ≡ steps_of s e → result ≡ outcome_of (Ok tt) s e }
{
    let AfterSteps {
        pools,
        co2,
        deficit,
        modern,
    } = after;
    let [dpm, rpm, bio, hum] = pools;
    let row = Row {
        dpm,
        rpm,
        bio,
        hum,
        iom: s.soil.iom,
        co2,
        deficit,
    };
    let kept = one_more_kept(s.kept);
    let state = State {
        soil: Soil { pools, ..s.soil },
        deficit,
        months: s.months + 1,
        co2: s.co2 + co2,
        modern,
        kept,
    };
    Outcome {
        answer: Ok(row),
        state,
    }
}

// The single month call: the next state, or after a refusal the one that was given, which need not
// pass its checks, so that `list_month` is no part of it. State, number and entries stay apart,
// here and above, as the papers' call has them. The answer's number and place are the papers'.
pub fn month(s: State, number: u64, e: Entries) -> Outcome<Answer, State>
    ensures outcome { result ≡ month_call s number e }
    ensures told { answer_told result.answer ≡ told (at 0 (month_asked s number e)) }
{
    match check_month(s, number, e) {
        Ok(()) => done(s, run_steps(s, e)),
        Err(refusal) => Outcome {
            answer: Err(refusal),
            state: s,
        },
    }
}

// A list's month: the next state passes its checks too, and is not asked them again.
pub fn list_month(s: CheckedState, e: Entries) -> Outcome<Answer, CheckedState>
    ensures { record { answer = result.answer; state = result.state.state }
        ≡ list_month s.state e }
{
    match check_entries(s, e) {
        Ok(()) => {
            let next = done(s.state, run_steps(s.state, e));
            let state = CheckedState { state: next.state };
            Outcome {
                answer: next.answer,
                state,
            }
        }
        Err(refusal) => Outcome {
            answer: Err(refusal),
            state: s,
        },
    }
}
