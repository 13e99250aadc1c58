// The papers' refusals: one enum for all calls, their numbers, what each call asks in the papers'
// order, and the checks of a soil and of a state's bounds. No sum wraps, whatever the numbers.
#![tactic(auto)]

ghost use Rattle.std.specs.Prelude.{◌≡◌, ◌≤◌, ◌^◌, ltb, Ok};
ghost use Rattle.step_pools.specs.Pools.{total};
ghost use Rattle.month_state.specs.State.{month_limit};
ghost use Rattle.month_refusals.specs.Asked.{refusal_number, Finds, ◌on◌, placed_told};
ghost use Rattle.month_refusals.specs.Refusals.{depth_outside, kind_other, carbon_above};
ghost use Rattle.month_refusals.specs.Refusals.{carbon_bounds_passed, modern_above};
ghost use Rattle.month_refusals.specs.Refusals.{soil_asked, bounds_asked, soil_check, state_check};

use month_state::{Soil, State};
use number_units::Grams;
use step_pools::total;
use step_water::max_deficit;

// Why something is refused, each with the papers' number.
#[derive(Clone, Copy, PartialEq, Eq)]
pub enum Refusal {
    Length = 1,
    Form = 2,
    Rows = 3,
    Clay = 4,
    Depth = 5,
    Kind = 6,
    Carbon = 7,
    Room = 8,
    Years = 9,
    Bounds = 10,
    Turn = 11,
    MonthLimit = 12,
    Temperature = 13,
    Water = 14,
    Cover = 15,
    Additions = 16,
    Ceiling = 17,
    TableForm = 18,
    Source = 19,
    NoneKept = 20,
    Activity = 21,
    NoCarbon = 22,
}

impl Refusal {
    // The papers' number of a refusal.
    pub fn number(self) -> u64
        ensures { result ≡ refusal_number self }
    {
        self as u64
    }

    // The refusal on a line, or at a month.
    pub fn on(self, place: u64) -> RefusedAt
        ensures { result ≡ self on place }
    {
        RefusedAt {
            refusal: self,
            place,
        }
    }
}

// A refusal on a line of a book or a table, or at a month of a list or a spin-up. The papers give
// the place 0 to what is asked before these.
#[derive(Clone, Copy, PartialEq, Eq)]
pub struct RefusedAt {
    pub refusal: Refusal,
    pub place: u64,
}

// "A refusal returns its number and place": both 0 where nothing is refused.
#[derive(Clone, Copy, PartialEq, Eq)]
pub struct NumberAndPlace {
    pub number: u64,
    pub place: u64,
}

// The papers' number and place of an answer.
pub fn placed_told<T: Copy>(answer: Result<T, RefusedAt>) -> NumberAndPlace
    ensures { result ≡ placed_told answer }
{
    match answer {
        Ok(_) => NumberAndPlace {
            number: 0,
            place: 0,
        },
        Err(e) => NumberAndPlace {
            number: e.refusal.number(),
            place: e.place,
        },
    }
}

// A state that passes 4 to 7 and 10. Whoever has a check that found nothing builds it: no check
// gives it, since a list and a spin-up ask something of their own between the two parts.
#[derive(Clone, Copy)]
pub struct CheckedState {
    pub state: State,
    ghost passes: { state_check state ≡ Ok tt },
}

// Whether four pools together are above a bound. Each is tested before they are added, so that no
// sum wraps.
#[tactic(auto, unfolding(step_pools::specs::Pools::total))]
fn total_above(bound: u64, pools: [Grams; 4]) -> bool
    requires { bound ≤ 2 ^ 60 }
    ensures { result ≡ ltb bound (total pools) }
{
    let [dpm, rpm, bio, hum] = pools.map(|pool| pool.0);
    bound < dpm || bound < rpm || bound < bio || bound < hum || bound < dpm + rpm + bio + hum
}

// Here too each of the papers' conditions is a function of its name.

// 5: depth is outside 1 to 100.
#[tactic(auto, unfolding(crate::specs::Refusals::depth_outside))]
fn depth_outside(s: Soil) -> bool
    ensures { result ≡ depth_outside s }
{
    !(1..=100).contains(&s.depth)
}

// 6: kind is not 1, 2 or 3. The kinds' own type is step 6's, on which refusals don't rest.
#[tactic(auto, unfolding(crate::specs::Refusals::kind_other))]
fn kind_other(s: Soil) -> bool
    ensures { result ≡ kind_other s }
{
    !(1..=3).contains(&s.kind)
}

// 7: the active pools together, or IOM, exceed the ceiling.
#[tactic(auto, unfolding(crate::specs::Refusals::carbon_above))]
fn carbon_above(s: Soil) -> bool
    ensures { result ≡ carbon_above s }
{
    total_above(State::CARBON_CEILING, s.pools) || State::CARBON_CEILING < s.iom.0
}

// 4 to 7: a soil.
#[tactic(auto, unfolding(crate::specs::Refusals::soil_asked, crate::specs::Refusals::clay_outside, crate::specs::Asked::first_of, crate::specs::Asked::at, crate::specs::Asked::found))]
pub fn check_soil(s: Soil) -> Result<(), Refusal>
    ensures { Finds (soil_asked s) result }
{
    if 1000 < s.clay {
        return Err(Refusal::Clay);
    }
    if depth_outside(s) {
        return Err(Refusal::Depth);
    }
    if kind_other(s) {
        return Err(Refusal::Kind);
    }
    if carbon_above(s) {
        return Err(Refusal::Carbon);
    }
    Ok(())
}

// 10 but for modern grams: D is outside 0 to M, the months or the kept ones are too many, or CO2
// and active pools together are above their bound. The CO2 is tested before the pools are added.
// The return is early since only fewer months than the limit make a bound that fits 64 bits.
#[tactic(auto, unfolding(crate::specs::Refusals::carbon_bounds_passed))]
fn carbon_bounds_passed(s: State) -> bool
    requires { soil_check s.soil ≡ Ok tt }
    ensures { result ≡ carbon_bounds_passed s }
{
    let soil = s.soil;
    let largest = max_deficit(soil.clay, soil.depth);
    if largest.0 < s.deficit.0 || State::MONTH_LIMIT < s.months || State::KEPT_LIMIT < s.kept {
        return true;
    }
    let bound = 1_000_000_000 + 200_000_000 * s.months;
    bound < s.co2.0 || bound < s.co2.0 + total(soil.pools).0
}

// 10 for modern grams: those of the active pools together are above their bound.
#[tactic(auto, unfolding(crate::specs::Refusals::modern_above))]
fn modern_above(s: State) -> bool
    requires { s.months ≤ month_limit }
    ensures { result ≡ modern_above s }
{
    total_above(1_000_000_000 + 400_000_000 * s.months, s.modern)
}

// 10, of a state whose soil passes 4 to 7.
#[tactic(auto, unfolding(crate::specs::Refusals::bounds_asked, crate::specs::Refusals::bounds_passed, crate::specs::Asked::first_of, crate::specs::Asked::at, crate::specs::Asked::found, crate::specs::Refusals::carbon_bounds_passed))]
pub fn check_bounds(s: State) -> Result<(), Refusal>
    requires { soil_check s.soil ≡ Ok tt }
    ensures { Finds (bounds_asked s) result }
{
    if carbon_bounds_passed(s) || modern_above(s) {
        return Err(Refusal::Bounds);
    }
    Ok(())
}
