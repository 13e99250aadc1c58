// Soils, states, a month's entries and its row by value; a new state, and the total of a state.
#![tactic(auto)]

ghost use Rattle.std.specs.Prelude.{◌≡◌, ◌<◌, ◌^◌, pos, nat_abs, ◌≤ℤ◌};
ghost use Rattle.month_state.specs.State.{new_state, five_pools, one_more_kept};

use number_units::{Grams, Parts};
use step_pools::total;

// A soil: clay in tenths of a percent, depth in cm, the number of its plants' kind as it was read
// (another than the kinds have is refused and not misread), its four active pools in the order DPM,
// RPM, BIO, HUM, and its inert carbon.
#[derive(Clone, Copy)]
pub struct Soil {
    pub clay: u64,
    pub depth: u64,
    pub kind: u64,
    pub pools: [Grams; 4],
    pub iom: Grams,
}

// A state: the soil, the deficit D, the months done and the CO2 to date; the modern grams of its
// active pools (change 2026-04 of document 02; IOM's follow from its carbon); and how many of the
// states before its latest months are kept (change 2026-02). These lie in lent memory.
#[derive(Clone, Copy)]
pub struct State {
    pub soil: Soil,
    pub deficit: Parts,
    pub months: u64,
    pub co2: Grams,
    pub modern: [Grams; 4],
    pub kept: u64,
}

// A month's weather. `source` is document 02's "fourth number", the kind of the evaporation: 0 for
// open pan, 1 for potential evapotranspiration. Here and in the land's entries the numbers have a
// sign, so that one below 0 is refused and not misread.
#[derive(Clone, Copy)]
pub struct Weather {
    pub temperature: i64,
    pub rain: i64,
    pub evaporation: i64,
    pub source: i64,
}

// What the land is given in a month: its cover, plant carbon and manure, and the activity of both
// in thousandths.
#[derive(Clone, Copy)]
pub struct Land {
    pub cover: i64,
    pub plant: i64,
    pub manure: i64,
    pub activity: i64,
}

// What a month is given.
#[derive(Clone, Copy)]
pub struct Entries {
    pub weather: Weather,
    pub land: Land,
}

// A month's row: the five pools, the month's CO2 and the new deficit.
#[derive(Clone, Copy)]
pub struct Row {
    pub dpm: Grams,
    pub rpm: Grams,
    pub bio: Grams,
    pub hum: Grams,
    pub iom: Grams,
    pub co2: Grams,
    pub deficit: Parts,
}

// What a call answers, with the state beside it. No `Result` with the state in its `Ok`: a refusal
// has a state too, the one that was given, or a list's after the months that ran, and the promises
// say which.
#[derive(Clone, Copy)]
pub struct Outcome<T, S> {
    pub answer: T,
    pub state: S,
}

impl State {
    // What the active pools together, or IOM, may have.
    pub const CARBON_CEILING: u64 = 1_000_000_000;
    // The months that a state may have done.
    pub const MONTH_LIMIT: u64 = 120_000;
    // The most states that are kept beside the current one.
    pub const KEPT_LIMIT: u64 = 24;

    // A new state: 0 for the deficit, the months done and the CO2 to date, as many modern grams as
    // grams, and none kept.
    #[tactic(auto, unfolding(crate::specs::State::new_state))]
    pub fn new(soil: Soil) -> State
        ensures { result ≡ new_state soil }
    {
        let modern = soil.pools;
        State {
            soil,
            deficit: Parts(0),
            months: 0,
            co2: Grams(0),
            modern,
            kept: 0,
        }
    }
}

// The five pools of a state together.
pub fn five_pools(s: State) -> Grams
    requires { five_pools s < 2 ^ 64 }
    ensures { result.0 ≡ five_pools s }
{
    total(s.soil.pools) + s.soil.iom
}

// How many states are kept after one month more: past the limit the oldest goes.
pub fn one_more_kept(kept: u64) -> u64
    ensures { result ≡ one_more_kept kept }
{
    kept.saturating_add(1).min(State::KEPT_LIMIT)
}

// A signed number that is not below 0, as one without a sign. By `as`, whose proof shows that it is
// not below 0; `unsigned_abs` would turn -1 into 1.
pub fn natural(z: i64) -> u64
    requires { pos 0 ≤ℤ z }
    ensures { result ≡ nat_abs z }
{
    z as u64
}
