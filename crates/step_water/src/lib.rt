// Water, step 3 of document 01: the month's soil moisture deficit D and the rate factor B. Each
// function is the definition of specs/Water.antt that its promise names. The bound 560,250,000 is
// the largest M, at clay 650 and depth 100. M is in Parts and in no type with that bound of its
// own: it is compared with deficits, and one of them is the cap, so that each use would unwrap it.
// The 20,000 tenths are a bound of rain too, and stay a clause. M and D stay apart, as the papers'
// formulas have them.
#![tactic(auto)]

ghost use Rattle.std.specs.Prelude.{◌≡◌, ◌*◌, ◌≤◌, ◌<◌};
ghost use Rattle.step_water.specs.Water.{max_deficit, bare_limit, is_potential, tenths};
ghost use Rattle.step_water.specs.Water.{tenth_dries, drying, deficit_cap, new_deficit};
ghost use Rattle.step_water.specs.Water.{halves_up, moisture_factor};

use number_units::{Parts, TenThousandths};

// M, the largest deficit that a soil of this clay and depth can have.
#[tactic(auto, unfolding(crate::specs::Water::max_deficit))]
pub fn max_deficit(clay: u64, depth: u64) -> Parts
    requires { (clay ≤ 1000) × (depth ≤ 100) }
    ensures { result.0 ≡ max_deficit clay depth }
{
    Parts(9 * depth * (200000 + 1300 * clay - clay * clay))
}

// The bare limit, 5/9 of M.
#[tactic(auto, unfolding(crate::specs::Water::bare_limit))]
fn bare_limit(m: Parts) -> Parts
    requires { m.0 ≤ 560250000 }
    ensures { result.0 ≡ bare_limit m.0 }
{
    Parts(5 * m.0 / 9)
}

// A month's evaporation in tenths of a millimetre, by its source: of open pan, or potential
// evapotranspiration.
#[derive(Clone, Copy)]
pub enum Evaporation {
    OpenPan(u64),
    Potential(u64),
}

impl Evaporation {
    // What it dries, in parts.
    fn dries(self) -> u64
        requires { tenths self ≤ 20000 }
        ensures { result ≡ tenth_dries (is_potential self) * tenths self }
    {
        match self {
            Evaporation::OpenPan(tenths) => 155250 * tenths,
            Evaporation::Potential(tenths) => 207000 * tenths,
        }
    }
}

// The month's drying: below 0 where the rain outweighs the evaporation.
fn drying(evaporation: Evaporation, rain: u64) -> i64
    requires { (tenths evaporation ≤ 20000) × (rain ≤ 20000) }
    ensures { result ≡ drying (is_potential evaporation) (tenths evaporation) rain }
{
    evaporation.dries() as i64 - (207000 * rain) as i64
}

// The cap on the deficit after the month, d being the deficit before it.
#[tactic(auto, unfolding(crate::specs::Water::deficit_cap))]
fn deficit_cap(crop: bool, m: Parts, d: Parts) -> Parts
    requires { m.0 ≤ 560250000 }
    ensures { result.0 ≡ deficit_cap crop m.0 d.0 }
{
    if crop {
        m
    } else {
        Parts(d.0.max(bare_limit(m).0))
    }
}

// The deficit after the month, d being the deficit before it.
pub fn new_deficit(crop: bool, m: Parts, d: Parts, evaporation: Evaporation, rain: u64) -> Parts
    requires { (m.0 ≤ 560250000) × (d.0 ≤ 560250000)
        × (tenths evaporation ≤ 20000) × (rain ≤ 20000) }
    ensures { result.0
        ≡ new_deficit crop m.0 d.0 (is_potential evaporation) (tenths evaporation) rain }
{
    let cap = deficit_cap(crop, m, d);
    let dried = d.0 as i64 + drying(evaporation, rain);
    Parts(dried.clamp(0, cap.0 as i64) as u64)
}

// n / d rounded to the nearest whole number, halves up.
#[tactic(auto, unfolding(crate::specs::Water::halves_up))]
fn halves_up(n: u64, d: u64) -> u64
    requires { (n ≤ 10000000000000000) × (0 < d) × (d ≤ 1000000000000) }
    ensures { result ≡ halves_up n d }
{
    (2 * n + d) / (2 * d)
}

// B, for the deficit d after the month.
pub fn moisture_factor(m: Parts, d: Parts) -> TenThousandths
    requires { (0 < m.0) × (m.0 ≤ 560250000) × (d.0 ≤ m.0) }
    ensures { result.0 ≡ moisture_factor m.0 d.0 }
{
    if 1000 * d.0 < 444 * m.0 {
        return TenThousandths(10000);
    }
    TenThousandths(2000 + halves_up(8000000 * (m.0 - d.0), 556 * m.0))
}
