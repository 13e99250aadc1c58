// Modern grams, change 2026-04 of document 02: those of carbon of an activity, and a month's
// radioactive loss in four pools by value.
#![tactic(auto)]

ghost use Rattle.std.specs.Prelude.{◌≡◌, ◌≤◌};
ghost use Rattle.step_modern.specs.Modern.{modern_grams, month_older, aged};

use number_units::Grams;
use step_pools::share;

// The activity of inert carbon, in thousandths.
pub const INERT_ACTIVITY: u64 = 2;

// The modern grams of so much carbon of an activity in thousandths.
#[tactic(auto, unfolding(crate::specs::Modern::modern_grams, step_pools::specs::Pools::share))]
pub fn modern_grams(carbon: Grams, activity: u64) -> Grams
    requires { (carbon.0 ≤ 1000000000) × (activity ≤ 2000) }
    ensures { result.0 ≡ modern_grams carbon.0 activity }
{
    Grams(carbon.0 * activity / 1000)
}

// What is left of a pool's modern grams after a month.
fn month_older(modern: Grams) -> Grams
    ensures { result.0 ≡ month_older modern.0 }
{
    share(modern, 999_989_629, 1_000_000_000)
}

// The radioactive loss of a month in the four active pools.
#[tactic(auto, using(step_pools::proofs::Laws::is_four_grams), unfolding(crate::specs::Modern::aged))]
pub fn aged(modern: [Grams; 4]) -> [Grams; 4]
    ensures { result ≡ aged modern }
{
    modern.map(month_older)
}
