// Grams shared and added: a share of them rounded down, and the sum of four pools, or of their
// losses, by value. Four pools are an array, here and above, in the papers' order: the steps go
// over them alike, and a struct of four fields would say each step four times.
#![tactic(auto)]

ghost use Rattle.std.specs.Prelude.{◌≡◌, ◌≤◌, ◌<◌, ◌^◌};
ghost use Rattle.step_pools.specs.Pools.{share, total};

use number_units::Grams;

// Up to so many grams, which is above the carbon of any accepted field, one product and one
// division make a share. More is divided first, so that no product passes 64 bits for any grams.
const SHARED_AT_ONCE: u64 = 10_000_000_000;

// part of the whole equal parts of grams, rounded down.
pub fn share(grams: Grams, part: u64, whole: u64) -> Grams
    requires { (0 < whole) × (whole ≤ 1000000000) × (part ≤ whole) }
    ensures { (result.0 ≡ share grams.0 part whole) × (result.0 ≤ grams.0) }
{
    let Grams(x) = grams;
    if x <= SHARED_AT_ONCE {
        Grams(x * part / whole)
    } else {
        Grams(x / whole * part + x % whole * part / whole)
    }
}

// The four, added. That they fit 64 bits stays a clause, here and above: it is asked of pools, of
// losses, and of pools with what they are given, each time of another sum.
#[tactic(auto, unfolding(crate::specs::Pools::total))]
pub fn total(four: [Grams; 4]) -> Grams
    requires { total four < 2 ^ 64 }
    ensures { result.0 ≡ total four }
{
    let [dpm, rpm, bio, hum] = four;
    dpm + rpm + bio + hum
}
