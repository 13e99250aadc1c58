// Steps 5 and 6 of document 01 on four pools by value: the one function for their carbon and for
// their modern grams (change 2026-04 of document 02), and a month's turn of both.
#![tactic(auto)]

ghost use Rattle.std.specs.Prelude.{◌≡◌, ◌+◌, ◌≤◌, ◌<◌, ◌^◌};
ghost use Rattle.step_pools.specs.Pools.{total};
ghost use Rattle.step_additions.specs.Kinds.{kind_number};
ghost use Rattle.step_turnover.specs.Turnover.{turned_over, released, modern_turned};

use number_units::Grams;
use step_additions::Additions;
use step_decay::{Shares, Turned, decay};
use step_modern::{aged, modern_grams};

// Decay, then the additions by the kind's shares. Inlined, as `decay` is.
#[tactic(auto, unfolding(crate::specs::Turnover::released))]
#[inline(always)]
pub fn turn_over(pools: [Grams; 4], shares: Shares, given: Additions) -> Turned
    requires { total pools + given.plant.0 + given.manure.0 < 2 ^ 64 }
    ensures pools { result.pools
        ≡ turned_over pools shares.survival shares.r (kind_number given.kind)
        given.plant.0 given.manure.0 }
    ensures co2 { result.co2.0 ≡ released pools shares.survival shares.r }
{
    let left = decay(pools, shares);
    Turned {
        pools: given.added_to(left.pools),
        co2: left.co2,
    }
}

// The four pools after a month, what left them as CO2, and the modern grams after it.
#[derive(Clone, Copy)]
pub struct TurnedBoth {
    pub pools: [Grams; 4],
    pub co2: Grams,
    pub modern: [Grams; 4],
}

// The carbon, and the modern grams, a month older and with what the additions bring by their
// activity in thousandths: with the same shares and the same kind.
pub fn turn_both(
    carbon: [Grams; 4],
    modern: [Grams; 4],
    shares: Shares,
    given: Additions,
    activity: u64,
) -> TurnedBoth
    requires given { (given.plant.0 ≤ 100000000) × (given.manure.0 ≤ 100000000)
        × (activity ≤ 2000) }
    requires grams { (total carbon + 200000000 < 2 ^ 64) × (total modern + 400000000 < 2 ^ 64) }
    ensures pools { result.pools
        ≡ turned_over carbon shares.survival shares.r (kind_number given.kind)
        given.plant.0 given.manure.0 }
    ensures co2 { result.co2.0 ≡ released carbon shares.survival shares.r }
    ensures modern { result.modern
        ≡ modern_turned modern shares.survival shares.r (kind_number given.kind)
        given.plant.0 given.manure.0 activity }
{
    let modern_given = Additions {
        kind: given.kind,
        plant: modern_grams(given.plant, activity),
        manure: modern_grams(given.manure, activity),
    };
    let modern = turn_over(aged(modern), shares, modern_given).pools;
    let Turned { pools, co2 } = turn_over(carbon, shares, given);
    TurnedBoth { pools, co2, modern }
}
