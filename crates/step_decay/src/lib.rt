// Step 4 for the four pools and step 5 of document 01, by value: survival numbers, what the pools
// keep and lose, what the losses form.
#![tactic(auto)]

ghost use Rattle.std.specs.Prelude.{◌≡◌, ◌≤◌, ◌<◌, ◌^◌, get_or};
ghost use Rattle.step_pools.specs.Pools.{total};
ghost use Rattle.step_decay.specs.Decay.{Survivals, lost, losses, carbon_dioxide};
ghost use Rattle.step_decay.specs.Decay.{decayed, split, Within};
ghost use Rattle.step_decay.specs.Rates.{survivals, term_counts};

use number_units::Grams;
use std::array;
use step_pools::{share, total};
use step_survival::{Counted, survival, survival_counted};

// The rates K of the four pools, in hundredths a year.
pub const RATES: [u64; 4] = [1000, 30, 66, 2];

// Step 4 for the four pools: each one's survival number at the rate number n.
#[tactic(auto, using(step_pools::proofs::Laws::is_four), unfolding(crate::specs::Rates::survivals))]
pub fn survivals(n: u64) -> [u64; 4]
    requires { n ≤ 8363900000 }
    ensures { (result ≡ survivals n) × Survivals result }
{
    array::from_fn(|pool| survival(n, RATES[pool]))
}

// One pool's survival number, as `survivals` has it, and how many terms were summed for it. pool is
// its place in RATES, which C hands over: 0 for DPM, 1 for RPM, 2 for BIO, 3 for HUM.
pub fn pool_counted(n: u64, pool: usize) -> Counted
    requires { (n ≤ 8363900000) × (pool < 4) }
    ensures survival { result.survival ≡ get_or (survivals n) pool 0 }
    ensures terms { (result.terms ≡ get_or (term_counts n) pool 0) × (result.terms ≤ 40) }
{
    survival_counted(n, RATES[pool])
}

// The shares of a month's decay: of each pool what survives, in billionths, and of the losses what
// is formed, the clay number r, in millionths.
#[derive(Clone, Copy)]
pub struct Shares {
    pub survival: [u64; 4],
    pub r: u64,
    ghost in_range: { Survivals survival × (r ≤ 1000000) },
}

// What a pool loses at the survival number s.
fn loss(pool: Grams, s: u64) -> Grams
    requires { s ≤ 1000000000 }
    ensures { result.0 ≡ lost pool.0 s }
{
    pool - share(pool, s, 1_000_000_000)
}

// What each of the four pools loses.
#[tactic(auto, using(step_pools::proofs::Laws::is_four_grams), unfolding(crate::specs::Decay::losses))]
fn losses(pools: [Grams; 4], survival: [u64; 4]) -> [Grams; 4]
    requires { Survivals survival }
    ensures { result ≡ losses pools survival }
{
    array::from_fn(|pool| loss(pools[pool], survival[pool]))
}

// The four pools after decay, or after decay and additions, and what left them as CO2.
#[derive(Clone, Copy)]
pub struct Turned {
    pub pools: [Grams; 4],
    pub co2: Grams,
}

// The split of the four losses: what they form goes to BIO and HUM, and the rest is CO2.
fn split(pools: [Grams; 4], lost: [Grams; 4], r: u64) -> Turned
    requires { Within lost pools × (r ≤ 1000000) × (total pools < 2 ^ 64) }
    ensures pools { result.pools ≡ split pools lost r }
    ensures co2 { result.co2.0 ≡ carbon_dioxide (total lost) r }
{
    let all = total(lost);
    let formed = share(all, r, 1_000_000);
    let bio_gain = share(formed, 46, 100);
    let hum_gain = formed - bio_gain;
    Turned {
        pools: [
            pools[0] - lost[0],
            pools[1] - lost[1],
            pools[2] - lost[2] + bio_gain,
            pools[3] - lost[3] + hum_gain,
        ],
        co2: all - formed,
    }
}

// Step 5: each pool loses its share, and the losses are split. A month decays carbon and modern
// grams: in two calls that are not inlined, pools and shares went through memory.
#[inline(always)]
pub fn decay(pools: [Grams; 4], shares: Shares) -> Turned
    requires { total pools < 2 ^ 64 }
    ensures pools { result.pools ≡ decayed pools shares.survival shares.r }
    ensures co2 { result.co2.0 ≡ carbon_dioxide (total (losses pools shares.survival)) shares.r }
{
    split(pools, losses(pools, shares.survival), shares.r)
}
