// The bodies of rothc_survival and rothc_survival_terms: step 4's survival number of a pool at a
// rate number.
#![tactic(auto)]

ghost use Rattle.std.specs.Prelude.{true, false, ◌≡◌, ◌≤◌, ◌<◌, MatchOption};
ghost use Rattle.library_survival.specs.Calls.{has_survival, rothc_survival, rothc_survival_terms};

use step_decay::{pool_counted, survivals};

// What C gets where there is no survival number: an Option has no form there.
pub const NO_SURVIVAL: u64 = u64::MAX;

// The largest rate number that a month can have.
const RATE_LIMIT: u64 = 8_363_900_000;

// The place of the pool, if there is a survival number: the pool is 0 DPM, 1 RPM, 2 BIO or 3 HUM,
// and a month can have the rate number. C hands the pool over as a number, an enum having no form
// there, and it is only the place in the array of the four.
fn place(n: u64, pool: u64) -> Option<usize>
    ensures { MatchOption result (has_survival n pool ≡ false)
        (λ i. (has_survival n pool ≡ true) × ((i ≡ pool) × ((i < 4) × (n ≤ 8363900000)))) }
{
    if 3 < pool || RATE_LIMIT < n {
        return None;
    }
    Some(pool as usize)
}

// A pool's survival number in a month of that rate number: of the four that the month makes.
#[tactic(auto, unfolding(crate::specs::Calls::rothc_survival))]
pub fn survival(n: u64, pool: u64) -> u64
    ensures { result ≡ rothc_survival n pool }
{
    match place(n, pool) {
        Some(i) => survivals(n)[i],
        None => NO_SURVIVAL,
    }
}

// The same, and how many terms of the series were summed for it.
#[tactic(auto, unfolding(crate::specs::Calls::rothc_survival, crate::specs::Calls::rothc_survival_terms))]
pub fn survival_terms(n: u64, pool: u64, terms: &mut u64) -> u64
    ensures left { record { survival = result; terms = terms.new }
        ≡ rothc_survival_terms n pool terms.old }
    ensures few { has_survival n pool ≡ true → terms.new ≤ 40 }
{
    let Some(i) = place(n, pool) else {
        return NO_SURVIVAL;
    };
    let s = pool_counted(n, i);
    *terms = s.terms;
    s.survival
}
