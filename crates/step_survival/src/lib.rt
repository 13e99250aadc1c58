// Step 4 of document 01: the rate number N, and the survival number S(N, K) in integers of 64 bits.
#![tactic(auto)]

ghost use Rattle.std.specs.Prelude.{◌≡◌, ◌+◌, ◌*◌, ◌/◌, ◌^◌, ◌≤◌, ◌<◌};
ghost use Rattle.step_survival.specs.Series.{later_terms, series, term_count};
ghost use Rattle.step_survival.specs.Survival.{rate_number, parts, survival_at};
ghost use Rattle.step_survival.specs.Survival.{survival_number, survival_terms, IsSurvival};
ghost use Rattle.step_survival.specs.Served.{EveryW};
ghost use Rattle.step_survival.specs.Ages.{age_limit, age_survival, Ages};

use number_units::TenThousandths;
use step_powers::power;

// 1 and 1/32 in parts of 2^37, in which w and the series are.
const ONE: u64 = 1 << 37;

const STEP: u64 = ONE / 32;

// 1 in parts of 2^44, in which w is divided.
const FINE_ONE: u64 = 1 << 44;

// N, from A, B and whether a crop covers the soil.
#[tactic(auto, unfolding(crate::specs::Survival::rate_number))]
pub fn rate_number(crop: bool, a: TenThousandths, b: TenThousandths) -> u64
    requires { (a.0 ≤ 83639) × (b.0 ≤ 10000) }
    ensures { result ≡ rate_number crop a.0 b.0 }
{
    if crop { a.0 * b.0 * 6 } else { a.0 * b.0 * 10 }
}

// w = N × K / 1,200,000,000,000 in parts of 2^37. N is divided first, in parts of 2^44, so that K's
// product fits 64 bits. 1,200,000,000,000 is 2^13 × 146,484,375, and N × 2^31 fits too. N and K
// have no types of their own, here and in the decay: C hands N over as a number, K is one of four
// constants, and a type would be opened at this one product.
fn parts(n: u64, k: u64) -> u64
    requires { (n ≤ 8363900000) × (k ≤ 1000) }
    ensures { (result ≡ parts n 1200000000000 k) × (result < 240 * 2 ^ 32) }
{
    let ratio = n * (FINE_ONE / 8192) / 146_484_375;
    ratio * k / 128
}

// Term k of the series, from the one before it.
fn next_term(term: u64, r: u64, k: u64) -> u64
    requires { (term < 2 ^ 32) × (r < 2 ^ 32) × (0 < k) × (k ≤ 5) }
    ensures { result ≡ term * r / (2 ^ 37 * k) }
{
    term * r / (ONE * k)
}

// Terms 1 to 5 of the series, for an r below 1/32. Term 0 is 1, and term 6 is 0. They are an array,
// as the library has no heap. r has no type of its own: it is p % STEP at both places where it is
// made, which shows the bound.
#[tactic(auto, using(crate::proofs::Steps::later_are))]
fn later_terms(r: u64) -> [u64; 5]
    requires { r < 2 ^ 32 }
    ensures { result ≡ later_terms r }
{
    let second = next_term(r, r, 2);
    let third = next_term(second, r, 3);
    let fourth = next_term(third, r, 4);
    let fifth = next_term(fourth, r, 5);
    [r, second, third, fourth, fifth]
}

// e^(-r) in parts of 2^37.
fn sum_terms(r: u64) -> u64
    requires { r < 2 ^ 32 }
    ensures { result ≡ series r }
{
    let [first, second, third, fourth, fifth] = later_terms(r);
    ONE + second + fourth - (first + third + fifth)
}

// How many terms that sums: as many as stand before the first 0.
fn term_count(r: u64) -> u64
    requires { r < 2 ^ 32 }
    ensures { result ≡ term_count r }
{
    let later = later_terms(r);
    1 + later.iter().take_while(|t| **t != 0).count() as u64
}

// power × y / 2^39 to the nearest, halves up, for a y that is little less than 2^37. The whole
// product would pass 64 bits; the power times what y is short of 2^37 does not. It is rounded up by
// hand: tried with div_ceil, with which a month's four numbers took 1.08 times as long.
#[tactic(auto, using(crate::proofs::Steps::nearest_is))]
fn nearest(power: u64, y: u64) -> u64
    requires { (power ≤ 4000000000) × (y ≤ 2 ^ 37) × (2 ^ 37 ≤ y + 2 ^ 32) }
    ensures { result ≡ (power * y + 2 ^ 38) / 2 ^ 39 }
{
    let short = (power * (ONE - y) + 127) / 128;
    (power * (ONE / 128) - short + STEP / 2) / STEP
}

// The survival number of w in parts of 2^37, for every w below 7.5.
fn survival_at(p: u64) -> u64
    requires { p < 240 * 2 ^ 32 }
    ensures { result ≡ survival_at p }
{
    let whole = power(p / STEP);
    let rest = sum_terms(p % STEP);
    nearest(whole, rest)
}

// The survival number S, for every N that steps 1 to 3 give and every rate K up to 1000 hundredths
// a year.
pub fn survival(n: u64, k: u64) -> u64
    requires { (n ≤ 8363900000) × (k ≤ 1000) }
    ensures { (result ≡ survival_number n k) × IsSurvival n k result }
{
    survival_at(parts(n, k))
}

// The survival number of an age in years, w = years / 8035 (change 2026-04). Years × 2^44 fits 64
// bits.
pub fn age_survival(years: u64) -> u64
    requires { years ≤ age_limit }
    ensures { (result ≡ age_survival years) × Ages }
{
    survival_at(years * FINE_ONE / 8035 / 128)
}

// A survival number, and how many terms were summed for it.
#[derive(Clone, Copy)]
pub struct Counted {
    pub survival: u64,
    pub terms: u64,
}

// S, as `survival` gives it, with the number of terms: for tests.
pub fn survival_counted(n: u64, k: u64) -> Counted
    requires { (n ≤ 8363900000) × (k ≤ 1000) }
    ensures survival { (result.survival ≡ survival_number n k) × IsSurvival n k result.survival }
    ensures terms { (result.terms ≡ survival_terms n k) × (result.terms ≤ 40) }
    ensures served { EveryW }
{
    let p = parts(n, k);
    Counted {
        survival: survival_at(p),
        terms: term_count(p % STEP),
    }
}
