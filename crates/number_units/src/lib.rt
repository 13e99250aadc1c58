// The units of document 01. Each is a type of its own, so that a sum of grams and parts does not
// type. They have no order: where two are compared it is their numbers, as in the papers.
#![tactic(auto)]

ghost use Rattle.std.specs.Prelude.{◌≡◌, ◌+◌, ◌-◌, ◌<◌, ◌≤◌, ◌^◌};

use std::ops::{Add, Sub};

// Carbon, in whole grams a hectare.
#[derive(Clone, Copy)]
pub struct Grams(pub u64);

// A sum that fits 64 bits.
impl Add for Grams {
    type Output = Grams;

    ghost can_add = { λ a b. a.0 + b.0 < 2 ^ 64 };

    ghost add_gives = { λ a b sum. sum.0 ≡ a.0 + b.0 };

    fn add(self, other: Grams) -> Grams {
        Grams(self.0 + other.0)
    }
}

// What is left when at most all is taken.
impl Sub for Grams {
    type Output = Grams;

    ghost can_sub = { λ a b. b.0 ≤ a.0 };

    ghost sub_gives = { λ a b rest. rest.0 ≡ a.0 - b.0 };

    fn sub(self, other: Grams) -> Grams {
        Grams(self.0 - other.0)
    }
}

// Soil moisture deficit, in parts of which 2,070,000 make a millimetre.
#[derive(Clone, Copy)]
pub struct Parts(pub u64);

// A rate factor: A or B, in ten-thousandths.
#[derive(Clone, Copy)]
pub struct TenThousandths(pub u64);
