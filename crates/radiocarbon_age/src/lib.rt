// The radiocarbon age of modern grams in carbon, change 2026-04 of document 02, found by halves:
// survival numbers never rise with the age.
#![tactic(auto)]

ghost use Rattle.std.specs.Prelude.{true, ◌≡◌, ◌≤◌};
ghost use Rattle.step_survival.specs.Ages.{age_limit};
ghost use Rattle.radiocarbon_age.specs.Age.{reaches, age_of, Smallest, Means};

use step_survival::age_survival;

// The largest age that is tried, in years.
pub const AGE_LIMIT: u64 = 60_000;

// An age in whole years; or older than any that is tried; or more modern grams than grams.
#[derive(Clone, Copy)]
pub enum Age {
    Years(u64),
    Older,
    Newer,
}

// So many modern grams in so much carbon, which is at most 2,000,000,000, as in a state that
// passes.
#[derive(Clone, Copy)]
pub struct ModernShare {
    pub modern: u64,
    pub carbon: u64,
    ghost within: { carbon ≤ 2000000000 },
}

impl ModernShare {
    // Whether the survival number of y years is at most 1,000,000,000 × modern / carbon.
    fn reaches(self, y: u64) -> bool
        requires { (self.modern ≤ self.carbon) × (y ≤ age_limit) }
        ensures { result ≡ reaches self.modern self.carbon y }
    {
        age_survival(y) * self.carbon <= 1_000_000_000 * self.modern
    }

    // The smallest age that reaches it, where the largest does. It is never below `low`, and `high`
    // always reaches it. By hand: the library searches slices by halves, and ages are computed, in
    // no slice.
    fn smallest(self) -> u64
        requires old { self.modern ≤ self.carbon }
        requires found { reaches self.modern self.carbon age_limit ≡ true }
        ensures { Smallest self.modern self.carbon result }
    {
        let mut low = 0;
        let mut high = AGE_LIMIT;
        while low < high {
            let middle = (low + high) / 2;
            if self.reaches(middle) {
                high = middle;
            } else {
                low = middle + 1;
            }
        }
        high
    }

    // The age of so many modern grams in so much carbon.
    pub fn age(self) -> Age
        ensures { (result ≡ age_of self.modern self.carbon)
            × Means self.modern self.carbon result }
    {
        if self.carbon < self.modern {
            return Age::Newer;
        }
        if self.reaches(AGE_LIMIT) {
            return Age::Years(self.smallest());
        }
        Age::Older
    }
}
