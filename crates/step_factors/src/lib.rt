// Steps 1 and 2 of document 01: the temperature factor A and the clay number R, from tables whose
// rule is proved at every entry.
#![tactic(auto)]

mod clay_table;
mod temperature_table;

ghost use Rattle.std.specs.Prelude.{◌≡◌, ◌≤◌, pos, ◌≤ℤ◌};
ghost use Rattle.step_factors.specs.Factors.{temperature_factor, IsTemperatureFactor};
ghost use Rattle.step_factors.specs.Factors.{clay_number, IsClayNumber};

use clay_table::CLAY_NUMBERS;
use number_units::TenThousandths;
use temperature_table::TEMPERATURE_FACTORS;

// A, for a temperature in tenths of a degree, up to 500.
pub fn temperature_factor(t: i64) -> TenThousandths
    requires { t ≤ℤ pos 500 }
    ensures { (result.0 ≡ temperature_factor t) × IsTemperatureFactor t result.0
        × (result.0 ≤ 83639) }
{
    if t < -50 {
        return TenThousandths(0);
    }
    TenThousandths(u64::from(TEMPERATURE_FACTORS[(t + 50) as usize]))
}

// R, for a clay content in tenths of a percent, up to 1000.
pub fn clay_number(clay: u64) -> u64
    requires { clay ≤ 1000 }
    ensures { (result ≡ clay_number clay) × IsClayNumber clay result × (result ≤ 244467) }
{
    u64::from(CLAY_NUMBERS[clay as usize])
}
