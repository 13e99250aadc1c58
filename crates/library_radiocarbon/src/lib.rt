// The bodies of rothc_radiocarbon and rothc_age_survival: the radiocarbon report on a field's
// numbers in lent memory, and the survival numbers that its ages are found by.
#![tactic(auto)]

ghost use Rattle.std.specs.Prelude.{◌≡◌, ℕ, ◌≤◌};
ghost use Rattle.step_survival.specs.Ages.{age_limit};
ghost use Rattle.radiocarbon_age.specs.declared.Age.TheVariants.{Years};
ghost use Rattle.library_month.specs.Calls.{call_number};
ghost use Rattle.library_radiocarbon.specs.Calls.{subject_of, report_numbers};
ghost use Rattle.library_radiocarbon.specs.Calls.{rothc_radiocarbon, rothc_age_survival};

use library_month::{CallAnswer, CallRefusal};
use library_survival::NO_SURVIVAL;
use month_layouts::{FIELD_WIDTH, state_of};
use radiocarbon_age::{AGE_LIMIT, Age};
use radiocarbon_report::{Radiocarbon, Subject, report};
use step_survival::age_survival;

// How many numbers a report has.
const REPORT_WIDTH: usize = 3;

// What C asks for by a number (an enum has no form there); another number asks for nothing. The
// numbers are the interface's and not the report's, so there is no `TryFrom`.
fn subject_of(pool: u64) -> Option<Subject>
    ensures { result ≡ subject_of pool }
{
    match pool {
        0 => Some(Subject::Dpm),
        1 => Some(Subject::Rpm),
        2 => Some(Subject::Bio),
        3 => Some(Subject::Hum),
        4 => Some(Subject::Iom),
        5 => Some(Subject::AllFive),
        _ => None,
    }
}

// Delta, whether there is an age, and the age, as C takes them: three numbers, in an array of that
// length, since the library has no heap.
fn report_numbers(given: Radiocarbon) -> [i64; REPORT_WIDTH]
    requires { (y : ℕ) → given.age ≡ Years y → y ≤ age_limit }
    ensures { result ≡ report_numbers given.delta given.age }
{
    match given.age {
        Age::Years(y) => [given.delta, 0, y as i64],
        Age::Older => [given.delta, 1, 0],
        Age::Newer => [given.delta, 2, 0],
    }
}

// The report on a pool of a field's state, or on all five. A number that asks for nothing is a
// fault of the layout, not one of the papers' refusals.
#[tactic(auto, unfolding(crate::specs::Calls::rothc_radiocarbon))]
pub fn radiocarbon(state: &[u64], pool: u64, numbers: &mut [i64]) -> CallAnswer
    ensures { record { number = call_number result; report = numbers.new }
        ≡ rothc_radiocarbon state.now pool numbers.old }
{
    if state.len() != FIELD_WIDTH || numbers.len() != REPORT_WIDTH {
        return Err(CallRefusal::Shape);
    }
    let subject = subject_of(pool).ok_or(CallRefusal::Shape)?;
    let given = report(state_of(state), subject)?;
    numbers.copy_from_slice(&report_numbers(given));
    Ok(())
}

// The survival number of an age in years.
#[tactic(auto, unfolding(crate::specs::Calls::rothc_age_survival))]
pub fn age_number(years: u64) -> u64
    ensures { result ≡ rothc_age_survival years }
{
    if AGE_LIMIT < years {
        return NO_SURVIVAL;
    }
    age_survival(years)
}
