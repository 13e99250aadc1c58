// The radiocarbon report on a state, change 2026-04 of document 02: delta and age of a pool, or of
// all five, whose carbon and modern grams are added first. Pools are an array, as in the state: the
// library has no heap.
#![tactic(auto)]

ghost use Rattle.std.specs.Prelude.{◌≡◌, true, Ok, ◌+◌, ◌≤◌, ◌<◌, ◌^◌};
ghost use Rattle.step_pools.specs.Pools.{total};
ghost use Rattle.month_refusals.specs.Asked.{at, told, Exactly, checking_order, part_of};
ghost use Rattle.month_refusals.specs.Asked.{answer_found, answer_told};
ghost use Rattle.radiocarbon_report.specs.Report.{grams_of, delta, report_asked, report_on, report};
ghost use Rattle.radiocarbon_report.specs.Report.{AgeMeans};

use month_checks::check_state;
use month_refusals::Refusal;
use month_state::State;
use number_units::Grams;
use radiocarbon_age::{Age, ModernShare};
use step_modern::{INERT_ACTIVITY, modern_grams};
use step_pools::total;

// What a report can be on: a pool, or all five.
#[derive(Clone, Copy)]
pub enum Subject {
    Dpm,
    Rpm,
    Bio,
    Hum,
    Iom,
    AllFive,
}

impl Subject {
    // What the subject has of the grams of four active pools and IOM: a pool's own, or all five's.
    fn grams_of(self, pools: [Grams; 4], iom: Grams) -> Grams
        requires { total pools + iom.0 < 2 ^ 64 }
        ensures { result.0 ≡ grams_of self pools iom.0 }
    {
        let [dpm, rpm, bio, hum] = pools;
        match self {
            Subject::Dpm => dpm,
            Subject::Rpm => rpm,
            Subject::Bio => bio,
            Subject::Hum => hum,
            Subject::Iom => iom,
            Subject::AllFive => total(pools) + iom,
        }
    }
}

// A report: delta in hundredths, and the age.
#[derive(Clone, Copy)]
pub struct Radiocarbon {
    pub delta: i64,
    pub age: Age,
}

// A report's answer, or why it is refused.
pub type ReportAnswer = Result<Radiocarbon, Refusal>;

// Delta in hundredths.
fn delta(share: ModernShare) -> i64
    requires { (share.modern ≤ 2 ^ 46) × (0 < share.carbon) }
    ensures { result ≡ delta share.modern share.carbon }
{
    (100_000 * share.modern / share.carbon) as i64 - 100_000
}

// Delta and age of so many modern grams in so much carbon.
fn report_on(share: ModernShare) -> Radiocarbon
    requires { (share.modern ≤ 2 ^ 46) × (0 < share.carbon) }
    ensures { Ok result ≡ report_on share.modern share.carbon }
{
    Radiocarbon {
        delta: delta(share),
        age: share.age(),
    }
}

// The report on a pool of a state, or on all five. Whatever the numbers of the state are, it is
// given or refused, each refusal exactly where it is the first that applies.
pub fn report(s: State, subject: Subject) -> ReportAnswer
    ensures answer { result ≡ report s subject }
    ensures told { answer_told result ≡ told (at 0 (report_asked s subject)) }
    ensures exactly { Exactly (at 0 (report_asked s subject)) (answer_found result) }
    ensures order { part_of checking_order (report_asked s subject) ≡ true }
    ensures age { AgeMeans s subject result }
{
    check_state(s)?;
    let soil = s.soil;
    let carbon = subject.grams_of(soil.pools, soil.iom);
    if carbon.0 == 0 {
        return Err(Refusal::NoCarbon);
    }
    // The modern grams of IOM follow from its carbon.
    let inert = modern_grams(soil.iom, INERT_ACTIVITY);
    let modern = subject.grams_of(s.modern, inert);
    let share = ModernShare {
        modern: modern.0,
        carbon: carbon.0,
    };
    Ok(report_on(share))
}
