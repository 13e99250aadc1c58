// Demand 3 with months taken back, change 2026-02 of document 02: lists of single month calls and
// takings-back, their theorem, and both calls with it in their promises.
#![tactic(auto)]

ghost use Rattle.std.specs.Prelude.{◌≡◌};
ghost use Rattle.month_refusals.specs.Asked.{at, told, Exactly, answer_found, answer_told};
ghost use Rattle.month_refusals.specs.Refusals.{month_asked};
ghost use Rattle.month_call.specs.Month.{month_call};
ghost use Rattle.month_demand3.specs.Calls.{is_done, accepts};
ghost use Rattle.kept_months.specs.Kept.{keep_if, take_asked, take_back};
ghost use Rattle.kept_demand3.specs.Acts.{after_call, after_back, is_taken, takes};
ghost use Rattle.kept_demand3.specs.Demand.{FieldDemand3};
ghost use Rattle.kept_demand3.specs.TakingBack.{TakingBack};

use kept_months::{TakeAnswer, month};
use month_call::Answer;
use month_layouts::MEMORY_WIDTH;
use month_state::{Entries, Outcome, State};

// The single month call that runs, as demand 3 speaks of it: it leaves the field that the next call
// or taking-back of a list gets, and counts as accepted exactly where it ran its month. Demand 3
// stands in this promise, so that neither it nor its tie to the call can fall out unnoticed.
#[tactic(auto, using(crate::proofs::Demand::calling))]
pub fn call(
    s: State,
    number: u64,
    e: Entries,
    memory: &mut [u64; MEMORY_WIDTH],
) -> Outcome<Answer, State>
    ensures outcome { result ≡ month_call s number e }
    ensures kept { memory.new ≡ keep_if result.answer s memory.old }
    ensures told { answer_told result.answer ≡ told (at 0 (month_asked s number e)) }
    ensures exactly { Exactly (at 0 (month_asked s number e)) (answer_found result.answer) }
    ensures field { record { state = result.state; memory = memory.new }
        ≡ after_call (record { state = s; memory = memory.old })
        (record { number = number; entries = e }) }
    ensures accepted { is_done result.answer
        ≡ accepts s (record { number = number; entries = e }) }
    ensures demand { FieldDemand3 }
{
    month(s, number, e, memory)
}

// Taking back, as demand 3's list has it.
#[tactic(auto, using(crate::proofs::TakingBack::taking_back))]
pub fn take_back(s: State, memory: &[u64; MEMORY_WIDTH]) -> Outcome<TakeAnswer, State>
    ensures outcome { result ≡ take_back s memory.now }
    ensures told { answer_told result.answer ≡ told (at 0 (take_asked s)) }
    ensures exactly { Exactly (at 0 (take_asked s)) (answer_found result.answer) }
    ensures field { record { state = result.state; memory = memory.now }
        ≡ after_back (record { state = s; memory = memory.now }) }
    ensures taken { is_taken result.answer
        ≡ takes (record { state = s; memory = memory.now }) }
    ensures back { TakingBack }
{
    kept_months::take_back(s, memory)
}
