// Lists of single month calls, the exact recurrence of document 01, and demand 3: definitions and
// their theorem, and the single month call with demand 3 in its promise.
#![tactic(auto)]

ghost use Rattle.std.specs.Prelude.{◌≡◌};
ghost use Rattle.month_refusals.specs.Asked.{at, told, answer_found, answer_told, Exactly};
ghost use Rattle.month_refusals.specs.Refusals.{month_asked};
ghost use Rattle.month_call.specs.Month.{month_call};
ghost use Rattle.month_demand3.specs.Calls.{state_after, is_done, accepts};
ghost use Rattle.month_demand3.specs.Demand.{Demand3};

use month_call::{Answer, month};
use month_state::{Entries, Outcome, State};

// The single month call, as demand 3 speaks of it: its state is the one that the next call of a
// list gets, and it counts as accepted exactly where it ran its month. Demand 3 stands in this
// promise, so that neither it nor its tie to the call can fall out unnoticed; and so does the law
// of its refusals, each given exactly where it is the first that applies.
pub fn call(s: State, number: u64, e: Entries) -> Outcome<Answer, State>
    ensures outcome { result ≡ month_call s number e }
    ensures told { answer_told result.answer ≡ told (at 0 (month_asked s number e)) }
    ensures exactly { Exactly (at 0 (month_asked s number e)) (answer_found result.answer) }
    ensures state { result.state ≡ state_after s (record { number = number; entries = e }) }
    ensures accepted { is_done result.answer
        ≡ accepts s (record { number = number; entries = e }) }
    ensures demand { Demand3 }
{
    month(s, number, e)
}
