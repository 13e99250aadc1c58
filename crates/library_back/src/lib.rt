// The body of rothc_take_back, on a field's numbers in lent memory.
#![tactic(auto)]

ghost use Rattle.std.specs.Prelude.{◌≡◌};
ghost use Rattle.library_month.specs.Calls.{call_number};
ghost use Rattle.library_back.specs.Calls.{rothc_take_back};

use library_month::{CallAnswer, CallRefusal};
use month_layouts::{MEMORY_WIDTH, STATE_WIDTH, put_state, state_of};

// The latest month taken back.
#[tactic(auto, using(library_month::proofs::Laws::first_read, library_month::proofs::Laws::first_put), unfolding(crate::specs::Calls::rothc_take_back))]
pub fn take_back(state: &mut [u64]) -> CallAnswer
    ensures { record { number = call_number result; state = state.new }
        ≡ rothc_take_back state.old }
{
    // A field's two parts. Why no function gives them is said in library_month.
    let Some((current, rest)) = state.split_first_chunk_mut::<STATE_WIDTH>() else {
        return Err(CallRefusal::Shape);
    };
    let Some(memory) = rest.as_mut_array::<MEMORY_WIDTH>() else {
        return Err(CallRefusal::Shape);
    };
    let given = state_of(current);
    let outcome = kept_demand3::take_back(given, memory);
    outcome.answer?;
    put_state(current, outcome.state);
    Ok(())
}
