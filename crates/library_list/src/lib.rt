// The bodies of rothc_list and rothc_spin_up, on slices of numbers in lent memory.
#![tactic(auto)]

ghost use Rattle.std.specs.Prelude.{◌≡◌};
ghost use Rattle.library_month.specs.Calls.{call_number};
ghost use Rattle.library_list.specs.Calls.{rothc_list, spin_result, rothc_spin_up};

use library_month::{CallAnswer, CallRefusal};
use list_run::run;
use month_layouts::{FIELD_WIDTH, MEMORY_WIDTH, STATE_WIDTH, put_state, state_of};
use month_refusals::placed_told;
use spin_up::{SpinAnswer, Years};

// How many numbers a result has.
const RESULT_WIDTH: usize = 2;

// A list of months. The states before them are kept in the memory after the current one. C takes
// the place of a refusal through a pointer.
#[tactic(auto, using(library_month::proofs::Laws::first_read, library_month::proofs::Laws::first_put), unfolding(crate::specs::Calls::rothc_list))]
pub fn list(
    state: &mut [u64],
    weather: &[i64],
    land: &[i64],
    rows: &mut [u64],
    place: &mut u64,
) -> CallAnswer
    ensures { record {
      number = call_number result;
      state = state.new;
      rows = rows.new;
      place = place.new;
    }
        ≡ rothc_list state.old weather.now land.now rows.old place.old }
{
    // A field's two parts. Why no function gives them is said in library_month.
    let Some((current, rest)) = state.split_first_chunk_mut::<STATE_WIDTH>() else {
        return Err(CallRefusal::Shape);
    };
    let Some(memory) = rest.as_mut_array::<MEMORY_WIDTH>() else {
        return Err(CallRefusal::Shape);
    };
    let outcome = run(state_of(current), weather, land, rows, memory);
    put_state(current, outcome.state);
    *place = placed_told(outcome.answer).place;
    outcome.answer?;
    Ok(())
}

// Whether a spin-up is settled, and its years or its place, as C takes them: an array of two
// numbers.
fn spin_result(answer: SpinAnswer) -> [u64; RESULT_WIDTH]
    ensures { result ≡ spin_result answer }
{
    match answer {
        Ok(Years::Settled(years)) => [1, years],
        Ok(Years::Unsettled(years)) => [0, years],
        Err(e) => [0, e.place],
    }
}

// A spin-up of at most so many years. It ends with none kept unless it is refused, and leaves the
// memory of the kept ones as it was.
#[tactic(auto, using(month_layouts::proofs::Layouts::field_put), unfolding(crate::specs::Calls::rothc_spin_up))]
pub fn spin_up(
    state: &mut [u64],
    weather: &[i64],
    land: &[i64],
    years: u64,
    res: &mut [u64],
) -> CallAnswer
    ensures { record { number = call_number result; state = state.new; result = res.new }
        ≡ rothc_spin_up state.old weather.now land.now years res.old }
{
    if state.len() != FIELD_WIDTH || res.len() != RESULT_WIDTH {
        return Err(CallRefusal::Shape);
    }
    let outcome = spin_up::spin_up(state_of(state), weather, land, years);
    put_state(state, outcome.state);
    res.copy_from_slice(&spin_result(outcome.answer));
    outcome.answer?;
    Ok(())
}
