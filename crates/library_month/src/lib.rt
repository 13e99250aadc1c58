// The bodies of rothc_start and rothc_month, on slices of numbers in lent memory, and the answer of
// all calls, with the number that C gets for it.
#![tactic(auto)]

ghost use Rattle.std.specs.Prelude.{◌≡◌};
ghost use Rattle.library_month.specs.declared.CallRefusal.TheVariants.{Refused};
ghost use Rattle.library_month.specs.Calls.{call_number, rothc_start, rothc_month};

use kept_demand3::call;
use list_rows::{ENTRIES_WIDTH, ROW_WIDTH, entries_of, put_row};
use month_layouts::{
    FIELD_WIDTH, MEMORY_WIDTH, SOIL_WIDTH, STATE_WIDTH, put_state, soil_of, state_of,
};
use month_refusals::{Refusal, RefusedAt, check_soil};
use month_state::State;

// Why a call is refused: lent memory of a fixed layout has another length, or a number stands for
// nothing that is asked for; or the papers refuse it.
#[derive(Clone, Copy, PartialEq, Eq)]
pub enum CallRefusal {
    Shape,
    Refused(Refusal),
}

impl From<Refusal> for CallRefusal {
    ghost from_gives = { λ refusal r. r ≡ Refused refusal };

    fn from(refusal: Refusal) -> Self {
        Self::Refused(refusal)
    }
}

// The refusal alone: C gets its place apart, where it gets one.
impl From<RefusedAt> for CallRefusal {
    ghost from_gives = { λ e r. r ≡ Refused e.refusal };

    fn from(e: RefusedAt) -> Self {
        Self::Refused(e.refusal)
    }
}

// The answer of a call. What it gives stands in lent memory.
pub type CallAnswer = Result<(), CallRefusal>;

// What C gets for memory of another length. It is none of the papers' numbers.
pub const SHAPE: u64 = 100;

// What C gets for an answer, since it takes a number and no `Result`.
pub fn call_number(answer: CallAnswer) -> u64
    ensures { result ≡ call_number answer }
{
    match answer {
        Ok(()) => 0,
        Err(CallRefusal::Shape) => SHAPE,
        Err(CallRefusal::Refused(refusal)) => refusal.number(),
    }
}

// The new state of a soil that none of 4 to 7 refuses.
#[tactic(auto, using(month_layouts::proofs::Layouts::field_put), unfolding(crate::specs::Calls::rothc_start))]
pub fn start(soil: &[u64], state: &mut [u64]) -> CallAnswer
    ensures { record { number = call_number result; state = state.new }
        ≡ rothc_start soil.now state.old }
{
    if soil.len() != SOIL_WIDTH || state.len() != FIELD_WIDTH {
        return Err(CallRefusal::Shape);
    }
    let given = soil_of(soil);
    check_soil(given)?;
    put_state(state, State::new(given));
    Ok(())
}

// The single month call, the one that has demand 3 in its promise. The state before an accepted
// month is kept in the memory after the current one.
#[tactic(auto, using(crate::proofs::Laws::first_read, crate::proofs::Laws::first_put, list_rows::proofs::Layouts::row_stored), unfolding(crate::specs::Calls::rothc_month))]
pub fn month(state: &mut [u64], number: u64, entries: &[i64], row: &mut [u64]) -> CallAnswer
    ensures { record { number = call_number result; state = state.new; row = row.new }
        ≡ rothc_month state.old number entries.now row.old }
{
    if entries.len() != ENTRIES_WIDTH || row.len() != ROW_WIDTH {
        return Err(CallRefusal::Shape);
    }
    // A field is the current state's numbers and the memory, and nothing after them. Each call
    // takes it apart itself, as do those of library_back and library_list. A `field_parts` that
    // gives both parts as two `&mut` in an Option was tried: the goal of every exit was false,
    // since the memory is reached in two steps.
    let Some((current, rest)) = state.split_first_chunk_mut::<STATE_WIDTH>() else {
        return Err(CallRefusal::Shape);
    };
    let Some(memory) = rest.as_mut_array::<MEMORY_WIDTH>() else {
        return Err(CallRefusal::Shape);
    };
    let given = state_of(current);
    let outcome = call(given, number, entries_of(entries), memory);
    let done = outcome.answer?;
    put_state(current, outcome.state);
    put_row(row, 0, done);
    Ok(())
}
