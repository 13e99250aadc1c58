// Taking a month back, change 2026-02 of document 02: a month that keeps the state before it in
// lent memory, and the taking back of the latest one. The memory is an array of its length, numbers
// one after another as C lends them; it stays apart from the state, which is handed over by value.
#![tactic(auto)]

ghost use Rattle.std.specs.Prelude.{◌≡◌, ◌<◌};
ghost use Rattle.month_refusals.specs.Asked.{at, told, Exactly, Finds, answer_found, answer_told};
ghost use Rattle.month_refusals.specs.Refusals.{month_asked};
ghost use Rattle.month_call.specs.Month.{month_call};
ghost use Rattle.kept_months.specs.Kept.{keep, keep_if, latest, take_asked, take_back};

use month_call::Answer;
use month_layouts::{KEPT_WIDTH, MEMORY_WIDTH, kept_of, put_kept};
use month_refusals::Refusal;
use month_state::{Entries, Outcome, State};

// What taking back answers: the latest month is taken back, or why it is refused.
pub type TakeAnswer = Result<(), Refusal>;

// A state kept at the place of its months.
#[tactic(auto, using(crate::proofs::Laws::kept_in_cut))]
pub fn keep(s: State, memory: &mut [u64; MEMORY_WIDTH])
    ensures { memory.new ≡ keep s memory.old }
{
    let place = (s.months % State::KEPT_LIMIT) as usize;
    put_kept(&mut memory[KEPT_WIDTH * place..], s);
}

// The single month call, with the state before an accepted month kept.
pub fn month(
    s: State,
    number: u64,
    e: Entries,
    memory: &mut [u64; MEMORY_WIDTH],
) -> Outcome<Answer, State>
    ensures outcome { result ≡ month_call s number e }
    ensures kept { memory.new ≡ keep_if result.answer s memory.old }
    ensures told { answer_told result.answer ≡ told (at 0 (month_asked s number e)) }
    ensures exactly { Exactly (at 0 (month_asked s number e)) (answer_found result.answer) }
{
    let outcome = month_demand3::call(s, number, e);
    if outcome.answer.is_ok() {
        keep(s, memory);
    }
    outcome
}

// 20, then 10 for the kept count.
#[tactic(auto, unfolding(crate::specs::Kept::take_asked, month_refusals::specs::Asked::first_of, month_refusals::specs::Asked::at, month_refusals::specs::Asked::found))]
fn check_taking(s: State) -> Result<(), Refusal>
    ensures { Finds (take_asked s) result }
{
    match s.kept {
        0 => Err(Refusal::NoneKept),
        1..=State::KEPT_LIMIT => Ok(()),
        _ => Err(Refusal::Bounds),
    }
}

// The state before the latest month. A remainder is taken before the sum too, which then can't
// wrap.
#[tactic(auto, using(crate::proofs::Laws::latest_in_cut))]
fn latest(s: State, memory: &[u64; MEMORY_WIDTH]) -> State
    requires { 0 < s.kept }
    ensures { result ≡ latest s memory.now }
{
    let further = s.months % State::KEPT_LIMIT + (State::KEPT_LIMIT - 1);
    let place = (further % State::KEPT_LIMIT) as usize;
    kept_of(&memory[KEPT_WIDTH * place..], s.kept - 1)
}

// Takes the latest month back. Whatever the numbers of the state and of the memory are, it is taken
// back or refused, each refusal exactly where it is the first that applies.
#[tactic(auto, using(crate::proofs::Laws::taking))]
pub fn take_back(s: State, memory: &[u64; MEMORY_WIDTH]) -> Outcome<TakeAnswer, State>
    ensures outcome { result ≡ take_back s memory.now }
    ensures told { answer_told result.answer ≡ told (at 0 (take_asked s)) }
    ensures exactly { Exactly (at 0 (take_asked s)) (answer_found result.answer) }
{
    let answer = check_taking(s);
    let state = match answer {
        Ok(()) => latest(s, memory),
        Err(_) => s,
    };
    Outcome { answer, state }
}
