// The layouts of soils and states as numbers in lent memory, read and written. The crate list_rows
// has those of rows. Memory is a slice and not an array, since it may go on after them. There is no
// `From`: it would have to stand in month_state, beside the types. A place stands beside a slice
// where numbers are part of a layout.
#![tactic(auto)]

ghost use Rattle.std.specs.Prelude.{◌≡◌, ◌+◌, ◌≤◌, length, take, drop};
ghost use Rattle.std.proofs.lemmas.List.Edits.{sets};
ghost use Rattle.month_layouts.specs.Layouts.{soil_width, kept_width, state_width, soil_from};
ghost use Rattle.month_layouts.specs.Layouts.{state_from, state_of, kept_numbers, state_numbers};

use month_state::{Soil, State};
use number_units::{Grams, Parts};

// How many numbers each has: a soil, a state as it is kept, the current one, which has beside it
// how many are kept, the memory of the kept ones, and a field, which is the current state and that
// memory.
pub const SOIL_WIDTH: usize = 8;

pub const KEPT_WIDTH: usize = 15;

pub const STATE_WIDTH: usize = KEPT_WIDTH + 1;

pub const MEMORY_WIDTH: usize = KEPT_WIDTH * State::KEPT_LIMIT as usize;

pub const FIELD_WIDTH: usize = STATE_WIDTH + MEMORY_WIDTH;

// The N numbers from a place on.
pub fn numbers_at<T: Copy, const N: usize>(numbers: &[T], place: usize) -> [T; N]
    requires { place + N ≤ length numbers.now }
    ensures { result ≡ take N (drop place numbers.now) }
{
    *numbers[place..].first_chunk().unwrap()
}

// N numbers, written from a place on. Everything else stays.
#[tactic(auto, using(crate::proofs::Layouts::part_written))]
pub fn put_numbers_at<T: Copy, const N: usize>(numbers: &mut [T], place: usize, values: [T; N])
    requires { place + N ≤ length numbers.old }
    ensures { numbers.new ≡ sets numbers.old place values }
{
    numbers[place..place + N].copy_from_slice(&values);
}

// The soil that memory begins with.
#[tactic(auto, using(crate::proofs::Layouts::read_there), unfolding(crate::specs::Layouts::soil_from, crate::specs::Layouts::pools_from))]
pub fn soil_of(numbers: &[u64]) -> Soil
    requires { soil_width ≤ length numbers.now }
    ensures { result ≡ soil_from numbers.now 0 }
{
    let [clay, depth, kind, dpm, rpm, bio, hum, iom]: [u64; SOIL_WIDTH] = numbers_at(numbers, 0);
    Soil {
        clay,
        depth,
        kind,
        pools: [Grams(dpm), Grams(rpm), Grams(bio), Grams(hum)],
        iom: Grams(iom),
    }
}

// The state as it is kept that memory begins with, with so many kept beside it.
#[tactic(auto, using(crate::proofs::Layouts::read_there), unfolding(crate::specs::Layouts::state_from, crate::specs::Layouts::pools_from))]
pub fn kept_of(numbers: &[u64], kept: u64) -> State
    requires { kept_width ≤ length numbers.now }
    ensures { result ≡ state_from numbers.now 0 kept }
{
    let [deficit, months, co2, dpm, rpm, bio, hum]: [u64; 7] = numbers_at(numbers, SOIL_WIDTH);
    State {
        soil: soil_of(numbers),
        deficit: Parts(deficit),
        months,
        co2: Grams(co2),
        modern: [Grams(dpm), Grams(rpm), Grams(bio), Grams(hum)],
        kept,
    }
}

// The current state that memory begins with.
#[tactic(auto, unfolding(crate::specs::Layouts::state_of))]
pub fn state_of(numbers: &[u64]) -> State
    requires { state_width ≤ length numbers.now }
    ensures { result ≡ state_of numbers.now }
{
    kept_of(numbers, numbers[KEPT_WIDTH])
}

// The numbers that are kept of a state, written at the start of memory. Everything else stays.
#[tactic(auto, unfolding(crate::specs::Layouts::kept_numbers))]
pub fn put_kept(numbers: &mut [u64], s: State)
    requires { kept_width ≤ length numbers.old }
    ensures { numbers.new ≡ sets numbers.old 0 (kept_numbers s) }
{
    let [dpm, rpm, bio, hum] = s.soil.pools;
    let [modern_dpm, modern_rpm, modern_bio, modern_hum] = s.modern;
    let values = [
        s.soil.clay,
        s.soil.depth,
        s.soil.kind,
        dpm.0,
        rpm.0,
        bio.0,
        hum.0,
        s.soil.iom.0,
        s.deficit.0,
        s.months,
        s.co2.0,
        modern_dpm.0,
        modern_rpm.0,
        modern_bio.0,
        modern_hum.0,
    ];
    put_numbers_at(numbers, 0, values);
}

// The numbers of the current state, written at the start of memory. Everything else stays.
#[tactic(auto, unfolding(crate::specs::Layouts::state_numbers, crate::specs::Layouts::kept_numbers))]
pub fn put_state(numbers: &mut [u64], s: State)
    requires { state_width ≤ length numbers.old }
    ensures { numbers.new ≡ sets numbers.old 0 (state_numbers s) }
{
    put_kept(numbers, s);
    numbers[KEPT_WIDTH] = s.kept;
}
