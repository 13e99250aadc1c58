// The functions of include/rothc.h, for Rust and for the tests: each is its body's, in a crate
// beside this one, where its wrong programs are tried, and its answer is turned into C's number
// here. library_calls_c has them for C and Python. Pools and what is returned are numbers, since an
// enum has no form in C.
#![tactic(auto)]

ghost use Rattle.std.specs.Prelude.{true, ◌≡◌, ◌≤◌};
ghost use Rattle.library_survival.specs.Calls.{has_survival, rothc_survival, rothc_survival_terms};
ghost use Rattle.library_month.specs.Calls.{rothc_start, rothc_month};
ghost use Rattle.library_back.specs.Calls.{rothc_take_back};
ghost use Rattle.library_list.specs.Calls.{rothc_list, rothc_spin_up};
ghost use Rattle.library_radiocarbon.specs.Calls.{rothc_radiocarbon, rothc_age_survival};
ghost use Rattle.library_book.specs.Calls.{rothc_book};
ghost use Rattle.library_table.specs.Calls.{rothc_table};

use library_month::call_number;

pub fn rothc_survival(n: u64, pool: u64) -> u64
    ensures { result ≡ rothc_survival n pool }
{
    library_survival::survival(n, pool)
}

pub fn rothc_survival_terms(n: u64, pool: u64, terms: &mut u64) -> u64
    ensures left { record { survival = result; terms = terms.new }
        ≡ rothc_survival_terms n pool terms.old }
    ensures few { has_survival n pool ≡ true → terms.new ≤ 40 }
{
    library_survival::survival_terms(n, pool, terms)
}

pub fn rothc_start(soil: &[u64], state: &mut [u64]) -> u64
    ensures { record { number = result; state = state.new }
        ≡ rothc_start soil.now state.old }
{
    call_number(library_month::start(soil, state))
}

pub fn rothc_month(state: &mut [u64], number: u64, entries: &[i64], row: &mut [u64]) -> u64
    ensures { record { number = result; state = state.new; row = row.new }
        ≡ rothc_month state.old number entries.now row.old }
{
    call_number(library_month::month(state, number, entries, row))
}

pub fn rothc_take_back(state: &mut [u64]) -> u64
    ensures { record { number = result; state = state.new }
        ≡ rothc_take_back state.old }
{
    call_number(library_back::take_back(state))
}

pub fn rothc_list(
    state: &mut [u64],
    weather: &[i64],
    land: &[i64],
    rows: &mut [u64],
    place: &mut u64,
) -> u64
    ensures { record {
      number = result;
      state = state.new;
      rows = rows.new;
      place = place.new;
    }
        ≡ rothc_list state.old weather.now land.now
        rows.old place.old }
{
    call_number(library_list::list(state, weather, land, rows, place))
}

pub fn rothc_spin_up(
    state: &mut [u64],
    weather: &[i64],
    land: &[i64],
    years: u64,
    res: &mut [u64],
) -> u64
    ensures { record { number = result; state = state.new; result = res.new }
        ≡ rothc_spin_up state.old weather.now land.now years
        res.old }
{
    call_number(library_list::spin_up(state, weather, land, years, res))
}

pub fn rothc_radiocarbon(state: &[u64], pool: u64, report: &mut [i64]) -> u64
    ensures { record { number = result; report = report.new }
        ≡ rothc_radiocarbon state.now pool report.old }
{
    call_number(library_radiocarbon::radiocarbon(state, pool, report))
}

pub fn rothc_age_survival(years: u64) -> u64
    ensures { result ≡ rothc_age_survival years }
{
    library_radiocarbon::age_number(years)
}

pub fn rothc_book(book: &[u8], out: &mut [u8], length: &mut u64) -> u64
    ensures { record { number = result; out = out.new; size = length.new }
        ≡ rothc_book book.now out.old }
{
    call_number(library_book::book(book, out, length))
}

pub fn rothc_table(table: &[u8], weather: &mut [i64], rows: &mut u64, place: &mut u64) -> u64
    ensures { record {
      number = result;
      weather = weather.new;
      rows = rows.new;
      place = place.new;
    }
        ≡ rothc_table table.now weather.old }
{
    call_number(library_table::table(table, weather, rows, place))
}
