// The functions of include/rothc.h, for C and Python: each is the function of its name in
// library_calls, with the same promise. An export can only be of its own crate, and a crate that
// other crates use is no library for C. Pools and what is returned are numbers, as there.
#![tactic(auto)]

ghost use Rattle.std.specs.Prelude.{true, ◌≡◌, ◌≤◌};
ghost use Rattle.library_survival.specs.Calls.{has_survival, rothc_survival, rothc_survival_terms};
ghost use Rattle.library_month.specs.Calls.{rothc_start, rothc_month};
ghost use Rattle.library_back.specs.Calls.{rothc_take_back};
ghost use Rattle.library_list.specs.Calls.{rothc_list, rothc_spin_up};
ghost use Rattle.library_radiocarbon.specs.Calls.{rothc_radiocarbon, rothc_age_survival};
ghost use Rattle.library_book.specs.Calls.{rothc_book};
ghost use Rattle.library_table.specs.Calls.{rothc_table};

#[unsafe(no_mangle)]
pub extern "C" fn rothc_survival(n: u64, pool: u64) -> u64
    ensures { result ≡ rothc_survival n pool }
{
    library_calls::rothc_survival(n, pool)
}

#[unsafe(no_mangle)]
pub extern "C" fn rothc_survival_terms(n: u64, pool: u64, terms: &mut u64) -> u64
    ensures left { record { survival = result; terms = terms.new }
        ≡ rothc_survival_terms n pool terms.old }
    ensures few { has_survival n pool ≡ true → terms.new ≤ 40 }
{
    library_calls::rothc_survival_terms(n, pool, terms)
}

#[unsafe(no_mangle)]
pub extern "C" fn rothc_start(soil: &[u64], state: &mut [u64]) -> u64
    ensures { record { number = result; state = state.new }
        ≡ rothc_start soil.now state.old }
{
    library_calls::rothc_start(soil, state)
}

#[unsafe(no_mangle)]
pub extern "C" fn rothc_month(
    state: &mut [u64],
    number: u64,
    entries: &[i64],
    row: &mut [u64],
) -> u64
    ensures { record { number = result; state = state.new; row = row.new }
        ≡ rothc_month state.old number entries.now row.old }
{
    library_calls::rothc_month(state, number, entries, row)
}

#[unsafe(no_mangle)]
pub extern "C" fn rothc_take_back(state: &mut [u64]) -> u64
    ensures { record { number = result; state = state.new }
        ≡ rothc_take_back state.old }
{
    library_calls::rothc_take_back(state)
}

#[unsafe(no_mangle)]
pub extern "C" fn rothc_list(
    state: &mut [u64],
    weather: &[i64],
    land: &[i64],
    rows: &mut [u64],
    place: &mut u64,
) -> u64
    ensures { record {
      number = result;
      state = state.new;
      rows = rows.new;
      place = place.new;
    }
        ≡ rothc_list state.old weather.now land.now
        rows.old place.old }
{
    library_calls::rothc_list(state, weather, land, rows, place)
}

#[unsafe(no_mangle)]
pub extern "C" fn rothc_spin_up(
    state: &mut [u64],
    weather: &[i64],
    land: &[i64],
    years: u64,
    res: &mut [u64],
) -> u64
    ensures { record { number = result; state = state.new; result = res.new }
        ≡ rothc_spin_up state.old weather.now land.now years
        res.old }
{
    library_calls::rothc_spin_up(state, weather, land, years, res)
}

#[unsafe(no_mangle)]
pub extern "C" fn rothc_radiocarbon(state: &[u64], pool: u64, report: &mut [i64]) -> u64
    ensures { record { number = result; report = report.new }
        ≡ rothc_radiocarbon state.now pool report.old }
{
    library_calls::rothc_radiocarbon(state, pool, report)
}

#[unsafe(no_mangle)]
pub extern "C" fn rothc_age_survival(years: u64) -> u64
    ensures { result ≡ rothc_age_survival years }
{
    library_calls::rothc_age_survival(years)
}

#[unsafe(no_mangle)]
pub extern "C" fn rothc_book(book: &[u8], out: &mut [u8], length: &mut u64) -> u64
    ensures { record { number = result; out = out.new; size = length.new }
        ≡ rothc_book book.now out.old }
{
    library_calls::rothc_book(book, out, length)
}

#[unsafe(no_mangle)]
pub extern "C" fn rothc_table(
    table: &[u8],
    weather: &mut [i64],
    rows: &mut u64,
    place: &mut u64,
) -> u64
    ensures { record {
      number = result;
      weather = weather.new;
      rows = rows.new;
      place = place.new;
    }
        ≡ rothc_table table.now weather.old }
{
    library_calls::rothc_table(table, weather, rows, place)
}
