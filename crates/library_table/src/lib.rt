// The body of rothc_table: a weather office's table in, weather rows out.
#![tactic(auto)]

ghost use Rattle.std.specs.Prelude.{◌≡◌};
ghost use Rattle.library_month.specs.Calls.{call_number};
ghost use Rattle.library_table.specs.Calls.{rothc_table};

use library_month::CallAnswer;
use month_refusals::placed_told;

// A table's rows at the start of the weather, how many, and the place of a refusal. C takes these
// two through pointers.
#[tactic(auto, using(crate::proofs::Laws::rows_are), unfolding(crate::specs::Calls::rothc_table))]
pub fn table(table: &[u8], weather: &mut [i64], rows: &mut u64, place: &mut u64) -> CallAnswer
    ensures { record {
      number = call_number result;
      weather = weather.new;
      rows = rows.new;
      place = place.new;
    }
        ≡ rothc_table table.now weather.old }
{
    let answer = table_import::table(table, weather);
    *rows = answer.unwrap_or(0);
    *place = placed_told(answer).place;
    answer?;
    Ok(())
}
