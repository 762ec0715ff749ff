// Dates and periods, for C.
#![tactic(auto)]

ghost use Rattle.std.specs.Prelude.{◌≡◌};
ghost use Rattle.calendar_rules.specs.Answers.{period_answer, date_answer};
ghost use Rattle.calendar.specs.Meaning.{period_answer_of, date_answer_of};

use calendar::{Date, Period, date_of, period_of};

#[unsafe(no_mangle)]
pub extern "C" fn bilzhaan_period_of(year: i32, month: i32, day: i32, period: i32) -> Period
    ensures { period_answer_of result ≡ period_answer year month day period }
{
    Period::from(period_of(year, month, day, period))
}

#[unsafe(no_mangle)]
pub extern "C" fn bilzhaan_date_of(period: i32) -> Date
    ensures { date_answer_of result ≡ date_answer period }
{
    Date::from(date_of(period))
}
