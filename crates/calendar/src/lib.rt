// Dates and periods, for C: year, month, day and period to P, and P to these. No loop, no table and no book.
// Narrowing stays `as`, proved to lose nothing: a `try_from` would be tested as it runs.
#![tactic(auto)]

ghost use Rattle.std.specs.Prelude.{◌≡◌, ◌+◌, ◌-◌, ◌≤◌, ◌<◌};
ghost use Rattle.offer_rules.specs.Numbers.{to_nat, between};
ghost use Rattle.offer_rules.specs.Time.{periods_a_day};
ghost use Rattle.calendar_rules.specs.Calendar.{first_year, last_year, last_day, last_period, is_leap, year_days, month_days, days_before, days_of_years, date_exists, day_number, period_of_day, weekday_of, years_before, into_year, month_at};
ghost use Rattle.calendar_rules.specs.Answers.{period_answer, date_answer};
ghost use Rattle.calendar.specs.Meaning.{OrDate, period_outcome, period_answer_of, date_outcome, date_answer_of};
ghost use Rattle.calendar.specs.Evened.{evenly, evened};

use layout::{Refusal, refuse_if, time};
use units::{is_beyond, nat};

// ---- years and months in days

// A year of "2024 to 2099", as the count of these before it.
#[derive(Clone, Copy, Debug, PartialEq, Eq)]
struct Year {
    before: u64,
    ghost to_2099: { before ≤ 75 },
}

impl Year {
    // Each fourth of 2024 to 2099 is a leap year, the first too: no multiple of 100 is among them.
    #[tactic(auto, using(crate::proofs::Years::leap_by_fours))]
    fn is_leap(self) -> bool
        ensures { result ≡ is_leap (first_year + self.before) }
    {
        self.before.is_multiple_of(4)
    }

    // The days of the years before it, four of which have 1,461.
    #[tactic(auto, using(crate::proofs::Years::years_by_fours))]
    fn days_before(self) -> u64
        ensures { (result ≡ days_of_years self.before) × (result ≤ last_day) }
    {
        (1461 * self.before + 3) / 4
    }
}

// The days before a month, were February one of 30 days; before the year's end as month 13.
fn evenly(month: u64) -> u64
    requires { (1 ≤ month) × (month ≤ 13) }
    ensures { result ≡ evenly month }
{
    (367 * month - 362) / 12
}

// A month, January as 1, of a year that is a leap year or not: a flag, as there are two kinds of year in the rule.
#[derive(Clone, Copy, Debug, PartialEq, Eq)]
struct Month {
    leap: bool,
    number: u64,
    ghost of_twelve: { (1 ≤ number) × (number ≤ 12) },
}

impl Month {
    // But for February, months of 31 and 30 days in turn, and again from August on.
    #[tactic(auto, using(crate::proofs::Months::days_in_turns))]
    fn days(self) -> u64
        ensures { (result ≡ month_days self.leap self.number) × (result ≤ 31) }
    {
        if self.number == 2 {
            return 28 + u64::from(self.leap);
        }
        30 + (self.number + self.number / 8) % 2
    }

    // After February it is two days less than evenly, in a leap year one.
    #[tactic(auto, using(crate::proofs::Months::days_before_it))]
    fn days_before(self) -> u64
        ensures { (result ≡ days_before self.leap self.number) × (result ≤ 366) }
    {
        let days = evenly(self.number);
        if self.number < 3 {
            return days;
        }
        days + u64::from(self.leap) - 2
    }
}

// A day by its number: "Day 0 is 1 January 2024", and the last is 31 December 2099.
#[derive(Clone, Copy, Debug, PartialEq, Eq)]
struct Day {
    number: u64,
    ghost to_last: { number ≤ last_day },
}

impl Day {
    // "the day number mod 7, 0 for Monday". 37,450 is 262,144 / 7 and a little more: up to the last day the quotient is the same, and takes no division.
    fn weekday(self) -> u64
        ensures { (result ≡ weekday_of self.number) × (result ≤ 6) }
    {
        self.number - 7 * (self.number * 37450 / 262144)
    }
}

// ---- a date and period to P

// A word from lo to hi, as a count. It is held against words: held against counts, it made a date a thirtieth slower.
#[tactic(auto, using(offer_rules::proofs::Drawn::draw_zero, crate::proofs::Refused::one_refused))]
fn counted(lo: u64, hi: u64, word: i32) -> Result<u64, Refusal>
    requires { (1 ≤ lo) × (lo ≤ hi) × (hi < 2147483648) }
    ensures { OrDate (between lo hi (to_nat word)) (λ n. (n ≡ to_nat word) × (lo ≤ n) × (n ≤ hi)) result }
{
    refuse_if(is_beyond(lo as i32, hi as i32, word), Refusal::Date)?;
    Ok(nat(word))
}

impl TryFrom<i32> for Year {
    type Error = Refusal;

    ghost try_from_gives = { λ year r. OrDate (between first_year last_year (to_nat year)) (λ y. first_year + y.before ≡ to_nat year) r };

    fn try_from(year: i32) -> Result<Year, Refusal> {
        let year = counted(time::FIRST_YEAR, time::LAST_YEAR, year)?;
        Ok(Year {
            before: year - time::FIRST_YEAR,
        })
    }
}

impl Year {
    fn month(self, month: i32) -> Result<Month, Refusal>
        ensures { OrDate (between 1 12 (to_nat month)) (λ m. (m.leap ≡ is_leap (first_year + self.before)) × (m.number ≡ to_nat month)) result }
    {
        let number = counted(1, 12, month)?;
        Ok(Month {
            leap: self.is_leap(),
            number,
        })
    }
}

impl Month {
    // No month has fewer than 28 days. Asked first: without it a date took a sixth longer or more.
    #[tactic(auto, using(calendar_rules::proofs::Lengths::at_least_28))]
    fn day(self, day: i32) -> Result<u64, Refusal>
        ensures { OrDate (between 1 (month_days self.leap self.number) (to_nat day)) (λ d. (d ≡ to_nat day) × (1 ≤ d)) result }
    {
        if day <= 28 {
            return counted(1, 28, day);
        }
        counted(1, self.days(), day)
    }
}

impl Day {
    // 21 where "the date doesn't exist, the year is outside 2024–2099"
    #[tactic(auto, unfolding(calendar_rules::specs::Calendar::date_exists, calendar_rules::specs::Calendar::day_number), using(calendar_rules::proofs::RoundTrips::day_in_calendar))]
    fn of(year: i32, month: i32, day: i32) -> Result<Day, Refusal>
        ensures { OrDate (date_exists (to_nat year) (to_nat month) (to_nat day)) (λ d. d.number ≡ day_number (to_nat year) (to_nat month) (to_nat day)) result }
    {
        let year = Year::try_from(year)?;
        let month = year.month(month)?;
        let day = month.day(day)?;
        Ok(Day {
            number: year.days_before() + month.days_before() + (day - 1),
        })
    }

    // "48 times the day number plus the period less 1"
    fn period(self, period: u64) -> u64
        requires { (1 ≤ period) × (period ≤ periods_a_day) }
        ensures { (result ≡ period_of_day self.number period) × (result ≤ last_period) }
    {
        time::DAY_PERIODS * self.number + (period - 1)
    }
}

// P and its weekday.
#[derive(Clone, Copy, Debug, PartialEq, Eq)]
pub struct DatedPeriod {
    pub period: i32,
    pub weekday: i32,
}

#[tactic(auto, unfolding(calendar_rules::specs::Answers::period_answer, calendar_rules::specs::Answers::period_for, calendar_rules::specs::Answers::is_date_and_period, calendar_rules::specs::Answers::period_found, calendar_rules::specs::Calendar::period_of_date))]
pub fn period_of(year: i32, month: i32, day: i32, period: i32) -> Result<DatedPeriod, Refusal>
    ensures { period_outcome result ≡ period_answer year month day period }
{
    let day = Day::of(year, month, day)?;
    let period = counted(1, time::DAY_PERIODS, period)?;
    Ok(DatedPeriod {
        period: day.period(period) as i32,
        weekday: day.weekday() as i32,
    })
}

// As C gets it: 0 and what is found, or 21 and zeros.
#[repr(C)]
#[derive(Clone, Copy, Debug, PartialEq, Eq, Default)]
pub struct Period {
    pub number: u32,
    pub period: i32,
    pub weekday: i32,
}

impl From<Result<DatedPeriod, Refusal>> for Period {
    ghost from_gives = { λ outcome answer. period_answer_of answer ≡ period_outcome outcome };

    fn from(outcome: Result<DatedPeriod, Refusal>) -> Period {
        match outcome {
            Ok(found) => Period {
                number: 0,
                period: found.period,
                weekday: found.weekday,
            },
            Err(refusal) => Period {
                number: u32::from(refusal),
                ..Period::default()
            },
        }
    }
}

// ---- P to a date and period

// A day as one of its year, by the days of the year before it; a flag as in Month.
#[derive(Clone, Copy, Debug, PartialEq, Eq)]
struct DayOfYear {
    leap: bool,
    before: u64,
    ghost in_year: { before < year_days leap },
}

impl Day {
    // Four years have 1,461 days.
    #[tactic(auto, using(crate::proofs::Years::year_by_fours))]
    fn year(self) -> Year
        ensures { result.before ≡ years_before self.number }
    {
        Year {
            before: 4 * self.number / 1461,
        }
    }

    #[tactic(auto, using(crate::proofs::Years::left_by_fours, crate::proofs::Years::left_in_year))]
    fn in_year(self) -> DayOfYear
        ensures { (result.leap ≡ is_leap (first_year + years_before self.number)) × (result.before ≡ into_year self.number) }
    {
        DayOfYear {
            leap: self.year().is_leap(),
            before: 4 * self.number % 1461 / 4,
        }
    }
}

impl DayOfYear {
    // As it would be with a February of 30 days.
    fn evened(self) -> u64
        ensures { (result ≡ evened self.leap self.before) × (result ≤ 367) }
    {
        let more = u64::from(self.leap);
        if self.before < 59 + more {
            return self.before;
        }
        self.before + 2 - more
    }

    // The month and the day of it, two numbers, as a Month would say once more which year it is of: with a February of 30 days it falls among twelve months that share 367 days evenly.
    #[tactic(auto, using(crate::proofs::Months::month_falls, crate::proofs::Months::day_falls))]
    fn month_and_day(self) -> (u64, u64)
        ensures month { (result.0 ≡ month_at self.leap self.before) × (result.0 ≤ 12) }
        ensures day { (result.1 ≡ self.before - days_before self.leap (month_at self.leap self.before) + 1) × (result.1 ≤ 31) }
    {
        let s = self.evened();
        let month = (12 * s + 373) / 367;
        (month, s - evenly(month) + 1)
    }
}

// A date and period, and their weekday.
#[derive(Clone, Copy, Debug, PartialEq, Eq)]
pub struct DatedDay {
    pub year: i32,
    pub month: i32,
    pub day: i32,
    pub period: i32,
    pub weekday: i32,
}

#[tactic(auto, unfolding(calendar_rules::specs::Answers::date_answer, calendar_rules::specs::Answers::date_found, calendar_rules::specs::Calendar::date_of_day))]
pub fn date_of(period: i32) -> Result<DatedDay, Refusal>
    ensures { date_outcome result ≡ date_answer period }
{
    // No `refuse_if(..)?`: with it a date that is found takes a jump more.
    if is_beyond(0, time::LAST_DATED_PERIOD, period) {
        return Err(Refusal::Date);
    }
    let p = nat(period);
    let day = Day {
        number: p / time::DAY_PERIODS,
    };
    let (month, day_of_month) = day.in_year().month_and_day();
    Ok(DatedDay {
        year: (time::FIRST_YEAR + day.year().before) as i32,
        month: month as i32,
        day: day_of_month as i32,
        period: (p % time::DAY_PERIODS + 1) as i32, // "periods 1 to 48"
        weekday: day.weekday() as i32,
    })
}

// As C gets it: 0 and what is found, or 21 and zeros.
#[repr(C)]
#[derive(Clone, Copy, Debug, PartialEq, Eq, Default)]
pub struct Date {
    pub number: u32,
    pub year: i32,
    pub month: i32,
    pub day: i32,
    pub period: i32,
    pub weekday: i32,
}

impl From<Result<DatedDay, Refusal>> for Date {
    ghost from_gives = { λ outcome answer. date_answer_of answer ≡ date_outcome outcome };

    fn from(outcome: Result<DatedDay, Refusal>) -> Date {
        match outcome {
            Ok(found) => Date {
                number: 0,
                year: found.year,
                month: found.month,
                day: found.day,
                period: found.period,
                weekday: found.weekday,
            },
            Err(refusal) => Date {
                number: u32::from(refusal),
                ..Date::default()
            },
        }
    }
}
