//! How long a loan is overdue, and the class that it falls into by that.

ghost use Rattle.std.specs.Prelude.{◌≡◌, pos};
ghost use Rattle.mf_arrears.specs.Ageing.{days_overdue, days_since, earliest_due};
ghost use Rattle.mf_arrears.specs.Ageing.{earlier};
ghost use Rattle.mf_arrears.specs.Line.{class_of};

use crate::line::Class;
use mf_alloc::Instalment;
use mf_base::Day;

/// The earlier of a day, where there is one, and another.
pub fn earlier(day: Option<Day>, other: Day) -> Option<Day>
    ensures { result ≡ earlier day other }
{
    match day {
        Some(day) if day <= other => Some(day),
        _ => Some(other),
    }
}

/// The earliest due day of an instalment with something outstanding.
fn earliest_due(rows: &[Instalment]) -> Option<Day>
    ensures { result ≡ earliest_due rows.now }
{
    rows.iter()
        .filter(|row| row.is_open())
        .map(|row| row.due)
        .fold(None, |day: Option<Day>, due| earlier(day, due))
}

/// How many days after its earliest open due day a loan is on a day, and 0 where that day is not past or there is none.
pub fn days_past(due: Option<Day>, day: Day) -> i64
    ensures { result ≡ pos (days_since day due) }
{
    match due {
        Some(due) if due <= day => day.days_since(due),
        _ => 0,
    }
}

/// How many days a loan is overdue on a day: the days since the earliest due day of an instalment with something
/// outstanding, and 0 where that day is not past or there is none.
pub fn arrears(rows: &[Instalment], day: Day) -> i64
    ensures { result ≡ pos (days_overdue rows.now day) }
{
    days_past(earliest_due(rows), day)
}

/// The class of a number of days overdue. A negative number is not overdue.
pub fn class(days: i64) -> Class
    ensures { result ≡ class_of days }
{
    if days <= 0 {
        Class::C0
    } else if days <= 30 {
        Class::C1To30
    } else if days <= 60 {
        Class::C31To60
    } else if days <= 90 {
        Class::C61To90
    } else {
        Class::Over90
    }
}
