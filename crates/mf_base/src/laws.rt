//! Laws of days and of money texts. Each function does nothing: its contract is the law.

ghost use Rattle.std.specs.Prelude.{◌≡◌, ◌↔◌, ℕ, ◌<◌, ◌≤◌};
ghost use Rattle.mf_base.specs.Calendar.{CalendarDate, IsDate, date_of, day_of, day_after};
ghost use Rattle.mf_base.specs.declared.day.Freq.{Freq};
ghost use Rattle.mf_base.specs.DayText.{date_text, day_text, last_entered_day, last_day};
ghost use Rattle.mf_base.specs.Money.{IsMoneyText, money_limit, money_text};

/// CalendarDate and number of a day give each other back: each number is that of one date, and each date has one
/// number.
pub fn dates_and_numbers()
    ensures is_date { (day : ℕ) → IsDate (date_of day) }
    ensures number { (day : ℕ) → day_of (date_of day) ≡ day }
    ensures date { (date : CalendarDate) → IsDate date → date_of (day_of date) ≡ date }
{}

/// A day's text is that of its date, and no two days have one text. The days that may be entered are those
/// before the year 2100, and the days that have a text are those before the year 10000.
pub fn texts_of_days()
    ensures text { (date : CalendarDate) → IsDate date → day_text (day_of date) ≡ date_text date }
    ensures apart { (one other : ℕ) → day_text one ≡ day_text other → one ≡ other }
    ensures entered { (date : CalendarDate) → IsDate date → ((date.year < 2100) ↔ (day_of date ≤ last_entered_day)) }
    ensures last { (date : CalendarDate) → IsDate date → ((date.year < 10_000) ↔ (day_of date ≤ last_day)) }
{}

/// No step leads to the day itself, and more steps lead to a later day: due days ascend.
pub fn due_days_ascend()
    ensures none { (day : ℕ) (freq : Freq) → day_after day freq 0 ≡ day }
    ensures more { (day : ℕ) (freq : Freq) (fewer more : ℕ) → fewer < more → day_after day freq fewer
        < day_after day freq more }
{}

/// What `money_text` writes, `parse_money` reads: the text of an amount up to 10^12 cents stands for that amount.
pub fn money_texts_are_read()
    ensures { (cents : ℕ) → cents ≤ money_limit → IsMoneyText (money_text cents) cents }
{}
