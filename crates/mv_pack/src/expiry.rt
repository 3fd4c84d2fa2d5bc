//! Expiry dates.

ghost use Rattle.std.specs.Prelude.{◌≡◌, ◌+◌, ◌*◌, ◌-◌, ◌++◌, ◌<◌, ◌≤◌, ◌/◌, ◌↔◌, length, IsOk, IsTrue, pos, ◌≤ℤ◌};
ghost use Rattle.std.specs.List.{list_all};
ghost use Rattle.mv_pack.specs.Gtin.{is_digit};
ghost use Rattle.mv_pack.specs.Expiry.{read_expiry, dated, day_of, is_expired_at, two_digits_at, two_digits, expiry_text, IsDayOrZero, IsExpiryText};

use crate::gtin::are_digits;
use crate::{Moment, PackFault};
use arrayvec::ArrayString;
use jiff::civil::{Date, date};
use std::marker::Model;

/// The seconds of a day.
const SECONDS_OF_DAY: u64 = 86_400;

/// The last day on which a pack may be supplied (Delegated Regulation (EU) 2016/161, Article 4(b)(v)).
#[derive(Clone, Copy, PartialEq, Eq, PartialOrd, Ord, Hash)]
pub struct Expiry {
    /// 2000 to 2099.
    year: u16,
    /// 1 to 12.
    month: u8,
    /// 1 to the last of the month.
    day: u8,
}

impl Model for Expiry {
    ghost use Rattle.mv_pack.specs.Expiry.{CivilDate, IsExpiry};

    ghost Value = { CivilDate };

    ghost view = { λ e. record { year = e.year; month = e.month; day = e.day } };

    ghost invariant = { λ e. IsExpiry (record { year = e.year; month = e.month; day = e.day }) };

    ghost inverse = { λ d. record { year = d.year; month = d.month; day = d.day } };
}

impl Expiry {
    /// Reads a date of six digits YYMMDD, the year being 20YY; the day 00 is the last of the month. Anything else is
    /// P7 (GS1 General Specifications, section 3.4.7).
    #[tactic(auto, using(crate::proofs::TextLemmas::passes_at))]
    pub fn read(text: &str) -> Result<Expiry, PackFault>
        ensures exact { result ≡ read_expiry text.now }
        ensures accepted { IsOk result ↔ IsExpiryText text.now }
    {
        let digits = text.as_bytes();
        if digits.len() != 6 || !are_digits(digits) {
            return Err(PackFault::Date);
        }
        let year = 2000 + two_digits_at(0, digits) as u16;
        let month = two_digits_at(2, digits);
        let day = two_digits_at(4, digits);
        Expiry::dated(year, month, day)
    }

    /// The date of a year, a month and a day, the day 0 being the last of the month.
    #[tactic(auto, using(jiff_core::proofs::CalendarLemmas::days_in_month_bounds))]
    fn dated(year: u16, month: u8, day: u8) -> Result<Expiry, PackFault>
        requires from_2000 { 2000 ≤ year }
        requires until_2099 { year ≤ 2099 }
        requires month_bound { month < 100 }
        ensures exact { result ≡ dated year month day }
        ensures accepted { IsOk result ↔ IsDayOrZero year month day }
    {
        let Ok(first) = Date::new(year as i16, month as i8, 1) else {
            return Err(PackFault::Date);
        };
        let last = first.days_in_month() as u8;
        if last < day {
            return Err(PackFault::Date);
        }
        Ok(Expiry {
            year,
            month,
            day: if day == 0 { last } else { day },
        })
    }

    /// The number of the day, 1970-01-01 being 0.
    pub fn day(self) -> u32
        ensures { pos result ≡ day_of self }
    {
        self.day_number() as u32
    }

    /// The number of the day, as the calendar gives it.
    #[tactic(auto, using(crate::proofs::ExpiryLemmas::day_from_1970))]
    fn day_number(self) -> i32
        ensures value { result ≡ day_of self }
        ensures from_1970 { pos 0 ≤ℤ day_of self }
    {
        let day = date(self.year as i16, self.month as i8, self.day as i8);
        day.to_plain().to_unix_epoch_day()
    }

    /// Six digits YYMMDD with the real day, also where 00 was read.
    pub fn text(self) -> ArrayString<6>
        ensures { result.bytes ≡ expiry_text self }
    {
        let mut text = ArrayString::new();
        push_two(&mut text, (self.year - 2000) as u8);
        push_two(&mut text, self.month);
        push_two(&mut text, self.day);
        text
    }

    /// Whether the date lies before the day of that moment.
    pub fn expired_at(self, moment: Moment) -> bool
        ensures { result ≡ is_expired_at self moment }
    {
        (self.day() as u64) < moment.seconds() / SECONDS_OF_DAY
    }
}

/// The number that the two digits from a place on stand for.
#[tactic(auto, using(crate::proofs::TextLemmas::passes_at, crate::proofs::TextLemmas::digit_bounds))]
fn two_digits_at(place: usize, digits: &[u8]) -> u8
    requires digits { IsTrue (list_all is_digit digits.now) }
    requires within { place + 1 < length digits.now }
    ensures value { result ≡ two_digits_at place digits.now }
    ensures bound { result < 100 }
{
    10 * (digits[place] - b'0') + (digits[place + 1] - b'0')
}

/// Appends a number below 100, as two digits.
fn push_two(text: &mut ArrayString<6>, number: u8)
    requires small { number < 100 }
    requires room { length text.old.bytes ≤ 4 }
    ensures { text.new.bytes ≡ text.old.bytes ++ two_digits number }
{
    text.push((b'0' + number / 10) as char);
    text.push((b'0' + number % 10) as char);
}
