//! The parts of a time, and spans of time, as text in a line.

ghost use Rattle.std.specs.Prelude.{◌≡◌, ◌+◌, ◌-◌, ◌/◌, ◌%◌, ◌<◌, ◌≤◌, ◌++◌, length, codes, MatchOption};
ghost use Rattle.giop_print.specs.Line.{line_text, line_room};
ghost use Rattle.httpdate.specs.Calendar as calendar;
ghost use Rattle.httpdate.specs.Text.{two_digits};
ghost use Rattle.giop_conversation.specs.Times.{years_to_9999, whole_years_of, whole_months_of, month_and_day, day_text, time_of_day_text, last_digits, seconds_text, span_text, nanoseconds_per_second, nanoseconds_per_day};

use giop_print::Line;
use itoa::Buffer;

/// The number of nanoseconds in a second.
const SECOND: u64 = 1_000_000_000;
/// The number of seconds in a day.
pub(crate) const DAY: u64 = 86_400;
/// The number of years from 1970 to 9999.
const YEARS: u16 = 8030;

/// The two decimal digits of each number below 100, one after another.
static PAIRS: [u8; 200] = *b"00010203040506070809101112131415161718192021222324\
       25262728293031323334353637383940414243444546474849\
       50515253545556575859606162636465666768697071727374\
       75767778798081828384858687888990919293949596979899";

/// Whether a year of the Gregorian calendar is a leap year: its February has 29 days.
fn is_leap_year(year: u16) -> bool
    ensures { result ≡ calendar.is_leap_year year }
{
    year % 4 == 0 && (year % 100 != 0 || year % 400 == 0)
}

/// The number of days in a year.
fn days_in_year(year: u16) -> u16
    ensures value { result ≡ calendar.days_in_year year }
    ensures most { result ≤ 366 }
{
    if is_leap_year(year) { 366 } else { 365 }
}

/// The number of days in the first years from 1970 on, by the number of those years.
fn days_of_years(passed: u16) -> u32
    requires { passed ≤ years_to_9999 }
    ensures { result ≡ calendar.days_of_years passed }
{
    let since_1601 = u32::from(passed) + 369;
    365 * since_1601 + since_1601 / 4 - since_1601 / 100 + since_1601 / 400 - 134_774
}

/// The number of whole years from 1970 on that these days make, and the days that are left. From the year 10000 on there
/// are none.
pub(crate) fn years_and_days_of(days: u64) -> Option<(u16, u16)>
    ensures { MatchOption result (calendar.days_of_years years_to_9999 ≤ days)
        (λ found. (days < calendar.days_of_years years_to_9999) × (found.0 ≡ whole_years_of days)
        × (found.0 < years_to_9999)
        × (found.1 ≡ days - calendar.days_of_years found.0)
        × (found.1 < calendar.days_in_year (1970 + found.0))) }
{
    let Ok(whole) = u32::try_from(days) else {
        return None;
    };
    // No year is longer than 366 days, so at least this number of years has passed.
    let first = (whole / 366).min(u32::from(YEARS)) as u16;
    let mut left = whole - days_of_years(first);
    for passed in first..YEARS {
        let length = u32::from(days_in_year(1970 + passed));
        if left < length {
            return Some((passed, left as u16));
        }
        left -= length;
    }
    None
}

/// The number, from 0, that a day of a year would have in a year whose February has 30 days.
fn day_with_february_of_30(year: u16, days: u16) -> u16
    requires { days < calendar.days_in_year year }
    ensures early { days < calendar.days_in_year year - 306 → result ≡ days }
    ensures past { calendar.days_in_year year - 306 ≤ days →
        result ≡ days + 61 - (calendar.days_in_year year - 306) }
    ensures most { result ≤ 366 }
{
    let winter = days_in_year(year) - 306;
    if days < winter {
        days
    } else {
        days + 61 - winter
    }
}

/// The number of whole months of a year that its first days make, and the days that are left. In a year whose February has
/// 30 days, (367 m + 5) / 12 days come before month m, counted from 0.
fn months_and_days_of(year: u16, days: u16) -> (u8, u8)
    requires within { days < calendar.days_in_year year }
    ensures value { result.0 ≡ whole_months_of year days }
    ensures few { result.0 < 12 }
    ensures rest { result.1 ≡ days - calendar.days_of_months year result.0 }
    ensures short { result.1 < 31 }
{
    let even = day_with_february_of_30(year, days);
    let months = (12 * even + 6) / 367;
    (months as u8, (even - (367 * months + 5) / 12) as u8)
}

/// Puts the two decimal digits of a number before the text that the line has.
#[inline]
fn put_two_digits(line: &mut Line, n: u32)
    requires room { 2 ≤ line_room line.old }
    requires few { n < 100 }
    ensures text { line_text line.new ≡ two_digits n ++ line_text line.old }
    ensures room { line_room line.new + 2 ≡ line_room line.old }
{
    let pair = n as usize * 2;
    line.put(PAIRS[pair + 1]);
    line.put(PAIRS[pair]);
}

/// Puts a day before the text that the line has. The day is given by the whole years from 1970 on, and the days of its year
/// before it.
#[tactic(auto, unfolding(crate::specs::Times::day_text))]
fn put_date(line: &mut Line, years_since_1970: u16, day_of_year: u16)
    requires room { 10 ≤ line_room line.old }
    requires year { years_since_1970 < years_to_9999 }
    requires within { day_of_year < calendar.days_in_year (1970 + years_since_1970) }
    ensures text { line_text line.new
        ≡ day_text years_since_1970 day_of_year ++ line_text line.old }
    ensures room { line_room line.new + 10 ≡ line_room line.old }
{
    let year = 1970 + years_since_1970;
    let (months, rest) = months_and_days_of(year, day_of_year);
    put_two_digits(line, u32::from(rest) + 1);
    line.put(b'-');
    put_two_digits(line, u32::from(months) + 1);
    line.put(b'-');
    put_two_digits(line, u32::from(year % 100));
    put_two_digits(line, u32::from(year / 100));
}

/// Puts the hour, the minute and the second before the text that the line has, by the seconds of the day.
#[tactic(auto, unfolding(crate::specs::Times::time_of_day_text))]
fn put_time_of_day(line: &mut Line, second_of_day: u32)
    requires room { 8 ≤ line_room line.old }
    requires day { second_of_day < 86_400 }
    ensures text { line_text line.new ≡ time_of_day_text second_of_day ++ line_text line.old }
    ensures room { line_room line.new + 8 ≡ line_room line.old }
{
    put_two_digits(line, second_of_day % 60);
    line.put(b':');
    put_two_digits(line, second_of_day % 3600 / 60);
    line.put(b':');
    put_two_digits(line, second_of_day / 3600);
}

/// Puts the last nine decimal digits of a number before the text that the line has.
#[inline]
#[tactic(auto, unfolding(crate::specs::Times::last_digits))]
pub(crate) fn put_last_nine_digits(line: &mut Line, n: u32)
    requires room { 9 ≤ line_room line.old }
    ensures text { line_text line.new ≡ last_digits 9 n ++ line_text line.old }
    ensures room { line_room line.new + 9 ≡ line_room line.old }
{
    let (high, low) = (n / 10_000, n % 10_000);
    put_two_digits(line, low % 100);
    put_two_digits(line, low / 100);
    put_two_digits(line, high % 100);
    put_two_digits(line, high / 100 % 100);
    line.put(b'0' + (high / 10_000 % 10) as u8);
}

/// Puts a second before the text that the line has. It is given by the whole years from 1970 on, the days of its year
/// before it, and the seconds of the day.
pub(crate) fn put_date_and_second(
    line: &mut Line,
    years_since_1970: u16,
    day_of_year: u16,
    second_of_day: u32,
)
    requires room { 20 ≤ line_room line.old }
    requires year { years_since_1970 < years_to_9999 }
    requires within { day_of_year < calendar.days_in_year (1970 + years_since_1970) }
    requires day { second_of_day < 86_400 }
    ensures text { line_text line.new ≡ (day_text years_since_1970 day_of_year ++ (codes "T"
        ++ (time_of_day_text second_of_day ++ codes "."))) ++ line_text line.old }
    ensures room { line_room line.new + 20 ≡ line_room line.old }
{
    line.put(b'.');
    put_time_of_day(line, second_of_day);
    line.put(b'T');
    put_date(line, years_since_1970, day_of_year);
}

/// The whole seconds in a number of nanoseconds, and the nanoseconds that are left. Most numbers fit 64 bits, and these are
/// divided in 64 bits, which is much quicker.
#[inline]
pub(crate) fn split_nanoseconds(nanoseconds: u128) -> (u128, u32)
    ensures value { result.0 ≡ nanoseconds / nanoseconds_per_second }
    ensures rest { result.1 ≡ nanoseconds % nanoseconds_per_second }
{
    match u64::try_from(nanoseconds) {
        Ok(few) => (u128::from(few / SECOND), (few % SECOND) as u32),
        Err(_) => {
            let whole = u128::from(SECOND);
            (nanoseconds / whole, (nanoseconds % whole) as u32)
        }
    }
}

/// Puts a number of nanoseconds, as seconds, before the text that the line has.
#[tactic(auto, unfolding(crate::specs::Times::seconds_text))]
fn put_seconds(line: &mut Line, nanoseconds: u128)
    requires { 40 ≤ line_room line.old }
    ensures text { line_text line.new ≡ seconds_text nanoseconds ++ line_text line.old }
    ensures room { line_room line.old ≤ line_room line.new + 40 }
{
    let (seconds, rest) = split_nanoseconds(nanoseconds);
    put_last_nine_digits(line, rest);
    line.put(b'.');
    match u64::try_from(seconds) {
        Ok(seconds) => line.put_number(seconds),
        Err(_) => line.put_octets(Buffer::new().format(seconds).as_bytes()),
    }
}

/// Puts the span from one time to another, in seconds, before the text that the line has: `0.000228123`. Both times are in
/// nanoseconds. If the span goes back, `-` stands in front of it. If a time is missing, the text is `-` alone.
#[tactic(auto, unfolding(crate::specs::Times::span_text))]
pub fn put_span(line: &mut Line, from: Option<u128>, to: Option<u128>)
    requires { 41 ≤ line_room line.old }
    ensures text { line_text line.new ≡ span_text from to ++ line_text line.old }
    ensures room { line_room line.old ≤ line_room line.new + 41 }
{
    let (Some(from), Some(to)) = (from, to) else {
        line.put(b'-');
        return;
    };
    if from <= to {
        put_seconds(line, to - from);
    } else {
        put_seconds(line, from - to);
        line.put(b'-');
    }
}
