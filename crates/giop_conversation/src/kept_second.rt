//! Times as text in a line. The text of the last second is kept, because most times are in the same second as the one
//! before.

ghost use Rattle.std.specs.Prelude.{◌≡◌, ◌+◌, ◌/◌, ◌<◌, ◌≤◌, ◌++◌, IsTrue, false, nat_lt, MatchOption};
ghost use Rattle.giop_print.specs.Line.{line_text, line_room};
ghost use Rattle.httpdate.specs.Calendar.{days_of_years};
ghost use Rattle.giop_conversation.specs.Times.{years_to_9999, date_and_second_text, time_text};

use crate::times::{
    DAY, put_date_and_second, put_last_nine_digits, split_nanoseconds, years_and_days_of,
};
use giop_print::Line;

/// A second before the year 10000: its number, counted in seconds since 1970-01-01 UTC, and its text with the point after
/// it, as `2026-11-23T08:13:25.`.
#[derive(Drop)]
pub(crate) struct KeptSecond {
    second: u64,
    text: [u8; 20],
    ghost early: { second / 86_400 < days_of_years years_to_9999 },
    ghost spelled: { text ≡ date_and_second_text second },
}

impl KeptSecond {
    /// The first second of 1970.
    pub fn new() -> KeptSecond {
        KeptSecond {
            second: 0,
            text: *b"1970-01-01T00:00:00.",
        }
    }

    /// Makes the second of this number, counted in seconds since 1970-01-01 UTC. From the year 10000 on there is none.
    #[inline(never)]
    fn of_number(second: u64) -> Option<KeptSecond>
        ensures { MatchOption result (days_of_years years_to_9999 ≤ second / 86_400)
            (λ kept. (second / 86_400 < days_of_years years_to_9999) × (kept.second ≡ second)) }
    {
        let (passed, days) = years_and_days_of(second / DAY)?;
        let mut line = Line::new();
        put_date_and_second(&mut line, passed, days, (second % DAY) as u32);
        let mut text = [0; 20];
        text.copy_from_slice(line.text());
        Some(KeptSecond { second, text })
    }

    /// Keeps this second, and returns true. If it is from the year 10000 on, the kept second stays, and the result is
    /// false.
    #[inline]
    fn try_keep_second(&mut self, second: u64) -> bool
        ensures early { result ≡ nat_lt (second / 86_400) (days_of_years years_to_9999) }
        ensures kept { IsTrue result → self.new.second ≡ second }
        ensures stays { result ≡ false → self.new.second ≡ self.old.second }
    {
        if second != self.second {
            let Some(other) = KeptSecond::of_number(second) else {
                return false;
            };
            *self = other;
        }
        true
    }

    /// Puts the text of a time before the text that the line has, as `2026-11-23T08:13:25.580228123Z`. The time is in
    /// nanoseconds since 1970-01-01 UTC. If there is no time, or it is from the year 10000 on, the text is `-`.
    #[inline(always)]
    #[tactic(auto, unfolding(crate::specs::Times::time_text))]
    pub fn put_time(&mut self, line: &mut Line, time: Option<u128>)
        requires { 30 ≤ line_room line.old }
        ensures text { line_text line.new ≡ time_text time ++ line_text line.old }
        ensures room { line_room line.old ≤ line_room line.new + 30 }
    {
        let Some(time) = time else {
            line.put(b'-');
            return;
        };
        let (seconds, nanoseconds) = split_nanoseconds(time);
        let Ok(second) = u64::try_from(seconds) else {
            line.put(b'-');
            return;
        };
        if self.try_keep_second(second) {
            line.put(b'Z');
            put_last_nine_digits(line, nanoseconds);
            line.put_octets(&self.text);
        } else {
            line.put(b'-');
        }
    }
}

/// Puts the text of a time before the text that the line has, as `KeptSecond::put_time` does.
pub fn put_time(line: &mut Line, time: Option<u128>)
    requires { 30 ≤ line_room line.old }
    ensures text { line_text line.new ≡ time_text time ++ line_text line.old }
    ensures room { line_room line.old ≤ line_room line.new + 30 }
{
    KeptSecond::new().put_time(line, time);
}
