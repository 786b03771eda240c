//! The messages that are counted, by their times.

ghost use Rattle.std.specs.Prelude.{◌≡◌};
ghost use Rattle.giop_stat_counts.specs.Windows.{has_day, comparable_part, comes_before, is_at_or_after, is_up_to};

/// Whether a word is a time: with its day, as `2026-11-23T08:13:25.58`, or without a day, as `08:13:25` or `08`. A `Z` may
/// follow.
pub fn is_time(word: &str) -> bool {
    let word = word.as_bytes();
    let word = match word {
        [time @ .., b'Z'] => time,
        time => time,
    };
    if word.len() > 10 && has_day(word) {
        return fits_form(&word[..11], b"0000-00-00T") && is_time_of_day(&word[11..]);
    }
    is_time_of_day(word)
}

/// Whether a text is hours, which may be followed by minutes, seconds, and one to nine digits of a second.
fn is_time_of_day(text: &[u8]) -> bool {
    match text.len() {
        2 => fits_form(text, b"00"),
        5 => fits_form(text, b"00:00"),
        8 => fits_form(text, b"00:00:00"),
        10..=18 => fits_form(&text[..9], b"00:00:00.")
            && text[9..].iter().all(|b| b.is_ascii_digit()),
        _ => false,
    }
}

/// Whether a text has this form. A `0` in the form stands for any digit.
fn fits_form(text: &[u8], form: &[u8]) -> bool {
    text.len() == form.len()
        && text.iter().zip(form).all(|(b, like)| {
            if *like == b'0' {
                b.is_ascii_digit()
            } else {
                *b == *like
            }
        })
}

/// The first and the last time of the messages that are counted.
#[derive(Clone, Copy, Debug, Drop)]
pub struct Window<'a> {
    /// The first time. If it is None, all messages up to the last time are counted.
    pub first: Option<&'a str>,
    /// The last time, with all times that begin with it. If it is None, all messages from the first time on are counted.
    pub last: Option<&'a str>,
}

impl Window<'_> {
    /// Whether a message of this time is counted. The time of a message is empty if it isn't known; then the message is
    /// counted only if neither time is given.
    pub(crate) fn contains_time(&self, time: &[u8]) -> bool {
        let is_late_enough = match self.first {
            None => true,
            Some(first) => is_at_or_after(time, without_zone(first.as_bytes())),
        };
        let is_early_enough = match self.last {
            None => true,
            Some(last) => is_up_to(time, without_zone(last.as_bytes())),
        };
        is_late_enough && is_early_enough
    }
}

/// A time without the `Z` that it may end with.
fn without_zone(time: &[u8]) -> &[u8] {
    match time {
        [time @ .., b'Z'] => time,
        time => time,
    }
}

/// Whether a time has its day.
fn has_day(time: &[u8]) -> bool
    ensures { result ≡ has_day time.now }
{
    time.len() > 10 && time[10] == b'T'
}

/// The part of a time that is compared with another time: without its day if the other one has no day.
fn comparable_part<'a>(time: &'a [u8], other: &[u8]) -> &'a [u8]
    ensures { result.now ≡ comparable_part time.now other.now }
{
    if has_day(other) {
        return time;
    }
    &time[time.len().min(11)..]
}

/// Whether a text comes before another, octet by octet.
fn comes_before(text: &[u8], other: &[u8]) -> bool
    ensures { result ≡ comes_before text.now other.now }
{
    match (text.split_first(), other.split_first()) {
        (_, None) => false,
        (None, Some(_)) => true,
        (Some((x, xs)), Some((y, ys))) => { if x == y { comes_before(xs, ys) } else { x < y } }
    }
}

/// Whether a time is known and not before another.
fn is_at_or_after(time: &[u8], first: &[u8]) -> bool
    ensures { result ≡ is_at_or_after time.now first.now }
{
    !time.is_empty() && !comes_before(comparable_part(time, first), first)
}

/// Whether a time is known and not after another, or begins with it.
fn is_up_to(time: &[u8], last: &[u8]) -> bool
    ensures { result ≡ is_up_to time.now last.now }
{
    let start = comparable_part(time, last);
    !time.is_empty() && !comes_before(last, &start[..start.len().min(last.len())])
}
