//! The moment of a text, read by the places of its parts.
ghost use Rattle.std.specs.Prelude.{◌≡◌, ◌+◌, ◌-◌, ◌*◌, ◌^◌, ◌<◌, ◌≤◌, ℕ, length, IfOk, IfErr, IfSome, IfNone, pos, true};
ghost use Rattle.jiff_core.specs.Calendar.{IsCivilDate, day_count};
ghost use Rattle.gcs_time.specs.Time.{has_two, two_at, has_date, has_clock, has_mark, has_offset, offset_of, zone_of, IsTimeOf, IsCivilText, year_of, Shows, civil_seconds, last_moment};

use crate::digit_pairs::{has_two, two_at};
use crate::fraction::{after_fraction, fraction_of, has_fraction, micros_of};
use crate::writing::LAST_MOMENT;
use jiff_core::civil::Date;

// The microseconds from 1 January of the year -10000 to 1970.
const EPOCH_MICROS: u64 = 377_736_739_200_000_000;

/// The text names no moment from 1970 to 9999.
#[derive(Clone, Copy, Debug)]
pub struct BadTime;

/// How far a zone's clocks are before or behind those of UTC, in microseconds.
#[derive(Clone, Copy)]
enum Zone {
    East(u64),
    West(u64),
}

/// The moment of a text `YYYY-MM-DDTHH:MM:SS`, with an optional point and 1 to 9 digits, and `Z` or an
/// offset `+HH:MM` or `-HH:MM`; `t` and `z` too. Digits past microseconds are cut.
///
/// `Err`: the text is none of these, or its moment is not in 1970 to 9999. Seconds go to 59: there is no leap second.
/// Source: RFC 3339, 5.6.
pub fn read_time(text: &[u8]) -> Result<u64, BadTime>
    ensures read { IfOk result (λ moment. IsTimeOf text.now moment) }
    ensures bad { IfErr result (λ _. (moment : ℕ) → IsTimeOf text.now moment → ⊥) }
{
    let Some(seconds) = civil_seconds(text) else {
        return Err(BadTime);
    };
    let tail = &text[19..];
    let digits = fraction_of(tail);
    if !has_fraction(tail, digits) {
        return Err(BadTime);
    }
    let Some(zone) = zone_of(after_fraction(tail, digits)) else {
        return Err(BadTime);
    };
    match moment_at(zone, seconds * 1_000_000 + micros_of(digits)) {
        Some(moment) => Ok(moment),
        None => Err(BadTime),
    }
}

// Whether `YYYY-MM-DD` begins the text, each letter a digit.
fn has_date(text: &[u8]) -> bool
    requires { 19 ≤ length text.now }
    ensures { result ≡ has_date text.now }
{
    has_two(text, 0)
        && has_two(text, 2)
        && text[4] == b'-'
        && has_two(text, 5)
        && text[7] == b'-'
        && has_two(text, 8)
}

// Whether `HH:MM:SS` of a day stands behind the date and its mark.
fn has_clock(text: &[u8]) -> bool
    requires { 19 ≤ length text.now }
    ensures { result ≡ has_clock text.now }
{
    has_two(text, 11)
        && text[13] == b':'
        && has_two(text, 14)
        && text[16] == b':'
        && has_two(text, 17)
        && two_at(text, 11) <= 23
        && two_at(text, 14) <= 59
        && two_at(text, 17) <= 59
}

// Whether the text is that sign and an offset from UTC.
fn has_offset(sign: u8, text: &[u8]) -> bool
    ensures { result ≡ has_offset sign text.now }
{
    text.len() == 6
        && text[0] == sign
        && has_two(text, 1)
        && text[3] == b':'
        && has_two(text, 4)
        && two_at(text, 1) <= 23
        && two_at(text, 4) <= 59
}

// The microseconds of an offset from UTC.
fn offset_of(text: &[u8]) -> u64
    requires place { 6 ≤ length text.now }
    requires hours { has_two text.now 1 ≡ true }
    requires minutes { has_two text.now 4 ≡ true }
    ensures { result ≡ offset_of text.now }
{
    (two_at(text, 1) * 60 + two_at(text, 4)) * 60_000_000
}

// The days from 1 January of the year -10000 to a civil date, if there is such a date.
fn day_count(year: u64, month: u64, day: u64) -> Option<u64>
    requires year { year ≤ 9999 }
    requires month { month ≤ 99 }
    requires day { day ≤ 99 }
    ensures some { IfSome result (λ n. IsCivilDate (pos year) month day × (n ≡ day_count (pos year) month day)) }
    ensures bound { IfSome result (λ n. n ≤ 7_304_849) }
    ensures none { IfNone result (¬ IsCivilDate (pos year) month day) }
{
    match Date::new(year as i16, month as i8, day as i8) {
        Ok(date) => Some(u64::from(date.days_since_min()) + 366),
        Err(_) => None,
    }
}

// The seconds from 1 January of the year -10000 to the date and the time of day that the text begins with.
fn civil_seconds(text: &[u8]) -> Option<u64>
    ensures some { IfSome result (λ n. IsCivilText text.now × (n ≡ civil_seconds text.now)) }
    ensures bound { IfSome result (λ n. n < 2 ^ 40) }
    ensures none { IfNone result (¬ IsCivilText text.now) }
{
    if text.len() < 19 || !has_date(text) || !has_mark(text) || !has_clock(text) {
        return None;
    }
    let days = day_count(year_of(text), month_of(text), day_of(text))?;
    Some(days * 86_400 + clock_seconds(text))
}

fn year_of(text: &[u8]) -> u64
    requires long { 19 ≤ length text.now }
    requires date { has_date text.now ≡ true }
    ensures value { result ≡ year_of text.now }
    ensures bound { result ≤ 9999 }
{
    two_at(text, 0) * 100 + two_at(text, 2)
}

fn month_of(text: &[u8]) -> u64
    requires long { 19 ≤ length text.now }
    requires date { has_date text.now ≡ true }
    ensures value { result ≡ two_at text.now 5 }
    ensures bound { result ≤ 99 }
{
    two_at(text, 5)
}

fn day_of(text: &[u8]) -> u64
    requires long { 19 ≤ length text.now }
    requires date { has_date text.now ≡ true }
    ensures value { result ≡ two_at text.now 8 }
    ensures bound { result ≤ 99 }
{
    two_at(text, 8)
}

// The seconds of the day.
fn clock_seconds(text: &[u8]) -> u64
    requires long { 19 ≤ length text.now }
    requires clock { has_clock text.now ≡ true }
    ensures value { result ≡ (two_at text.now 11 * 60 + two_at text.now 14) * 60 + two_at text.now 17 }
    ensures bound { result < 400_000 }
{
    (two_at(text, 11) * 60 + two_at(text, 14)) * 60 + two_at(text, 17)
}

// Whether `T` or `t` stands between the date and the time of day.
fn has_mark(text: &[u8]) -> bool
    requires { 19 ≤ length text.now }
    ensures { result ≡ has_mark text.now }
{
    text[10] == b'T' || text[10] == b't'
}

// The zone that the text names.
fn zone_of(text: &[u8]) -> Option<Zone>
    ensures { result ≡ zone_of text.now }
{
    if text == b"Z".as_slice() || text == b"z".as_slice() {
        return Some(Zone::East(0));
    }
    if has_offset(b'+', text) {
        return Some(Zone::East(offset_of(text)));
    }
    if has_offset(b'-', text) {
        return Some(Zone::West(offset_of(text)));
    }
    None
}

// The moment at which clocks of the zone show this, from 1970 to 9999.
fn moment_at(zone: Zone, civil: u64) -> Option<u64>
    requires { civil < 2 ^ 62 }
    ensures some { IfSome result (λ moment. Shows zone civil moment × (moment ≤ last_moment)) }
    ensures none { IfNone result ((moment : ℕ) → Shows zone civil moment → moment ≤ last_moment → ⊥) }
{
    let moment = match zone {
        Zone::East(by) => civil.checked_sub(EPOCH_MICROS)?.checked_sub(by)?,
        Zone::West(by) => civil.checked_add(by)?.checked_sub(EPOCH_MICROS)?,
    };
    if moment > LAST_MOMENT {
        return None;
    }
    Some(moment)
}
