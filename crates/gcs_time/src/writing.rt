//! The text of a moment, by the civil date of its day and the time of that day.
ghost use Rattle.std.specs.Prelude.{◌≡◌, ◌+◌, ◌%◌, ◌≤◌, pos, unsigned_abs};
ghost use Rattle.jiff_core.specs.Date.{epoch_day};
ghost use Rattle.gcs_time.specs.Time.{IsTextOf, time_text_of};

use jiff_core::civil::Date;

/// The last microsecond of the year 9999.
pub const LAST_MOMENT: u64 = 253_402_300_799_999_999;

/// The microseconds of a day.
pub const DAY_MICROS: u64 = 86_400_000_000;

/// The text `YYYY-MM-DDTHH:MM:SS.mmmZ` of a moment in UTC, cut to milliseconds. A moment from the year 10000 on counts
/// as `LAST_MOMENT`.
///
/// Source: RFC 3339, 5.6; Google's "Object resource", `timeCreated`.
pub fn time_text(moment: u64) -> [u8; 24]
    ensures date { IsTextOf moment result }
    ensures text { result ≡ time_text_of moment }
{
    let held = moment.min(LAST_MOMENT);
    let date = date_of(held / DAY_MICROS);
    let year = year_of(date);
    let micros = held % DAY_MICROS;
    let hour = micros / 3_600_000_000;
    let minute = micros / 60_000_000 % 60;
    let second = micros / 1_000_000 % 60;
    [
        digit(year / 1000),
        digit(year / 100),
        digit(year / 10),
        digit(year),
        b'-',
        digit(u64::from(date.month) / 10),
        digit(u64::from(date.month)),
        b'-',
        digit(u64::from(date.day) / 10),
        digit(u64::from(date.day)),
        b'T',
        digit(hour / 10),
        digit(hour),
        b':',
        digit(minute / 10),
        digit(minute),
        b':',
        digit(second / 10),
        digit(second),
        b'.',
        digit(micros / 100_000),
        digit(micros / 10_000),
        digit(micros / 1_000),
        b'Z',
    ]
}

// The last decimal digit of a number.
fn digit(number: u64) -> u8
    ensures { result ≡ 48 + number % 10 }
{
    b'0' + (number % 10) as u8
}

// The year of a date that is not before the year 0.
fn year_of(date: Date) -> u64
    ensures { result ≡ unsigned_abs date.year }
{
    u64::from(date.year.unsigned_abs())
}

// The civil date of a day since 1970.
fn date_of(day: u64) -> Date
    requires { day ≤ 2_932_896 }
    ensures { epoch_day result ≡ pos day }
{
    Date::from_days_since_min((day + 4_371_587) as u32)
}
