//! What time it is.
ghost use Rattle.std.specs.Prelude.{◌≡◌, ◌<◌, ℕ, List, Option, Some, None, [], ◌∷◌, vec_len, length};
ghost use Rattle.gcs_io.specs.Readings.{reading_at};
ghost use Rattle.gcs_io.specs.Told.{Gains};

use std::rt::Clock as SystemTimes;
use std::time::{SystemTime, UNIX_EPOCH};

/// A clock that is read. Its readings may stand still or fall.
pub trait Clock: Drop {
    /// The readings so far, where they are told.
    ghost given: { Self → Option (List ℕ) };

    /// A moment, in microseconds since 1970.
    fn now(&mut self) -> u64
        ensures { Gains (given self.old) (given self.new) (result ∷ []) };
}

/// A clock that gives the readings of a list, and past its end the last one again. It tells its
/// readings as long as their number is below 2^64 - 1.
#[derive(Drop)]
pub struct ListClock {
    list: Vec<u64>,
    calls: u64,
    ghost some: { 0 < vec_len list },
}

impl ListClock {
    ghost use Rattle.gcs_io.specs.MemoryClock.{clock_list};

    pub fn new(list: Vec<u64>) -> ListClock
        requires { 0 < vec_len list }
        ensures given { ⟦<ListClock as Clock>⟧.given result ≡ Some [] }
        ensures list { clock_list result ≡ list.items }
    {
        ListClock { list, calls: 0 }
    }
}

// The reading of that number, from 0, or the last one.
fn reading(list: &[u64], calls: u64) -> u64
    requires { 0 < length list.now }
    ensures { result ≡ reading_at list.now calls }
{
    let index = usize::try_from(calls)
        .unwrap_or(usize::MAX)
        .min(list.len() - 1);
    list[index]
}

impl Clock for ListClock {
    ghost use Rattle.gcs_io.specs.MemoryClock.{clock_given, clock_list};

    ghost given = { clock_given };

    fn now(&mut self) -> u64
        ensures given { Gains (clock_given self.old) (clock_given self.new) (result ∷ []) }
        ensures list { clock_list self.new ≡ clock_list self.old }
    {
        let moment = reading(&self.list, self.calls);
        self.calls = self.calls.saturating_add(1);
        moment
    }
}

/// The machine's clock. It tells none of its readings, and gives 0 where it can't be read or stands
/// before 1970.
#[derive(Drop)]
pub struct SystemClock<R: SystemTimes + Drop> {
    rt: R,
}

impl<R: SystemTimes + Drop> SystemClock<R> {
    pub fn new(rt: R) -> SystemClock<R> {
        SystemClock { rt }
    }
}

impl<R: SystemTimes + Drop> Clock for SystemClock<R> {
    ghost given = { λ s. None };

    fn now(&mut self) -> u64 {
        let Ok(time) = SystemTime::now(&self.rt) else {
            return 0;
        };
        match time.duration_since(UNIX_EPOCH) {
            Ok(since) => u64::try_from(since.as_micros()).unwrap_or(u64::MAX),
            Err(_) => 0,
        }
    }
}
