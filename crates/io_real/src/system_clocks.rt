// The clock of the system.
ghost use Rattle.std.specs.Prelude.{◌≡◌, None, pos};

use io_traits::Clock;
use plain_data::Instant;
use std::marker::Model;
use std::rt::Clock as RuntimeClock;
use std::thread;
use std::time::{Duration, SystemTime, UNIX_EPOCH};

// How long a pause of the system's clock is.
const PAUSE_MILLIS: u64 = 10;

/// The clock of the system. A contract sees the moment that it gave last, or 1970-01-01T00:00:00Z.
#[derive(Drop)]
pub struct SystemClock<R> {
    rt: R,
    last: Instant,
}

impl<R> Model for SystemClock<R> {
    ghost use Rattle.std.specs.Prelude.{ℤ};

    ghost Value = { ℤ };

    ghost view = { λ k. k.last };
}

impl<R> SystemClock<R> {
    /// A clock over a runtime, or a reference to one.
    pub fn new(rt: R) -> SystemClock<R>
        ensures { result ≡ pos 0 }
    {
        SystemClock {
            rt,
            last: Instant::epoch(),
        }
    }
}

impl<R: RuntimeClock> SystemClock<R> {
    // The moment that the system's clock shows; None where it fails, as it does before 1970, or
    // where the moment is past the year 9999.
    fn system_moment(&self) -> Option<Instant> {
        let since_1970 = SystemTime::now(&self.rt)
            .ok()?
            .duration_since(UNIX_EPOCH)
            .ok()?;
        Instant::from_nanos(i128::try_from(since_1970.as_nanos()).ok()?)
    }
}

impl<R: RuntimeClock> Clock for SystemClock<R> {
    ghost given = { λ _. None };

    /// The moment that the system's clock shows. Where that clock fails it is the moment that this
    /// clock gave last, or 1970-01-01T00:00:00Z at first.
    fn now(&mut self) -> Instant
        ensures last { self.new ≡ result }
    {
        if let Some(moment) = self.system_moment() {
            self.last = moment;
        }
        self.last
    }

    /// Sleeps for 10 milliseconds.
    fn pause(&mut self)
        ensures last { self.new ≡ self.old }
    {
        thread::sleep(&self.rt, Duration::from_millis(PAUSE_MILLIS));
    }
}
