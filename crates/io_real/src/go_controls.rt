// A control that never stops, and asks for a look every few seconds.
ghost use Rattle.std.specs.Prelude.{◌≢◌, None};

use io_traits::{Control, Said};
use std::rt::Clock as RuntimeClock;
use std::time::{Duration, Instant};

// How long after a look the next one is due.
const LOOK_SECONDS: u64 = 3;

/// A control that lets a program go on, and says Look where at least 3 seconds have passed since it
/// last said so, or since it was made. It never says Stop.
///
/// It goes by the machine's clock that never goes back. Where that clock fails it says Go.
#[derive(Drop)]
pub struct GoControl<R> {
    rt: R,
    last: Option<Instant>,
}

impl<R: RuntimeClock> GoControl<R> {
    /// A control over a runtime, or a reference to one.
    pub fn new(rt: R) -> GoControl<R> {
        let last = Instant::now(&rt).ok();
        GoControl { rt, last }
    }

    // Whether a look is due, which then counts as made.
    fn is_due(&mut self) -> bool {
        let Ok(now) = Instant::now(&self.rt) else {
            return false;
        };
        let due = match self.last {
            Some(last) => match now.checked_duration_since(last) {
                Some(passed) => passed >= Duration::from_secs(LOOK_SECONDS),
                None => false,
            },
            None => {
                self.last = Some(now);
                false
            }
        };
        if due {
            self.last = Some(now);
        }
        due
    }
}

impl<R: RuntimeClock> Control for GoControl<R> {
    ghost given = { λ _. None };

    ghost left = { λ _. None };

    fn next(&mut self) -> Said
        ensures never { result ≢ Said.Stop }
    {
        if self.is_due() { Said::Look } else { Said::Go }
    }
}
