// What is counted, and sums over all seats.
ghost use Rattle.std.specs.Prelude.{◌≡◌, ◌<◌, ◌+◌, ◌^◌, ◌==◌, ◌||◌};
ghost use Rattle.monitor_core.specs.Places.{place, last};

/// What is counted.
#[derive(Clone, Copy)]
pub enum Counter {
    Accepted,
    Delivered,
    Dead,
    Acknowledged,
}

impl Counter {
    /// Its place among the words of a seat.
    pub(crate) fn place(self) -> usize
        ensures { result ≡ place self }
    {
        match self {
            Counter::Accepted => 0,
            Counter::Delivered => 1,
            Counter::Dead => 2,
            Counter::Acknowledged => 3,
        }
    }
}

/// A sum over seats.
#[derive(Clone, Copy, PartialEq, Eq)]
pub struct Total {
    pub sum: u128,
    /// Whether one of the numbers that were added up stands at the last number of 64 bits, so that it may stand for
    /// a greater one.
    pub stuck: bool,
}

/// The sums of all counters.
#[derive(Clone, Copy)]
pub struct Totals {
    pub accepted: Total,
    pub delivered: Total,
    pub dead: Total,
    pub acknowledged: Total,
}

impl Total {
    /// The sum with one number more.
    pub(crate) fn with(self, number: u64) -> Total
        requires { self.sum < 2 ^ 100 }
        ensures { result ≡ record {
          sum = self.sum + number;
          stuck = self.stuck ||
              (number == last);
        } }
    {
        Total {
            sum: self.sum + u128::from(number),
            stuck: self.stuck || number == u64::MAX,
        }
    }
}
