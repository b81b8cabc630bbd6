// A table of counters that threads add to, each at its own seat.
ghost use Rattle.std.specs.Prelude.{◌≡◌, ◌≤◌, ◌<◌, ◌+◌, ◌*◌, [], All, length, replicate, slice_set, IfOk};

use crate::counter::{Counter, Total, Totals};
use crate::rule::{CounterRule, CounterView, LoadStep, SplitStep, StoreStep};
use atomic_table::{Seat, Table};
use plain_data::Items;
use std::alloc::{AllocError, Global};

/// How many words a seat has, one for each counter.
const WORDS: usize = 4;

/// The right to add to the counters of one seat. It has no words of its own: they lie in the monitor.
#[derive(Drop)]
pub struct CountSeat {
    pub(crate) seat: Seat<(), CounterView>,
    /// Which of the monitor's seats it is, from 0 on.
    pub(crate) number: usize,
    ghost holds_no_slot: { seat.me.1 ≡ [] },
    ghost begins: { seat.me.0.from ≡ 4 * number },
    ghost four: { length seat.me.0.counts ≡ 4 },
    ghost within: { 4 * number + 4 ≤ seat.table_id.words },
}

pub type CountSeats = Items<CountSeat>;

/// A table of counters that threads add to and read side by side.
#[derive(Drop)]
pub struct Monitor {
    pub(crate) table: Table<(), CounterView, usize, CounterRule, Global>,
    pub(crate) seats: usize,
    ghost words: { table.shared.table_id.words ≡ 4 * seats },
    ghost some: { 0 < seats },
    ghost few: { seats ≤ 32 },
}

/// A new monitor with its seats.
#[derive(Drop)]
pub struct MonitorOpen {
    pub monitor: Monitor,
    pub seats: CountSeats,
}

impl CountSeat {
    ghost use Rattle.monitor_core.specs.Kept.{unused};
    ghost use Rattle.monitor_core.specs.Counting.{counts};

    /// The seat of the last four words that the first seat holds.
    fn split_off(
        table: &Table<(), CounterView, usize, CounterRule, Global>,
        first: &mut Seat<(), CounterView>,
        number: usize,
    ) -> CountSeat
        requires table { first.old.table_id ≡ table.now.shared.table_id }
        requires within { 4 * number + 4 ≤ first.old.table_id.words }
        requires unused { first.old.me ≡ (unused (number + 1), []) }
        ensures table { first.new.table_id ≡ first.old.table_id }
        ensures left { first.new.me ≡ (unused number, []) }
        ensures own { result.seat.table_id ≡ first.old.table_id }
        ensures nothing { counts result ≡ replicate 4 0 }
    {
        let seat = table.shared.split_seat::<SplitStep>(first);
        CountSeat { seat, number }
    }

    /// The first seat, with its own four words alone.
    fn rest(first: Seat<(), CounterView>) -> CountSeat
        requires within { 4 ≤ first.table_id.words }
        requires unused { first.me ≡ (unused 1, []) }
        ensures own { result.seat.table_id ≡ first.table_id }
        ensures nothing { counts result ≡ replicate 4 0 }
    {
        CountSeat {
            seat: first,
            number: 0,
        }
    }
}

impl Monitor {
    ghost use Rattle.monitor_core.specs.Places.{place};
    ghost use Rattle.monitor_core.specs.Counting.{counted, counts, number_of, seats_of, sum_over, totals_of, IsSeatOf, Adds, AddsUp};

    /// A monitor with so many seats, from 1 to 32, which counted nothing yet.
    pub fn new(alloc: Global, seats: u32) -> Result<MonitorOpen, AllocError>
        requires some { 0 < seats }
        requires few { seats ≤ 32 }
        ensures monitor { IfOk result (λ made. seats_of made.monitor ≡ seats) }
        ensures seats { IfOk result (λ made. length made.seats ≡ seats) }
        ensures own { IfOk result (λ made. All (IsSeatOf made.monitor) made.seats) }
        ensures nothing { IfOk result (λ made. All (λ seat. counts seat ≡ replicate 4 0)
            made.seats) }
    {
        let seats = seats as usize;
        let words = vec![in alloc; 0u64; 4 * seats]?;
        let (table, mut first) = Table::of_words(alloc, words.as_slice(), &words.len())?;
        let mut made = Items::with_capacity(alloc, seats)?;
        let mut number = seats - 1;
        while number > 0 {
            made.push(CountSeat::split_off(&table, &mut first, number))?;
            number -= 1;
        }
        made.push(CountSeat::rest(first))?;
        Ok(MonitorOpen {
            monitor: Monitor { table, seats },
            seats: made,
        })
    }

    /// Adds to a counter of the seat, up to the last number of 64 bits. It waits for nobody.
    pub fn add(&self, seat: &mut CountSeat, counter: Counter, by: u64)
        requires { IsSeatOf self.now seat.old }
        ensures adds { Adds counter by seat.old seat.new }
        ensures own { IsSeatOf self.now seat.new }
    {
        let count = self.count(seat, counter);
        self.set(seat, counter, count.saturating_add(by));
    }

    /// Writes what the seat counted.
    fn set(&self, seat: &mut CountSeat, counter: Counter, count: u64)
        requires { IsSeatOf self.now seat.old }
        ensures counts { counts seat.new ≡ slice_set (counts seat.old) (place counter) count }
        ensures number { number_of seat.new ≡ number_of seat.old }
        ensures own { IsSeatOf self.now seat.new }
    {
        let word = WORDS * seat.number + counter.place();
        self.table
            .shared
            .store::<StoreStep>(&mut seat.seat, word, count);
    }

    /// What the seat counted.
    fn count(&self, seat: &mut CountSeat, counter: Counter) -> u64
        requires { IsSeatOf self.now seat.old }
        ensures count { result ≡ counted counter seat.old }
        ensures same { seat.new ≡ seat.old }
    {
        let word = WORDS * seat.number + counter.place();
        self.table.shared.load::<LoadStep>(&mut seat.seat, word)
    }

    /// The sum of a counter over all seats, each read at one moment of the call: the seat's own adds are in it
    /// whole, and those of another seat as far as they have come.
    pub fn read(&self, seat: &mut CountSeat, counter: Counter) -> Total
        requires { IsSeatOf self.now seat.old }
        ensures same { seat.new ≡ seat.old }
        ensures total { AddsUp (seats_of self.now) (number_of seat.old) (counted counter seat.old)
            result }
    {
        let mut total = Total {
            sum: 0,
            stuck: false,
        };
        for number in 0..self.seats {
            total = total.with(self.look(seat, counter, number));
        }
        total
    }

    /// The number in a word of the seat with this number.
    fn look(&self, seat: &mut CountSeat, counter: Counter, number: usize) -> u64
        requires own { IsSeatOf self.now seat.old }
        requires within { number < seats_of self.now }
        ensures own { number ≡ number_of seat.old → result ≡ counted counter seat.old }
        ensures same { seat.new ≡ seat.old }
    {
        if number == seat.number {
            self.count(seat, counter)
        } else {
            self.table.shared.peek(WORDS * number + counter.place())
        }
    }

    /// The exact sums of what all seats counted.
    pub fn close(self, seats: CountSeats) -> Totals
        requires own { All (IsSeatOf self) seats }
        requires all { length seats ≡ seats_of self }
        ensures { result ≡ totals_of seats }
    {
        let mut seats = seats.into_vec();
        let seats = seats.as_mut_slice();
        Totals {
            accepted: self.sum(seats, Counter::Accepted),
            delivered: self.sum(seats, Counter::Delivered),
            dead: self.sum(seats, Counter::Dead),
            acknowledged: self.sum(seats, Counter::Acknowledged),
        }
    }

    fn sum(&self, seats: &mut [CountSeat], counter: Counter) -> Total
        requires own { All (IsSeatOf self.now) seats.old }
        requires few { length seats.old ≤ 32 }
        ensures total { result ≡ sum_over seats.old counter }
        ensures same { seats.new ≡ seats.old }
    {
        let mut total = Total {
            sum: 0,
            stuck: false,
        };
        for at in 0..seats.len() {
            total = total.with(self.count(&mut seats[at], counter));
        }
        total
    }
}
