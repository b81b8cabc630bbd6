// A page of a queue that is open.
ghost use Rattle.std.specs.Prelude.{◌≡◌, ◌≤◌, ◌+◌, ◌-◌};
ghost use Rattle.queue_core.specs.Calls.{end_of, first_open, is_due, is_spent, state_of, with_acknowledged, with_marked, with_recorded};

use crate::acknowledged::Acknowledged;
use crate::limits::Numbers;
use io_traits::PageState;
use plain_data::Text;
use queue_page::Page;
use std::marker::Model;

/// A page of a queue that is open. Its rows are in its file alone.
#[derive(Drop)]
pub(crate) struct OpenPage {
    /// The number of the page.
    pub(crate) number: u32,
    /// The path of its file.
    pub(crate) file: Text,
    /// How that stands.
    pub(crate) page: Page,
    /// Which of its rows are acknowledged.
    pub(crate) acknowledged: Acknowledged,
    /// The first number that wasn't acknowledged when that was last recorded.
    pub(crate) from: u64,
    /// The turn of the slot in which it was.
    pub(crate) turn: u64,
}

impl Model for OpenPage {
    ghost use Rattle.queue_core.specs.Calls.{IsHeldPage};
    ghost use Rattle.queue_core.specs.Views.{OpenPageView};

    ghost Value = { OpenPageView };

    ghost view = { λ p. record {
      number = p.number;
      file = p.file;
      page = p.page;
      acknowledged = p.acknowledged;
      from = p.from;
      turn = p.turn;
    } };

    ghost invariant = { λ p. IsHeldPage (record {
      number = p.number;
      file = p.file;
      page = p.page;
      acknowledged = p.acknowledged;
      from = p.from;
      turn = p.turn;
    }) };
}

impl OpenPage {
    /// The rows of these numbers are acknowledged, so far as they are its own. It takes no memory.
    pub(crate) fn acknowledge(&mut self, numbers: Numbers)
        ensures { self.new ≡ with_acknowledged numbers self.old }
    {
        let least = self.page.state().least;
        let count = u64::from(self.page.state().count);
        let from = numbers.first.saturating_sub(least).min(count);
        let to = numbers.behind.saturating_sub(least).min(count);
        if from < to {
            self.acknowledged.add(from as usize, to as usize);
        }
    }

    /// Its number.
    pub(crate) fn number(&self) -> u32
        ensures { result ≡ self.now.number }
    {
        self.number
    }

    /// How many bytes its file has.
    pub(crate) fn length(&self) -> u64
        ensures { result ≡ self.now.page.state.length }
    {
        self.page.state().length
    }

    /// The number behind its last row.
    pub(crate) fn end(&self) -> u64
        ensures { result ≡ end_of self.now }
    {
        let state = self.page.state();
        state.least + u64::from(state.count)
    }

    /// The first number that isn't acknowledged, or that behind the last row.
    pub(crate) fn first_open(&self) -> u64
        ensures open { result ≡ first_open self.now }
        ensures within { result ≤ end_of self.now }
    {
        self.page.state().least + self.acknowledged.leading() as u64
    }

    /// Whether what is acknowledged isn't recorded.
    pub(crate) fn is_due(&self) -> bool
        ensures { result ≡ is_due self.now }
    {
        self.first_open() != self.from
    }

    /// Whether all its rows are recorded as acknowledged.
    pub(crate) fn is_spent(&self) -> bool
        ensures { result ≡ is_spent self.now }
    {
        self.from >= self.end()
    }

    /// How the page stands.
    pub(crate) fn state(&self) -> PageState
        ensures { result ≡ state_of self.now }
    {
        let first_open = self.first_open();
        let state = *self.page.state();
        PageState {
            page: self.number,
            first_open,
            ..state
        }
    }

    /// What is acknowledged was recorded, where it wasn't.
    pub(crate) fn mark(&mut self)
        ensures { self.new ≡ with_marked self.old }
    {
        if self.is_due() {
            self.record();
        }
    }

    /// What is acknowledged was recorded.
    pub(crate) fn record(&mut self)
        ensures { self.new ≡ with_recorded self.old }
    {
        self.from = self.first_open();
        self.turn = self.turn.wrapping_add(1);
    }
}
