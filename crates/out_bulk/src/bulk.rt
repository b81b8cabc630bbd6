// The output `elasticsearch`: sends events in bulk requests and tells their fates.
ghost use Rattle.std.specs.Prelude.{◌≡◌, ◌+◌, ◌++◌, None, Some, [], Ok, Err, option_map};
ghost use Rattle.io_traits.specs.Counts.{one_more};
ghost use Rattle.foreign_parts.specs.Configuring.{Answers};

use crate::fates::{Settled, all_settled, are_same, copies, fill, taken};
use crate::peer::Peer;
use crate::request::{Request, host_of, request_to};
use crate::settings::BulkSettings;
use bulk_replies::{ItemResult, Reply, read_reply};
use event_tree::{Event, Events};
use foreign_parts::{DeliverFault, Delivery, Fate, FromFault, Settings};
use plain_data::Items;
use std::alloc::{AllocError, Global};
use std::marker::Model;

/// The output `elasticsearch` over a peer.
pub struct Bulk<Q: Peer> {
    alloc: Global,
    peer: Q,
    settings: Option<BulkSettings>,
    // the events of a batch that was put off, and those of their fates that are settled
    kept: Events,
    settled: Settled,
    held: Option<Events>,
    bad: u64,
    last_bad: Vec<u8>,
    laters: u64,
    closes: u64,
}

impl<Q: Peer> Drop for Bulk<Q> {
    fn drop(self) {
        let Bulk {
            alloc: _,
            peer: _peer,
            settings: _settings,
            kept: _kept,
            settled: _settled,
            held: _held,
            bad: _,
            last_bad: _last_bad,
            laters: _,
            closes: _,
        } = self;
    }
}

impl<Q: Peer> Model for Bulk<Q> {
    ghost use Rattle.out_bulk.specs.Batches.{IsKept};
    ghost use Rattle.out_bulk.specs.Deliveries.{Standing};
    ghost use Rattle.out_bulk.specs.Settings.{target_of};
    ghost use Rattle.std.specs.Coded.{codes};
    ghost use Rattle.event_tree.specs.contracts.value.Value as tree;
    ghost use Rattle.event_text.specs.contracts.template.TemplatePart as piece;
    ghost use Rattle.foreign_parts.specs.contracts.output.Fate as fate;

    ghost Value = { Standing Q };

    ghost coded = { Prim.hlevel (codes, Q.code, tree.the_row.coded, piece.the_row.coded, fate.the_row.coded) };

    ghost view = { λ s. record {
      peer = s.peer;
      target = target_of s.settings;
      kept = record { events = s.kept; settled = s.settled };
      held = s.held;
      bad = s.bad;
      last_bad = s.last_bad.items;
      laters = s.laters;
      closes = s.closes;
    } };

    ghost invariant = { λ s. IsKept (target_of s.settings) (Q.asked s.peer)
        (record { events = s.kept; settled = s.settled }) };
}

impl<Q: Peer> Bulk<Q> {
    ghost use Rattle.std.specs.Prelude.{length, map, OnOk, OnErr, IfOk};
    ghost use Rattle.io_traits.specs.Counts.{HasCause};
    ghost use Rattle.foreign_parts.specs.Delivering.{Delivers, HadFault, WasLater, taken};
    ghost use Rattle.out_bulk.specs.Batches.{Kept, nothing_kept, Begins, IsKept};
    ghost use Rattle.out_bulk.specs.Deliveries.{AllWitnessed, Answers as Answered};
    ghost use Rattle.out_bulk.specs.Exchanges.{IsFailed, Sends};
    ghost use Rattle.out_bulk.specs.Fates.{filled, open_in, settled_by};
    ghost use Rattle.out_bulk.specs.Settings.{bulk_refusal, bulk_of, target_of};
    ghost use Rattle.out_bulk.specs.Steps.{IsConfigured, Settling, WasAnswered};
    ghost use Rattle.out_bulk.specs.Written.{IsRequest};

    /// An output over a peer. It was set to nothing so far, and doesn't tell what it holds.
    pub fn new(alloc: Global, peer: Q) -> Bulk<Q>
        ensures { result ≡ record {
          peer = peer;
          target = target_of None;
          kept = nothing_kept;
          held = None;
          bad = 0;
          last_bad = [];
          laters = 0;
          closes = 0;
        } }
    {
        Bulk {
            alloc,
            peer,
            settings: None,
            kept: Events::new(alloc),
            settled: Items::new(alloc),
            held: None,
            bad: 0,
            last_bad: Vec::new(alloc),
            laters: 0,
            closes: 0,
        }
    }

    /// The same output, which from now on keeps the events that it took, and tells them. It holds none so far.
    pub fn telling(mut self) -> Bulk<Q>
        ensures { result ≡ record self { held = Some [] } }
    {
        self.held = Some(Events::new(self.alloc));
        self
    }

    /// The peer that it asks.
    pub fn peer(&self) -> &Q
        ensures { result.now ≡ self.now.peer }
    {
        &self.peer
    }

    /// How many replies were neither good nor of another status than 200, up to the last value of u64.
    pub fn bad_replies(&self) -> u64
        ensures { result ≡ self.now.bad }
    {
        self.bad
    }

    /// The last of these replies.
    pub fn last_bad_reply(&self) -> &[u8]
        ensures { result.now ≡ self.now.last_bad }
    {
        &self.last_bad
    }

    /// How often it put a batch off, up to the last value of u64.
    pub fn laters(&self) -> u64
        ensures { result ≡ self.now.laters }
    {
        self.laters
    }

    /// Reads the settings of the plugin that it is to be. Where it takes them it forgets what was settled of a batch; where it
    /// doesn't it is as it was.
    pub fn configure(&mut self, settings: &Settings) -> Result<(), FromFault>
        ensures answers { Answers result (bulk_refusal settings.now.list) }
        ensures ok { OnOk result (IsConfigured settings.now.list self.old self.new) }
        ensures err { OnErr result (self.new ≡ self.old) }
    {
        let read = BulkSettings::from_settings(settings)?;
        self.settings = Some(read);
        self.kept.clear();
        self.settled.clear();
        Ok(())
    }

    /// Sends events that aren't settled by one request, and says what became of all of them.
    ///
    /// It answers `Took` where each is settled: it was taken, or rejected with 400 or 404. Where the reply has another status
    /// than 200, or says of an event anything else, it answers `Later` and keeps what is settled, so that a call with the same events
    /// sends the others alone; other events forget it. A reply that isn't good otherwise, and a fault of the peer, is `Failed`.
    pub fn deliver(&mut self, events: &[Event]) -> Result<Delivery, DeliverFault>
        ensures answered { (start : Kept) × Begins events.now self.old.kept start
            × Answered Q.asked events.now self.old self.new start result }
        ensures witnessed { AllWitnessed result self.old.target (Q.asked self.new.peer) events.now }
        ensures target { self.new.target ≡ self.old.target }
        ensures held { Delivers result events.now self.old.held self.new.held }
        ensures faults { HasCause (Q.faults self.old.peer + self.old.bad)
            (Q.faults self.new.peer + self.new.bad) (HadFault result) }
        ensures laters { HasCause self.old.laters self.new.laters (WasLater result) }
        ensures closes { self.new.closes ≡ self.old.closes }
    {
        self.begin(events);
        let request = self.request(events)?;
        let reply = self.ask(&request.bytes)?;
        match read_reply(self.alloc, &reply, request.count)? {
            Reply::Good(said) => Ok(self.settle(events, said.as_slice())?),
            Reply::Other(_) => Ok(self.put_off()),
            Reply::Bad => Err(self.keep_bad(reply)),
        }
    }

    // Forgets what is settled of other events.
    fn begin(&mut self, events: &[Event])
        ensures kept { Begins events.now self.old.kept self.new.kept }
        ensures same { self.new ≡ record self.old { kept = self.new.kept } }
        ensures of_these { IsKept self.new.target (Q.asked self.new.peer)
            (record { events = events.now; settled = self.new.kept.settled }) }
    {
        if !are_same(self.kept.as_slice(), events) {
            self.kept.clear();
            self.settled.clear();
        }
    }

    fn request(&self, events: &[Event]) -> Result<Request, AllocError>
        ensures { IfOk result (IsRequest self.now.target
            (open_in events.now self.now.kept.settled)) }
    {
        request_to(self.alloc, &self.settings, events, self.settled.as_slice())
    }

    // Sends a request, and gives the reply.
    fn ask(&mut self, request: &[u8]) -> Result<Vec<u8>, DeliverFault>
        ensures asked { Sends result self.old.target.host request.now (Q.asked self.old.peer)
            (Q.asked self.new.peer) }
        ensures faults { HasCause (Q.faults self.old.peer) (Q.faults self.new.peer)
            (IsFailed result) }
        ensures same { self.new ≡ record self.old { peer = self.new.peer } }
    {
        let mut reply = Vec::new(self.alloc);
        self.peer.ask(host_of(&self.settings), request, &mut reply)?;
        Ok(reply)
    }

    // What became of events, by what is said of those that weren't settled.
    fn settle(&mut self, events: &[Event], said: &[ItemResult]) -> Result<Delivery, AllocError>
        requires { WasAnswered Q.asked events.now self.old said.now }
        ensures { Settling events.now (filled self.old.kept.settled (map settled_by said.now))
            self.old self.new result }
    {
        let settled = fill(self.alloc, self.settled.as_slice(), said)?;
        match all_settled(self.alloc, settled.as_slice())? {
            Some(fates) => {
                self.hold(events, fates.as_slice())?;
                self.kept.clear();
                self.settled.clear();
                Ok(Delivery::Took(fates))
            }
            None => {
                self.kept = copies(self.alloc, events)?;
                self.settled = settled;
                Ok(self.put_off())
            }
        }
    }

    // Keeps the events that were taken, where it tells them.
    fn hold(&mut self, events: &[Event], fates: &[Fate]) -> Result<(), AllocError>
        ensures ok { OnOk result (self.new ≡ record self.old {
          held = option_map (λ held. held ++ taken fates.now events.now) self.old.held;
        }) }
        ensures err { OnErr result (self.new ≡ self.old) }
    {
        match &mut self.held {
            Some(held) => held.append(taken(self.alloc, events, fates)?),
            None => Ok(()),
        }
    }

    fn put_off(&mut self) -> Delivery
        ensures answer { result ≡ Delivery.Later }
        ensures state { self.new ≡ record self.old { laters = one_more self.old.laters } }
    {
        self.laters = self.laters.saturating_add(1);
        Delivery::Later
    }

    fn keep_bad(&mut self, reply: Vec<u8>) -> DeliverFault
        ensures answer { result ≡ DeliverFault.Failed }
        ensures state { self.new ≡ record self.old {
          bad = one_more self.old.bad;
          last_bad = reply.items;
        } }
    {
        self.bad = self.bad.saturating_add(1);
        self.last_bad = reply;
        DeliverFault::Failed
    }

    /// Its last call.
    pub fn close(&mut self)
        ensures { self.new ≡ record self.old { closes = one_more self.old.closes } }
    {
        self.closes = self.closes.saturating_add(1);
    }
}
