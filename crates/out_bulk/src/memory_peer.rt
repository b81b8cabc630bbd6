// A peer that gives listed replies and keeps the requests that it was sent.
ghost use Rattle.std.specs.Prelude.{◌≡◌, [], Some, IfOk, IsErr, IsTrue, OnOk, drop, map};
ghost use Rattle.io_memory.specs.Scripts.{CountsFault, fails_next};
ghost use Rattle.out_bulk.specs.Exchanges.{HasFailed};
ghost use Rattle.out_bulk.specs.MemoryPeers.{after_ask, bytes_of, exchange_of, next_reply};

use crate::peer::{Peer, PeerFault};
use io_memory::Script;
use plain_data::Text;
use std::alloc::{AllocError, Global};
use std::marker::Model;

/// A request that a peer in memory was sent.
#[derive(Drop)]
pub struct PeerRequest {
    pub host: Text,
    pub request: Vec<u8>,
    /// The reply; none where the call failed.
    pub reply: Option<Vec<u8>>,
}

/// A peer that gives replies from a list, one to each call that doesn't fail, and empty ones once the list is at its end. It keeps
/// the requests that it was sent, and tells them.
#[derive(Drop)]
pub struct MemoryPeer {
    alloc: Global,
    replies: Vec<Vec<u8>>,
    next: usize,
    asked: Vec<PeerRequest>,
    script: Script,
}

impl Model for MemoryPeer {
    ghost use Rattle.std.specs.Prelude.{◌≤◌, drop, map, vec_len};
    ghost use Rattle.out_bulk.specs.MemoryPeers.{Replying, bytes_of, exchange_of};

    ghost Value = { Replying };

    ghost view = { λ s. record {
      asked = map exchange_of s.asked.items;
      left = map bytes_of (drop s.next s.replies.items);
      script = s.script;
    } };

    ghost invariant = { λ s. s.next ≤ vec_len s.replies };
}

impl MemoryPeer {
    /// A peer that gives these replies. The calls that its script names fail; reads are none of it.
    pub fn new(alloc: Global, replies: Vec<Vec<u8>>, script: Script) -> MemoryPeer
        ensures { result ≡ record { asked = []; left = map bytes_of replies.items; script = script } }
    {
        MemoryPeer {
            alloc,
            replies,
            next: 0,
            asked: Vec::new(alloc),
            script,
        }
    }

    /// The requests that it was sent, in their order.
    pub fn asked(&self) -> &[PeerRequest]
        ensures { map exchange_of result.now ≡ self.now.asked }
    {
        &self.asked
    }

    /// Its script, which counts the calls and the faults.
    pub fn script(&self) -> &Script
        ensures { result.now ≡ self.now.script }
    {
        &self.script
    }

    /// Keeps a request, and gives the next reply. It fails where its script names the call. Without memory it is as it was.
    pub fn ask(&mut self, host: &str, request: &[u8], reply: &mut Vec<u8>) -> Result<(), PeerFault>
        ensures named { IsTrue (fails_next self.old.script) → IsErr result }
        ensures failed { HasFailed result → IsTrue (fails_next self.old.script) }
        ensures reply { OnOk result (reply.new.items ≡ next_reply self.old) }
        ensures state { self.new ≡ after_ask self.old host.now request.now result }
        ensures cause { CountsFault self.old.script self.new.script (HasFailed result) }
    {
        let mut asked = self.answered(host, request)?;
        reply.clear();
        reply.extend_from_slice(self.next())?;
        self.asked.reserve(1)?;
        if self.script.begin().is_err() {
            asked.reply = None;
            self.asked.push_reserved(asked);
            return Err(PeerFault::Failed);
        }
        self.asked.push_reserved(asked);
        self.pass();
        Ok(())
    }

    // The request with the next reply.
    fn answered(&self, host: &str, request: &[u8]) -> Result<PeerRequest, AllocError>
        ensures { IfOk result (λ asked. exchange_of asked
            ≡ record { host = host.now; request = request.now; reply = Some (next_reply self.now) }) }
    {
        Ok(PeerRequest {
            host: Text::of(self.alloc, host)?,
            request: Vec::from_slice(self.alloc, request)?,
            reply: Some(Vec::from_slice(self.alloc, self.next())?),
        })
    }

    fn next(&self) -> &[u8]
        ensures { result.now ≡ next_reply self.now }
    {
        match self.replies.get(self.next) {
            Some(reply) => reply,
            None => &[],
        }
    }

    #[tactic(auto, using(crate::proofs::Remembering::behind))]
    fn pass(&mut self)
        ensures { self.new ≡ record self.old { left = drop 1 self.old.left } }
    {
        if self.next < self.replies.len() {
            self.next += 1;
        }
    }
}

impl Peer for MemoryPeer {
    ghost asked = { λ s. Some s.asked };

    ghost faults = { λ s. s.script.faults };

    #[tactic(auto, using(crate::proofs::Remembering::asks))]
    fn ask(&mut self, host: &str, request: &[u8], reply: &mut Vec<u8>) -> Result<(), PeerFault> {
        self.ask(host, request, reply)
    }
}
