// Kits: what one worker has to run a configuration.

ghost use Rattle.std.specs.Prelude.{◌≡◌, ◌<◌, length, slice_get, slice_set, IfOk, IfErr, Ok, Some, false};
ghost use Rattle.event_tree.specs.Paths.{over};
ghost use Rattle.event_flow.specs.Laying.{IsTableOf};
ghost use Rattle.filter_settings.specs.Settings.{Refuses};
ghost use Rattle.plugin_graph.specs.Counts.{patterns_in};
ghost use Rattle.plugin_graph.specs.Graphs.{contents_of, boxes_in, built_in};
ghost use Rattle.plugin_graph.specs.Kits.{table_of, no_boxes};
ghost use Rattle.built_plugins.specs.Makes.{is_boxed, makes};
ghost use Rattle.plugin_graph.specs.Loads.{loaded};

use crate::counting::count_patterns;
use crate::loading::load;
use crate::parts::Parts;
use config_tree::{Config, FromFault};
use plain_data::Text;
use std::alloc::Global;
use std::mem;

/// All that one worker has to run a configuration: filters with their settings read, conditions with
/// their patterns, outputs with their places, and boxes.
#[derive(Drop)]
pub struct Kit<X> {
    pub(crate) parts: Parts<X>,
    pub(crate) built: u64,
}

impl<X: Drop> Kit<X> {
    /// A kit of a configuration, with the numbers that were drawn for the ids of its boxed outputs.
    /// The fault is that of the first setting of a filter that is refused, and else `BadPattern` of
    /// `condition` where the text of a condition is no pattern.
    pub fn new(alloc: Global, config: &Config, draws: &[(Text, u64)]) -> Result<Kit<X>, FromFault>
        ensures loaded { IfOk result
            (λ kit. loaded draws.now config.now ≡ Ok (contents_of kit)) }
        ensures refused { IfErr result (λ fault. Refuses fault (loaded draws.now config.now)) }
        ensures table { IfOk result
            (λ kit. IsTableOf makes config.now draws.now (table_of (contents_of kit))) }
        ensures boxes { IfOk result
            (λ kit. boxes_in kit ≡ no_boxes (contents_of kit).filters) }
        ensures built { IfOk result (λ kit. built_in kit ≡ patterns_in (contents_of kit)) }
    {
        let parts = load(alloc, config, draws)?;
        let built = count_patterns(&parts)?;
        Ok(Kit { parts, built })
    }

    /// Puts this in the place of the box of a filter, by the filter's number from 0 on, and hands out
    /// what stood there. A kit has no box at first, and a boxed filter without one answers as where
    /// memory ran out.
    pub fn replace_box(&mut self, at: usize, plugged: Option<X>) -> Option<X>
        requires { at < length (contents_of self.old).filters }
        ensures out { slice_get (boxes_in self.old) at ≡ Some result }
        ensures boxes { boxes_in self.new ≡ slice_set (boxes_in self.old) at plugged }
        ensures contents { contents_of self.new ≡ contents_of self.old }
        ensures built { built_in self.new ≡ built_in self.old }
    {
        match self.parts.filters.get_mut(at) {
            Some(filter) => mem::replace(&mut filter.plugged, plugged),
            None => plugged,
        }
    }

    /// How many filters it has.
    pub fn filters(&self) -> usize
        ensures { result ≡ length (contents_of self.now).filters }
    {
        self.parts.filters.len()
    }

    /// Whether the filter of a number, from 0 on, is a boxed one.
    pub fn wants_box(&self, at: usize) -> bool
        ensures { result ≡ over is_boxed false (slice_get (contents_of self.now).filters at) }
    {
        match self.parts.filters.get(at) {
            Some(filter) => filter.filter.is_boxed(),
            None => false,
        }
    }

    /// How many filters and patterns were read from text through this kit.
    pub fn built(&self) -> u64
        ensures { result ≡ built_in self.now }
    {
        self.built
    }
}
