//! The keys of an entry with their values, and the settings that they make.

ghost use Rattle.std.specs.Prelude.{◌≡◌, [], IfOk, OnOk, option_map, find, bytes_eq};
ghost use Rattle.settings_lines.specs.Values as spec;
ghost use Rattle.settings_lines.specs.Pairs.{pair_view, text_in, values_view};

use crate::lines::Pair;
use crate::numbers::{size_in, small_number_in};
use crate::orders::{ConfigSource, Orders};
use crate::settings::{PipelineSettings, Policy};
use crate::table::value_test;
use plain_data::Text;
use std::alloc::{AllocError, Global};

/// The keys of an entry with their values, in the order of the lines. Each key of the table stands once at most.
#[derive(Drop)]
pub(crate) struct Values<'a> {
    pub(crate) pairs: Vec<Pair<'a>>,
}

impl<'a> Values<'a> {
    pub(crate) fn new(alloc: Global) -> Values<'a>
        ensures { values_view result ≡ [] }
    {
        Values {
            pairs: Vec::new(alloc),
        }
    }

    /// The value of a key, where it stands.
    pub(crate) fn get(&self, key: &str) -> Option<&'a str>
        ensures { text_in result ≡ spec.value_at key.now (values_view self.now) }
    {
        match self.pair_at(key) {
            Some(pair) => Some(pair.scalar),
            None => None,
        }
    }

    fn pair_at(&self, key: &str) -> Option<&Pair<'a>>
        ensures { option_map (λ pair. pair.now) result
            ≡ find (λ pair. bytes_eq pair.key.now key.now) self.now.pairs.items }
    {
        self.pairs.iter().find(|pair| pair.key == key)
    }

    pub(crate) fn stands(&self, key: &str) -> bool
        ensures { result ≡ spec.stands key.now (values_view self.now) }
    {
        self.get(key).is_some()
    }

    /// Adds the key of a line, where it is one of the table and doesn't stand yet.
    pub(crate) fn add(&mut self, pair: Pair<'a>) -> Result<(), AllocError>
        ensures { OnOk result
            (values_view self.new ≡ spec.with_pair (values_view self.old) (pair_view pair.entry)) }
    {
        if !self.stands(pair.key) && value_test(pair.key, pair.scalar).is_some() {
            self.pairs.push(pair)?;
        }
        Ok(())
    }

    /// The settings of an entry, with the defaults of what doesn't stand.
    #[tactic(auto, unfolding(crate::specs::Values::settings_of))]
    pub(crate) fn settings(
        &self,
        alloc: Global,
        orders: &Orders,
    ) -> Result<PipelineSettings, AllocError>
        ensures { IfOk result
            (λ settings. settings ≡ spec.settings_of orders.now (values_view self.now)) }
    {
        Ok(PipelineSettings {
            pipeline_id: text_or_empty(alloc, self.get("pipeline.id"))?,
            path_data: orders.path_data.copy()?,
            source: source(alloc, self.get("config.string"), self.get("path.config"))?,
            workers: number_or(self.get("pipeline.workers"), 1, 64, orders.workers),
            batch: number_or(self.get("pipeline.batch.size"), 1, 10_000, orders.batch),
            page_capacity: size_or(self.get("queue.page_capacity"), 1, 67_108_864),
            max_bytes: size_or(self.get("queue.max_bytes"), 1, 1_073_741_824),
            checkpoint_writes: number_or(self.get("queue.checkpoint.writes"), 1, 1_000_000, 1024),
            checkpoint_acks: number_or(self.get("queue.checkpoint.acks"), 1, 1_000_000, 1024),
            drain: switch_of(self.get("queue.drain")),
            dead_max_bytes: size_or(self.get("dead_letter_queue.max_bytes"), 0, 1_073_741_824),
            storage_policy: policy_of(self.get("dead_letter_queue.storage_policy")),
        })
    }
}

fn text_or_empty(alloc: Global, value: Option<&str>) -> Result<Text, AllocError>
    ensures { IfOk result (λ text. text ≡ spec.text_or [] (text_in value.entry)) }
{
    Text::of(alloc, value.unwrap_or(""))
}

fn source(alloc: Global, text: Option<&str>, path: Option<&str>) -> Result<ConfigSource, AllocError>
    ensures { IfOk result
        (λ source. source ≡ spec.source_of (text_in text.entry) (text_in path.entry)) }
{
    match text {
        Some(text) => Ok(ConfigSource::Text(Text::of(alloc, text)?)),
        None => Ok(ConfigSource::Path(text_or_empty(alloc, path)?)),
    }
}

fn number_or(value: Option<&str>, low: u32, high: u32, default: u32) -> u32
    ensures { result ≡ spec.number_or default low high (text_in value.entry) }
{
    match value {
        Some(text) => small_number_in(text, low, high).unwrap_or(default),
        None => default,
    }
}

fn size_or(value: Option<&str>, low: u64, default: u64) -> u64
    ensures { result ≡ spec.size_or default low (text_in value.entry) }
{
    match value {
        Some(text) => size_in(text, low).unwrap_or(default),
        None => default,
    }
}

fn switch_of(value: Option<&str>) -> bool
    ensures { result ≡ spec.switch_of (text_in value.entry) }
{
    match value {
        Some(text) => text == "true",
        None => false,
    }
}

fn policy_of(value: Option<&str>) -> Policy
    ensures { result ≡ spec.policy_of (text_in value.entry) }
{
    match value {
        Some("drop_newer") => Policy::DropNewer,
        Some("drop_older") => Policy::DropOlder,
        _ => Policy::Hold,
    }
}
