//! The keys of `pipelines.yml`, with the ranges of their values.

ghost use Rattle.std.specs.Prelude.{◌≡◌};
ghost use Rattle.settings_lines.specs.Table as spec;

use crate::numbers::{are_digits, is_id, number_in, size_in};

/// Whether a value is in the range of its key; none where the key is none of the table.
#[tactic(auto, unfolding(crate::specs::Table::value_test))]
pub(crate) fn value_test(key: &str, value: &str) -> Option<bool>
    ensures { result ≡ spec.value_test key.now value.now }
{
    match key {
        "pipeline.id" => Some(is_id(value)),
        "path.config" => Some(true),
        "config.string" => Some(true),
        "pipeline.workers" => Some(is_number(value, 1, 64)),
        "pipeline.batch.size" => Some(is_number(value, 1, 10_000)),
        "pipeline.batch.delay" => Some(is_digits(value)),
        _ => queue_test(key, value),
    }
}

fn queue_test(key: &str, value: &str) -> Option<bool>
    ensures { result ≡ spec.queue_test key.now value.now }
{
    match key {
        "queue.type" => Some(value == "persisted"),
        "queue.page_capacity" => Some(is_size(value, 1)),
        "queue.max_bytes" => Some(is_size(value, 1)),
        "queue.checkpoint.writes" => Some(is_number(value, 1, 1_000_000)),
        "queue.checkpoint.acks" => Some(is_number(value, 1, 1_000_000)),
        "queue.drain" => Some(is_switch(value)),
        _ => dead_letter_test(key, value),
    }
}

fn dead_letter_test(key: &str, value: &str) -> Option<bool>
    ensures { result ≡ spec.dead_letter_test key.now value.now }
{
    match key {
        "dead_letter_queue.enable" => Some(value == "true"),
        "dead_letter_queue.max_bytes" => Some(is_size(value, 0)),
        "dead_letter_queue.storage_policy" => Some(is_policy(value)),
        _ => None,
    }
}

fn is_number(value: &str, low: u64, high: u64) -> bool
    ensures { result ≡ spec.is_number low high value.now }
{
    number_in(value, low, high).is_some()
}

fn is_size(value: &str, low: u64) -> bool
    ensures { result ≡ spec.is_size low value.now }
{
    size_in(value, low).is_some()
}

fn is_digits(value: &str) -> bool
    ensures { result ≡ spec.is_digits value.now }
{
    !value.is_empty() && are_digits(value.as_bytes())
}

fn is_switch(value: &str) -> bool
    ensures { result ≡ spec.is_switch value.now }
{
    value == "true" || value == "false"
}

fn is_policy(value: &str) -> bool
    ensures { result ≡ spec.is_policy value.now }
{
    value == "hold" || value == "drop_newer" || value == "drop_older"
}
