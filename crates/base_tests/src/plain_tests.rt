//! What holds of calls that want nothing but memory.

use crate::boxed_tests::is_boxed;
use crate::instant_tests::are_instants;
use crate::memory_links_tests::give_in_turn;
use crate::{frame_tests, line_tests, memory_tests, pattern_tests, plain_data_tests};
use std::alloc::{AllocError, Global};
use std::test::Fail;

#[derive(Clone, Copy)]
enum Claim {
    BoxIsValue,
    InstantsOfYears,
    TextsByBytes,
    TextsAsStrings,
    ItemsChanged,
    ItemsTaken,
    FieldsByKeys,
    FieldsFound,
    FieldsCopied,
    LinesHoweverCut,
    TextOfBytes,
    KnownCrcs,
    FramesRead,
    FramesRefused,
    NewestSlot,
    FirstSpans,
    Replaced,
    LongPatterns,
    LargePatterns,
    Source,
    Sink,
    Clock,
    EmptyClock,
    Files,
    Control,
    Links,
}

const LAWS: [(&str, Claim); 26] = [
    ("a box is the value in it", Claim::BoxIsValue),
    (
        "instants are those of the years 1 to 9999",
        Claim::InstantsOfYears,
    ),
    ("texts are ordered by their bytes", Claim::TextsByBytes),
    ("texts are written as strings are", Claim::TextsAsStrings),
    ("items are changed in place", Claim::ItemsChanged),
    ("items are taken away", Claim::ItemsTaken),
    ("fields are ordered by their keys", Claim::FieldsByKeys),
    (
        "fields are read and written by their keys",
        Claim::FieldsFound,
    ),
    ("fields are copied", Claim::FieldsCopied),
    (
        "lines are the same however the input is cut",
        Claim::LinesHoweverCut,
    ),
    (
        "text replaces each byte that begins no character",
        Claim::TextOfBytes,
    ),
    ("computes known CRCs", Claim::KnownCrcs),
    ("reads frames back", Claim::FramesRead),
    ("refuses frames cut or changed", Claim::FramesRefused),
    ("finds the newest slot", Claim::NewestSlot),
    ("spans are those of the first match", Claim::FirstSpans),
    ("each match is replaced", Claim::Replaced),
    ("long and deep texts are refused", Claim::LongPatterns),
    (
        "a compiled form past the limit is want of memory",
        Claim::LargePatterns,
    ),
    ("a memory source answers by its script", Claim::Source),
    ("a memory sink keeps what it takes", Claim::Sink),
    ("a list clock gives its last moment again", Claim::Clock),
    ("an empty clock shows 1970", Claim::EmptyClock),
    ("memory files change between calls", Claim::Files),
    ("a list control goes on past its list", Claim::Control),
    ("memory links give their pieces in turn", Claim::Links),
];

fn holds(alloc: Global, held: Claim) -> Result<bool, AllocError> {
    match held {
        Claim::BoxIsValue => is_boxed(alloc),
        Claim::InstantsOfYears => Ok(are_instants()),
        Claim::TextsByBytes => plain_data_tests::are_sorted(alloc),
        Claim::TextsAsStrings => plain_data_tests::is_written(alloc),
        Claim::ItemsChanged => plain_data_tests::are_changed_in_place(alloc),
        Claim::ItemsTaken => plain_data_tests::are_taken(alloc),
        Claim::FieldsByKeys => plain_data_tests::are_ordered(alloc),
        Claim::FieldsFound => plain_data_tests::are_found_by_keys(alloc),
        Claim::FieldsCopied => plain_data_tests::are_copied(alloc),
        Claim::LinesHoweverCut => line_tests::are_found(alloc),
        Claim::TextOfBytes => line_tests::are_replaced(alloc),
        Claim::KnownCrcs => Ok(frame_tests::are_known()),
        Claim::FramesRead => frame_tests::are_read_back(alloc),
        Claim::FramesRefused => Ok(frame_tests::are_refused()),
        Claim::NewestSlot => Ok(frame_tests::are_found()),
        Claim::FirstSpans => pattern_tests::spans_are_first(alloc),
        Claim::Replaced => pattern_tests::each_is_replaced(alloc),
        Claim::LongPatterns => pattern_tests::are_refused(alloc),
        Claim::LargePatterns => Ok(pattern_tests::is_limited(alloc)),
        Claim::Source => memory_tests::source_is_scripted(alloc),
        Claim::Sink => memory_tests::sink_keeps_all(alloc),
        Claim::Clock => memory_tests::clock_repeats_its_last(alloc),
        Claim::EmptyClock => memory_tests::empty_clock_ticks(alloc),
        Claim::Files => memory_tests::files_change(alloc),
        Claim::Control => memory_tests::control_goes_on(alloc),
        Claim::Links => give_in_turn(alloc),
    }
}

#[test]
fn all_hold(rt: HostRuntime) -> Result<(), Fail> {
    for (name, held) in &LAWS {
        assert!(rt; holds(rt.alloc(), *held)?, "{name}");
    }
    Ok(())
}
