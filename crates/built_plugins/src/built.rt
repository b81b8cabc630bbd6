// Filters that are built in, by their names.

ghost use Rattle.std.specs.Prelude.{◌≡◌, IfOk};
ghost use Rattle.filter_settings.specs.Settings.{Gives};
ghost use Rattle.filters_date.specs.Dates.{date_of};
ghost use Rattle.filters_grok.specs.Grok.{grok_of};
ghost use Rattle.filters_mutate.specs.Settings.{mutate_of};
ghost use Rattle.filters_shape.specs.Clone.{clone_of};
ghost use Rattle.filters_shape.specs.Drops.{drop_of};
ghost use Rattle.filters_shape.specs.Split.{split_of};
ghost use Rattle.filters_text.specs.Csv.{csv_of};
ghost use Rattle.filters_text.specs.Json.{json_of};
ghost use Rattle.filters_text.specs.Kv.{kv_of};
ghost use Rattle.built_plugins.specs.Makes as spec;
ghost use Rattle.built_plugins.specs.declared.built.BuiltFilter.TheVariants as built;

use config_tree::{Plugin, Settings};
use event_tree::Event;
use filter_settings::{Applied, FromFault};
use filters_date::DateFilter;
use filters_grok::Grok;
use filters_mutate::Mutate;
use filters_shape::{CloneFilter, DropFilter, SplitFilter};
use filters_text::{Csv, Json, Kv};
use std::alloc::AllocError;

/// A filter that is built in, with its settings read and its patterns compiled.
pub enum BuiltFilter {
    Mutate(Mutate),
    Clone(CloneFilter),
    Split(SplitFilter),
    Drop(DropFilter),
    Grok(Grok),
    Json(Json),
    Kv(Kv),
    Csv(Csv),
    Date(DateFilter),
}

// Written out, so that it is one call wherever an error is handed on while a filter is held.
impl Drop for BuiltFilter {
    fn drop(self) {
        match self {
            BuiltFilter::Mutate(_filter) => {}
            BuiltFilter::Clone(_filter) => {}
            BuiltFilter::Split(_filter) => {}
            BuiltFilter::Drop(_filter) => {}
            BuiltFilter::Grok(_filter) => {}
            BuiltFilter::Json(_filter) => {}
            BuiltFilter::Kv(_filter) => {}
            BuiltFilter::Csv(_filter) => {}
            BuiltFilter::Date(_filter) => {}
        }
    }
}

impl BuiltFilter {
    /// The filter of a plugin's name, by its settings; none where no filter of that name is built in.
    /// The fault is the one that the filter's own `from_settings` gives.
    #[tactic(auto, unfolding(crate::specs::Makes::built_of))]
    pub fn from_plugin(plugin: &Plugin) -> Result<Option<BuiltFilter>, FromFault>
        ensures { Gives result (spec.built_of plugin.now.name plugin.now.settings.list) }
    {
        let settings = &plugin.settings;
        match plugin.name.as_str() {
            "mutate" => mutate_filter(settings),
            "clone" => clone_filter(settings),
            "split" => split_filter(settings),
            "drop" => drop_filter(settings),
            "grok" => grok_filter(settings),
            "json" => json_filter(settings),
            "kv" => kv_filter(settings),
            "csv" => csv_filter(settings),
            "date" => date_filter(settings),
            _ => Ok(None),
        }
    }

    /// What the filter makes of an event.
    #[tactic(auto, unfolding(crate::specs::Makes::applied))]
    pub fn apply(&mut self, event: Event) -> Result<Applied, AllocError>
        ensures applied { IfOk result (λ applied. applied ≡ spec.applied self.old event) }
        ensures same { self.new ≡ self.old }
    {
        match self {
            BuiltFilter::Mutate(filter) => filter.apply(event),
            BuiltFilter::Clone(filter) => filter.apply(event),
            BuiltFilter::Split(filter) => filter.apply(event),
            BuiltFilter::Drop(filter) => filter.apply(event),
            BuiltFilter::Grok(filter) => filter.apply(event),
            BuiltFilter::Json(filter) => filter.apply(event),
            BuiltFilter::Kv(filter) => filter.apply(event),
            BuiltFilter::Csv(filter) => filter.apply(event),
            BuiltFilter::Date(filter) => filter.apply(event),
        }
    }
}

fn mutate_filter(settings: &Settings) -> Result<Option<BuiltFilter>, FromFault>
    ensures { Gives result (spec.built_as built.Mutate (mutate_of settings.now.list)) }
{
    Ok(Some(BuiltFilter::Mutate(Mutate::from_settings(settings)?)))
}

fn clone_filter(settings: &Settings) -> Result<Option<BuiltFilter>, FromFault>
    ensures { Gives result (spec.built_as built.Clone (clone_of settings.now.list)) }
{
    Ok(Some(BuiltFilter::Clone(CloneFilter::from_settings(settings)?)))
}

fn split_filter(settings: &Settings) -> Result<Option<BuiltFilter>, FromFault>
    ensures { Gives result (spec.built_as built.Split (split_of settings.now.list)) }
{
    Ok(Some(BuiltFilter::Split(SplitFilter::from_settings(settings)?)))
}

fn drop_filter(settings: &Settings) -> Result<Option<BuiltFilter>, FromFault>
    ensures { Gives result (spec.built_as built.Drop (drop_of settings.now.list)) }
{
    Ok(Some(BuiltFilter::Drop(DropFilter::from_settings(settings)?)))
}

fn grok_filter(settings: &Settings) -> Result<Option<BuiltFilter>, FromFault>
    ensures { Gives result (spec.built_as built.Grok (grok_of settings.now.list)) }
{
    Ok(Some(BuiltFilter::Grok(Grok::from_settings(settings)?)))
}

fn json_filter(settings: &Settings) -> Result<Option<BuiltFilter>, FromFault>
    ensures { Gives result (spec.built_as built.Json (json_of settings.now.list)) }
{
    Ok(Some(BuiltFilter::Json(Json::from_settings(settings)?)))
}

fn kv_filter(settings: &Settings) -> Result<Option<BuiltFilter>, FromFault>
    ensures { Gives result (spec.built_as built.Kv (kv_of settings.now.list)) }
{
    Ok(Some(BuiltFilter::Kv(Kv::from_settings(settings)?)))
}

fn csv_filter(settings: &Settings) -> Result<Option<BuiltFilter>, FromFault>
    ensures { Gives result (spec.built_as built.Csv (csv_of settings.now.list)) }
{
    Ok(Some(BuiltFilter::Csv(Csv::from_settings(settings)?)))
}

fn date_filter(settings: &Settings) -> Result<Option<BuiltFilter>, FromFault>
    ensures { Gives result (spec.built_as built.Date (date_of settings.now.list)) }
{
    Ok(Some(BuiltFilter::Date(DateFilter::from_settings(settings)?)))
}
