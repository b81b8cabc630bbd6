//! The settings of the one pipeline that a command line itself names, and the folder of a pipeline.

ghost use Rattle.std.specs.Prelude.{◌≡◌, IfOk};
ghost use Rattle.settings_lines.specs.Own as spec;

use crate::orders::{ConfigSource, Orders};
use crate::settings::PipelineSettings;
use crate::values::Values;
use plain_data::Text;
use std::alloc::AllocError;

impl ConfigSource {
    /// The same again.
    pub fn copy(&self) -> Result<ConfigSource, AllocError>
        ensures { IfOk result (λ copy. copy ≡ self.now) }
    {
        Ok(match self {
            ConfigSource::Text(text) => ConfigSource::Text(text.copy()?),
            ConfigSource::Path(path) => ConfigSource::Path(path.copy()?),
            ConfigSource::Sample(events) => ConfigSource::Sample(*events),
            ConfigSource::Pipelines => ConfigSource::Pipelines,
        })
    }
}

impl Orders {
    /// The settings of the one pipeline that the words themselves name: its id, its workers and its batches by the words,
    /// where its configuration is, and else what an entry of `pipelines.yml` has that names no key.
    pub fn own_pipeline(&self) -> Result<PipelineSettings, AllocError>
        ensures { IfOk result (λ settings. settings ≡ spec.own_settings self.now) }
    {
        let alloc = self.path_data.allocator();
        let mut settings = Values::new(alloc).settings(alloc, self)?;
        settings.pipeline_id = self.pipeline_id.copy()?;
        settings.source = self.source.copy()?;
        Ok(settings)
    }
}

impl PipelineSettings {
    /// The folder of the pipeline, `<path.data>/<id>/`, in which its queue, its dead letters and its positions stand.
    pub fn folder(&self) -> Result<Text, AllocError>
        ensures { IfOk result (λ folder. folder ≡ spec.folder_of self.now) }
    {
        let alloc = self.path_data.allocator();
        let data = self.path_data.as_str();
        let id = self.pipeline_id.as_str();
        Ok(Text::from_string(format!(in alloc; "{data}/{id}/")?))
    }
}
