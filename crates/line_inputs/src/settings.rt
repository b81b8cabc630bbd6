// What the settings of inputs mean: how events are made of lines, and which lines a generator gives.
ghost use Rattle.std.specs.Prelude.{◌≡◌, IfOk};
ghost use Rattle.line_inputs.specs.Settings as spec;

use event_text::Options;
use in_lines::{EventSettings, GeneratedLines, Generator};
use plain_data::{Items, Names};
use plugin_settings::{GeneratorSettings, InputSettings};
use std::alloc::{AllocError, Global};
use std::mem;

/// How an input of these settings makes events, which are moved out of them. Takes no memory.
pub fn event_settings(alloc: Global, settings: &mut InputSettings) -> EventSettings
    ensures { result ≡ spec.settings_of settings.old }
{
    let mut options = Options::none(alloc);
    options.add_field = mem::replace(&mut settings.add_field, Items::new(alloc));
    options.add_tag = mem::replace(&mut settings.tags, Items::new(alloc));
    EventSettings {
        codec: settings.codec,
        event_type: settings.event_type.take(),
        options,
    }
}

/// The generator of these settings, which are moved out of them.
pub fn generator(alloc: Global, settings: &mut GeneratorSettings) -> Result<Generator, AllocError>
    ensures { IfOk result (λ made. made ≡ spec.generator_of settings.old) }
{
    let lines = generated_lines(alloc, settings)?;
    Ok(Generator {
        lines,
        count: settings.count,
        settings: event_settings(alloc, &mut settings.common),
    })
}

fn generated_lines(
    alloc: Global,
    settings: &mut GeneratorSettings,
) -> Result<GeneratedLines, AllocError>
    ensures lines { IfOk result (λ lines. lines
        ≡ spec.lines_of settings.old.sample settings.old.lines settings.old.message) }
    ensures count { settings.new.count ≡ settings.old.count }
    ensures common { settings.new.common ≡ settings.old.common }
{
    if let Some(from) = settings.sample {
        return Ok(GeneratedLines::Sample(from));
    }
    if let Some(texts) = settings.lines.take() {
        return Ok(GeneratedLines::Texts(texts));
    }
    let mut texts = Names::new(alloc);
    texts.push(settings.message.copy()?)?;
    Ok(GeneratedLines::Texts(texts))
}
