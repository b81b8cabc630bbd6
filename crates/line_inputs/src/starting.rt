// Inputs opened by their settings.
ghost use Rattle.std.specs.Prelude.{◌≡◌, [], false, None, Err, IsTrue, IfOk, IfSome, OnErr};
ghost use Rattle.io_traits.specs.Counts.{HasCause};
ghost use Rattle.io_traits.specs.Moments.{EachMoment, NowOrSynced};
ghost use Rattle.in_file.specs.Streams.{begun};
ghost use Rattle.io_traits.specs.Reads.{bytes_of};
ghost use Rattle.io_traits.specs.declared.queue_faults.Damage.{Damage as DamageValue};
ghost use Rattle.slot_files.specs.Positions.{recorded_in};
ghost use Rattle.in_file.specs.Openings.{IsDamaged};
ghost use Rattle.in_file.specs.declared.faults.OpenFault.TheVariants as o;
ghost use Rattle.in_lines.specs.declared.codec.Codec.TheVariants as codec;
ghost use Rattle.line_inputs.specs.Generating.{begun as generator_begun};
ghost use Rattle.line_inputs.specs.Openings.{AreOfPath, AreOpen, BeginsWith};
ghost use Rattle.line_inputs.specs.Positions.{AreReady};
ghost use Rattle.line_inputs.specs.Starting as spec;
ghost use Rattle.line_inputs.specs.Settings.{generator_of, plain_settings, plan_of, settings_of};
ghost use Rattle.line_inputs.specs.Sources.{connections_of, files_of};
ghost use Rattle.line_inputs.specs.declared.source.InputSource.TheVariants as source;

use crate::generated::GeneratedInput;
use crate::open_input::OpenInput;
use crate::opening::open_files;
use crate::settings::{event_settings, generator};
use crate::source::InputSource;
use event_text::Options;
use in_file::{FilePlan, OpenFault, StdinInput};
use in_lines::{Codec, EventSettings};
use in_tcp::TcpInput;
use io_traits::{Files, Store};
use plain_data::Names;
use plugin_settings::{FileInputSettings, GeneratorSettings, Input, InputSettings, TcpSettings};
use std::alloc::{AllocError, Global};

impl OpenInput {
    /// The input of standard input with these settings, which are moved out of them. Takes no memory.
    pub fn stdin(alloc: Global, settings: &mut InputSettings) -> OpenInput
        ensures { result ≡ record {
          source = source.Stdin (begun settings.old.codec);
          settings = settings_of settings.old;
          waiting = None;
          ended = false;
        } }
    {
        let input = StdinInput::new(alloc, settings.codec);
        OpenInput::of(
            alloc,
            InputSource::Stdin(input),
            event_settings(alloc, settings),
        )
    }

    /// A generator with these settings, which are moved out of them.
    pub fn generator(
        alloc: Global,
        settings: &mut GeneratorSettings,
    ) -> Result<OpenInput, AllocError>
        ensures { IfOk result (λ input. input ≡ record {
          source = source.Generated (generator_begun (generator_of settings.old));
          settings = plain_settings codec.Plain;
          waiting = None;
          ended = false;
        }) }
    {
        let input = GeneratedInput::new(alloc, generator(alloc, settings)?);
        let plain = plain_settings(alloc);
        Ok(OpenInput::of(alloc, InputSource::Generated(input), plain))
    }

    /// The input of connections with these settings, which are moved out of them. On its place nobody listens before its first poll.
    pub fn connections(alloc: Global, settings: &mut TcpSettings) -> Result<OpenInput, AllocError>
        ensures { IfOk result (λ input. input ≡ record {
          source = source.Connections (record {
            host = settings.old.host;
            port = settings.old.port;
            codec = settings.old.common.codec;
            connections = [];
            parts = [];
            looks = [];
          });
          settings = settings_of settings.old.common;
          waiting = None;
          ended = false;
        }) }
    {
        let host = settings.host.as_str();
        let input = TcpInput::start(alloc, host, settings.port, settings.common.codec)?;
        let changes = event_settings(alloc, &mut settings.common);
        Ok(OpenInput::of(alloc, InputSource::Connections(input), changes))
    }

    /// The input of the files that these settings name, which are moved out of them: opened as [`open_files`] has it.
    pub fn files<S: Store, F: Files>(
        alloc: Global,
        store: &mut S,
        files: &mut F,
        folder: &str,
        settings: &mut FileInputSettings,
        earlier: &mut Names,
    ) -> Result<OpenInput, OpenFault>
        ensures paths { IfOk result (λ input. AreOfPath F.Files folder.now settings.old.path
            earlier.old earlier.new files.old (files_of input.source)) }
        ensures earlier { OnErr result (BeginsWith earlier.old earlier.new) }
        ensures open { IfOk result (λ input. AreOpen S.Store F.Files folder.now
            (plan_of settings.old)
            store.old (files_of input.source)) }
        ensures settings { IfOk result (λ input. input.settings ≡ settings_of settings.old.common) }
        ensures waiting { IfOk result (λ input. input.waiting ≡ None) }
        ensures ended { IfOk result (λ input. input.ended ≡ false) }
        ensures connections { IfOk result (λ input. connections_of input.source ≡ []) }
        ensures ready { IfOk result (λ input. AreReady S.Store (files_of input.source) store.new) }
        ensures damaged { (damage : DamageValue) → result ≡ Err (o.Damaged damage) → IsTrue S.tells
            → IsDamaged damage.file (recorded_in (bytes_of (S.seen store.old damage.file))) damage }
        ensures reads { IsTrue S.tells → S.seen store.new ≡ S.seen store.old }
        ensures any_moment { EachMoment S.Store store.old store.new
            (NowOrSynced S.Store store.old) }
        ensures store_cause { HasCause (S.faults store.old) (S.faults store.new)
            (result ≡ Err o.Store) }
        ensures files_cause { HasCause (F.faults files.old) (F.faults files.new)
            (result ≡ Err o.Files) }
    {
        let plan = FilePlan {
            from_start: settings.from_start,
            ends: settings.ends,
            codec: settings.common.codec,
        };
        let path = settings.path.as_str();
        let watched = open_files(alloc, store, files, folder, path, plan, earlier)?;
        let changes = event_settings(alloc, &mut settings.common);
        Ok(OpenInput::of(alloc, InputSource::Files(watched), changes))
    }

    /// The input of these settings, which are moved out of them; none where they are those of an input that takes no lines: of `http`,
    /// `pipeline` or `dead_letter_queue`. Of the files that are watched those of a `file` input are added to `watched`.
    ///
    /// The folder is that of the pipeline; its path ends with a slash. Behind an error it can be opened again.
    pub fn open_on<S: Store, F: Files>(
        alloc: Global,
        store: &mut S,
        files: &mut F,
        folder: &str,
        input: &mut Input,
        watched: &mut Names,
    ) -> Result<Option<OpenInput>, OpenFault>
        ensures open { IfOk result (spec.IsOpenAs S.Store F.Files folder.now store.old files.old
            watched.old watched.new input.old) }
        ensures ready { IfOk result (λ made. IfSome made
            (λ made. AreReady S.Store (files_of made.source) store.new)) }
        ensures damaged { (damage : DamageValue) → result ≡ Err (o.Damaged damage) → IsTrue S.tells
            → IsDamaged damage.file (recorded_in (bytes_of (S.seen store.old damage.file))) damage }
        ensures connections { IfOk result (λ made. IfSome made
            (λ made. connections_of made.source ≡ [])) }
        ensures watched { BeginsWith watched.old watched.new }
        ensures reads { IsTrue S.tells → S.seen store.new ≡ S.seen store.old }
        ensures any_moment { EachMoment S.Store store.old store.new
            (NowOrSynced S.Store store.old) }
        ensures store_cause { HasCause (S.faults store.old) (S.faults store.new)
            (result ≡ Err o.Store) }
        ensures files_cause { HasCause (F.faults files.old) (F.faults files.new)
            (result ≡ Err o.Files) }
    {
        match input {
            Input::Stdin(settings) => Ok(Some(OpenInput::stdin(alloc, settings))),
            Input::Generator(settings) => or_memory(OpenInput::generator(alloc, settings)),
            Input::Tcp(settings) => or_memory(OpenInput::connections(alloc, settings)),
            Input::File(settings) => {
                let made = OpenInput::files(alloc, store, files, folder, settings, watched)?;
                Ok(Some(made))
            }
            Input::Http(_settings) => Ok(None),
            Input::Pipeline(_settings) => Ok(None),
            Input::DeadLetters(_settings) => Ok(None),
        }
    }
}

// An input that was made, or that there was no memory for it.
fn or_memory(made: Result<OpenInput, AllocError>) -> Result<Option<OpenInput>, OpenFault>
    ensures { result ≡ spec.or_memory made }
{
    match made {
        Ok(input) => Ok(Some(input)),
        Err(_) => Err(OpenFault::Memory),
    }
}

// Settings that change no event.
fn plain_settings(alloc: Global) -> EventSettings
    ensures { result ≡ plain_settings codec.Plain }
{
    EventSettings {
        codec: Codec::Plain,
        event_type: None,
        options: Options::none(alloc),
    }
}
