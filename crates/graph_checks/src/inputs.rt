// The checks of inputs: paths, addresses and stdin stand once.
ghost use Rattle.std.specs.Prelude.{◌≡◌, IfOk, false};
ghost use Rattle.graph_checks.specs.Answers.{Gives, Leaves, all_checked};
ghost use Rattle.graph_checks.specs.Inputs as spec;

use crate::fault::GraphFault;
use crate::plugins::{meet_id, meet_path, meet_path_once, setting_fault};
use crate::seen_texts::SeenTexts;
use built_plugins::plugin_id;
use config_tree::Plugin;
use event_tree::Names;
use plain_data::Text;
use plugin_settings::{Input, read_input};
use slot_files::PositionOf;
use std::alloc::{AllocError, Global};

/// What was met so far of the inputs.
#[derive(Drop)]
pub(crate) struct SeenInputs {
    /// How many there are.
    pub inputs: u64,
    pub ids: SeenTexts,
    pub paths: SeenTexts,
    pub addresses: SeenTexts,
    /// The addresses on which something outside of the pipelines sends.
    pub outside: Names,
    pub has_stdin: bool,
}

/// Tests the inputs.
#[tactic(auto, unfolding(crate::specs::Inputs::inputs_checked))]
pub(crate) fn check_inputs(alloc: Global, inputs: &[Plugin]) -> Result<SeenInputs, GraphFault>
    ensures { Gives result (spec.inputs_checked inputs.now) }
{
    let mut met = SeenInputs {
        inputs: 0,
        ids: SeenTexts::new(alloc),
        paths: SeenTexts::new(alloc),
        addresses: SeenTexts::new(alloc),
        outside: Names::new(alloc),
        has_stdin: false,
    };
    met.check_all(alloc, inputs)?;
    Ok(met)
}

impl SeenInputs {
    fn check_all(&mut self, alloc: Global, inputs: &[Plugin]) -> Result<(), GraphFault>
        ensures { Leaves result (all_checked spec.input_checked inputs.now self.old) self.new }
    {
        for input in inputs {
            self.check_input(alloc, input)?;
        }
        Ok(())
    }

    #[tactic(auto, unfolding(crate::specs::Inputs::input_checked))]
    fn check_input(&mut self, alloc: Global, plugin: &Plugin) -> Result<(), GraphFault>
        ensures { Leaves result (spec.input_checked plugin.now self.old) self.new }
    {
        let number = self.inputs.checked_add(1).ok_or(AllocError)?;
        let id = plugin_id(alloc, "input", number, plugin)?;
        match read_input(plugin.name.as_str(), &plugin.settings) {
            Ok(Some(input)) => {
                meet_id(&mut self.ids, id)?;
                self.inputs = number;
                self.meet_source(alloc, &input)
            }
            Ok(None) => Err(GraphFault::UnknownPlugin(plugin.name.copy()?)),
            Err(fault) => Err(setting_fault(id, fault)),
        }
    }

    // Meets the path of an input, its address, or that it is stdin.
    fn meet_source(&mut self, alloc: Global, input: &Input) -> Result<(), GraphFault>
        ensures { Leaves result (spec.source_met input.now self.old) self.new }
    {
        match input {
            Input::Stdin(_) => self.meet_stdin(),
            Input::File(settings) => self.meet_path(alloc, settings.path.copy()?),
            Input::Http(settings) => self.meet_outside(http_address(alloc, settings.port)?),
            Input::Pipeline(settings) => self.meet_address(settings.address.copy()?),
            Input::DeadLetters(settings) => {
                self.meet_outside(letters_address(alloc, settings.pipeline_id.as_str())?)
            }
            Input::Generator(_) | Input::Tcp(_) => Ok(()),
        }
    }

    fn meet_stdin(&mut self) -> Result<(), GraphFault>
        ensures { Leaves result (spec.stdin_met self.old) self.new }
    {
        if self.has_stdin {
            return Err(GraphFault::TwiceStdin);
        }
        self.has_stdin = true;
        Ok(())
    }

    // A pattern with a `*` has no position file of its own.
    fn meet_path(&mut self, alloc: Global, path: Text) -> Result<(), GraphFault>
        ensures { Leaves result (spec.input_path_met path self.old) self.new }
    {
        if is_many(path.as_str().as_bytes()) {
            meet_path_once(&mut self.paths, path)
        } else {
            meet_path(alloc, PositionOf::Input, &mut self.paths, path)
        }
    }

    fn meet_address(&mut self, address: Text) -> Result<(), GraphFault>
        ensures { Leaves result (spec.address_met address self.old) self.new }
    {
        match self.addresses.meet(address)? {
            Some(address) => Err(GraphFault::TwiceAddress(address)),
            None => Ok(()),
        }
    }

    fn meet_outside(&mut self, address: Text) -> Result<(), GraphFault>
        ensures { Leaves result (spec.outside_met address self.old) self.new }
    {
        self.meet_address(address.copy()?)?;
        self.outside.push(address)?;
        Ok(())
    }
}

// Whether a `*` stands behind the last `/` of a path.
fn is_many(path: &[u8]) -> bool
    ensures { result ≡ spec.is_many false path.now }
{
    let mut found = false;
    for byte in path {
        match *byte {
            b'/' => found = false,
            b'*' => found = true,
            _ => {}
        }
    }
    found
}

fn http_address(alloc: Global, port: u16) -> Result<Text, AllocError>
    ensures { IfOk result (λ address. address ≡ spec.http_address port) }
{
    Ok(Text::from_string(format!(in alloc; "http:{port}")?))
}

fn letters_address(alloc: Global, id: &str) -> Result<Text, AllocError>
    ensures { IfOk result (λ address. address ≡ spec.letters_address id.now) }
{
    Ok(Text::from_string(format!(in alloc; "dlq:{id}")?))
}
