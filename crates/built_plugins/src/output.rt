// Outputs with the numbers of their targets.

ghost use Rattle.std.specs.Prelude.{◌≡◌, ◌++◌, ◌∷◌, [], IfOk, OnOk};
ghost use Rattle.built_plugins.specs.Numbering as spec;

use crate::ids::plugin_id;
use crate::places::places_of;
use crate::shared::Shared;
use config_tree::Plugin;
use event_flow::Targets;
use foreign_parts::Place;
use plain_data::{Items, Text};
use std::alloc::{AllocError, Global};

/// A place of an output.
pub struct Target {
    /// The output's id.
    pub output: Text,
    pub place: Place,
}

// Written out, so that it is one call wherever an error is handed on while a target is held.
impl Drop for Target {
    fn drop(self) {
        let Target {
            output: _output,
            place: _place,
        } = self;
    }
}

/// An output, with the numbers of its targets.
#[derive(Drop)]
pub struct OutputTargets {
    pub id: Text,
    pub targets: Items<u64>,
}

impl OutputTargets {
    /// An event that was sent to these targets so far is sent to those of the output, too.
    pub fn send(&self, targets: &mut Targets) -> Result<(), AllocError>
        ensures { OnOk result (targets.new ≡ targets.old ++ self.now.targets) }
    {
        add_numbers(targets, self.targets.as_slice())
    }
}

fn add_numbers(to: &mut Targets, numbers: &[u64]) -> Result<(), AllocError>
    ensures { OnOk result (to.new ≡ to.old ++ numbers.now) }
{
    for number in numbers {
        to.push(*number)?;
    }
    Ok(())
}

/// The outputs of a configuration, and their targets.
#[derive(Drop)]
pub struct Outputs {
    pub outputs: Items<OutputTargets>,
    pub targets: Items<Shared<Target>>,
}

impl Outputs {
    /// The outputs that plugins are, with their places; those of boxed outputs have the numbers that
    /// were drawn for their ids.
    pub fn of_plugins(
        alloc: Global,
        draws: &[(Text, u64)],
        plugins: &[Plugin],
    ) -> Result<Outputs, AllocError>
        ensures { IfOk result (λ outputs. outputs ≡ spec.outputs_of draws.now plugins.now) }
    {
        let mut outputs = Outputs {
            outputs: Items::new(alloc),
            targets: Items::new(alloc),
        };
        for at in 0..plugins.len() {
            let id = plugin_id(alloc, "output", at as u64 + 1, &plugins[at])?;
            let places = places_of(alloc, draws, id.as_str(), &plugins[at])?;
            outputs.add(id, places)?;
        }
        Ok(outputs)
    }

    // Adds an output with its places.
    fn add(&mut self, id: Text, places: Items<Place>) -> Result<(), AllocError>
        ensures { OnOk result (self.new ≡ spec.with_output id places self.old) }
    {
        let targets = numbers(self.outputs.allocator(), self.targets.len(), places.len())?;
        self.add_targets(&id, places)?;
        self.outputs.push(OutputTargets { id, targets })
    }

    // Adds the targets of an output of this id.
    fn add_targets(&mut self, id: &Text, places: Items<Place>) -> Result<(), AllocError>
        ensures targets { OnOk result (self.new.targets
            ≡ self.old.targets ++ spec.targets_of id.now places) }
        ensures outputs { self.new.outputs ≡ self.old.outputs }
    {
        for place in places.into_vec() {
            let output = id.copy()?;
            let target = Shared::new(self.targets.allocator(), Target { output, place })?;
            self.targets.push(target)?;
        }
        Ok(())
    }
}

// So many numbers, from one on.
#[tactic(auto, using(crate::proofs::Outputting::outputting))]
fn numbers(alloc: Global, from: usize, count: usize) -> Result<Items<u64>, AllocError>
    ensures { IfOk result (λ found. found ≡ spec.numbers from count) }
{
    let mut found = Items::with_capacity(alloc, count)?;
    let mut next = from as u64;
    for _ in 0..count {
        found.push(next)?;
        next = next.checked_add(1).ok_or(AllocError)?;
    }
    Ok(found)
}
