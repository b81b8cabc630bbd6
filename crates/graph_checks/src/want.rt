// What a configuration wants of a rack: boxes and links.
ghost use Rattle.std.specs.Prelude.{◌≡◌, IfOk};

use event_tree::Names;
use plain_data::{Items, Text};
use std::alloc::AllocError;

/// A plugin that is a box.
pub struct Want {
    pub id: Text,
    /// The name under which boxes for it are handed in.
    pub name: Text,
}

// Written out, so that it is one call wherever an error is handed on while it is held.
impl Drop for Want {
    fn drop(self) {
        let Want {
            id: _id,
            name: _name,
        } = self;
    }
}

impl Want {
    /// The same again.
    pub fn copy(&self) -> Result<Want, AllocError>
        ensures { IfOk result (λ copy. copy ≡ self.now) }
    {
        let id = self.id.copy()?;
        let name = self.name.copy()?;
        Ok(Want { id, name })
    }
}

/// What a configuration wants of a rack: its plugins that are boxes, and the addresses of its inputs on which something
/// outside of the pipelines sends, in the order of the text.
#[derive(Drop)]
pub struct Wants {
    /// For each of them a box for each worker.
    pub filters: Items<Want>,
    pub outputs: Items<Want>,
    pub links: Names,
}
