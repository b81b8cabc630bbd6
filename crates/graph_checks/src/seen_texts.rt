// A set of texts in which a second one is noticed.
ghost use Rattle.std.specs.Prelude.{◌≡◌, ◌∷◌, ◌++◌, [], if◌then◌else◌, Some, None, IfOk, OnOk};
ghost use Rattle.graph_checks.specs.Plugins.{stands};

use indexmap::IndexSet;
use plain_data::Text;
use std::alloc::{AllocError, Global};
use std::marker::Model;

/// Texts that were met so far, each once, in the order in which they were met. One is found at once,
/// however many there are.
#[derive(Drop)]
pub(crate) struct SeenTexts {
    texts: IndexSet<Text>,
}

impl Model for SeenTexts {
    ghost use Rattle.std.specs.Prelude.{List, ℕ};

    ghost Value = { List (List ℕ) };

    ghost view = { λ met. met.texts.keys };
}

impl SeenTexts {
    pub(crate) fn new(alloc: Global) -> SeenTexts
        ensures { result ≡ [] }
    {
        SeenTexts {
            texts: IndexSet::new(alloc),
        }
    }

    /// Meets a text. One that was met before is given back.
    pub(crate) fn meet(&mut self, text: Text) -> Result<Option<Text>, AllocError>
        ensures back { IfOk result (λ back. back
            ≡ (if stands text self.old then Some text else None)) }
        ensures new { OnOk result (self.new
            ≡ (if stands text self.old then self.old else self.old ++ text ∷ [])) }
    {
        if self.texts.contains(&text) {
            return Ok(Some(text));
        }
        self.texts.insert(text)?;
        Ok(None)
    }
}
