// What checks ask of a rack without taking a box.
use crate::rack::Rack;
use config_tree::{FromFault, Settings};

/// What is handed in as boxes.
#[derive(Clone, Copy)]
pub enum BoxKind {
    Filter,
    Output,
}

/// What checks ask of the boxes and links that stand in a rack. None is taken.
pub trait Boxes {
    ghost use Rattle.std.specs.Prelude.{◌≡◌, ◌<◌, List, bytes_eq, length};
    ghost use Rattle.std.specs.List.{list_any};
    ghost use Rattle.foreign_parts.specs.Stocks.{AnswersAt, is_known, left_of, refusals_of};
    ghost use Rattle.foreign_parts.specs.Boxes.{Keeps, Stand};
    ghost use Rattle.foreign_parts.specs.Links.{addresses_of};
    ghost use Rattle.foreign_parts.specs.declared.boxes.BoxKind.{BoxKind};
    ghost use Rattle.foreign_parts.specs.declared.links.LinkPlace.{LinkPlace};

    /// What stands there of a kind.
    ghost stand: { Self → BoxKind → Stand };

    /// The places of the links that were handed in, each with the link that lies there.
    ghost links: { Self → List LinkPlace };

    /// Whether a box of the name was ever handed in.
    fn knows(&self, kind: BoxKind, name: &str) -> bool
        ensures { result ≡ is_known name.now (stand self.now kind).stocks };

    /// How many boxes of the name are left.
    fn left(&self, kind: BoxKind, name: &str) -> usize
        ensures { result ≡ length (left_of name.now (stand self.now kind).stocks) };

    /// Has a box of the name that is left read settings.
    fn ask(
        &mut self,
        kind: BoxKind,
        name: &str,
        at: usize,
        settings: &Settings,
    ) -> Result<(), FromFault>
        requires { at < length (left_of name.now (stand self.old kind).stocks) }
        ensures answers { AnswersAt (refusals_of name.now (stand self.old kind).refusals)
            at settings.now.list result }
        ensures keeps { Keeps stand links self.old self.new };

    /// Whether a link of the address was ever handed in.
    fn knows_link(&self, address: &str) -> bool
        ensures { result ≡ list_any (bytes_eq address.now) (addresses_of (links self.now)) };
}

impl Boxes for Rack {
    ghost use Rattle.foreign_parts.specs.Racks.{filters_of, outputs_of, links_of, filter_refusals, output_refusals};
    ghost use Rattle.foreign_parts.specs.Boxes.{stand_of};

    ghost stand = { λ rack. stand_of
        (filters_of rack)
        (filter_refusals (λ p. (ForeignFilter-box p.filter).refusal p.filter.value) rack)
        (outputs_of rack)
        (output_refusals (λ p. (ForeignOutput-box p.output).refusal p.output.value) rack) };

    ghost links = { λ rack. links_of rack };

    fn knows(&self, kind: BoxKind, name: &str) -> bool {
        match kind {
            BoxKind::Filter => self.knows_filter(name),
            BoxKind::Output => self.knows_output(name),
        }
    }

    fn left(&self, kind: BoxKind, name: &str) -> usize {
        match kind {
            BoxKind::Filter => self.filters_left(name),
            BoxKind::Output => self.outputs_left(name),
        }
    }

    fn ask(
        &mut self,
        kind: BoxKind,
        name: &str,
        at: usize,
        settings: &Settings,
    ) -> Result<(), FromFault> {
        match kind {
            BoxKind::Filter => self.configure_filter(name, at, settings),
            BoxKind::Output => self.configure_output(name, at, settings),
        }
    }

    fn knows_link(&self, address: &str) -> bool {
        Rack::knows_link(self, address)
    }
}
