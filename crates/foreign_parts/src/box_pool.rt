// The trait of a pool from which boxes and links are drawn and to which they go back.
use crate::boxes::Boxes;
use crate::plugged::{PluggedFilter, PluggedOutput};
use crate::rack::Rack;
use pipeline_bus::LinkTaker;

/// A rack that boxes and links are drawn from, and that they may go back to.
pub trait BoxPool: Boxes {
    ghost use Rattle.std.specs.Prelude.{◌≡◌, ◌<◌, ℕ, [], length, slice_get, true, Some, None, IfSome, IfNone};
    ghost use Rattle.foreign_parts.specs.Stocks.{IsLast, IsOut, drawn, given_back, left_of, out_of};
    ghost use Rattle.foreign_parts.specs.Links.{is_out, link_of, put};
    ghost use Rattle.foreign_parts.specs.declared.boxes.BoxKind.TheVariants as kind;

    /// A filter that was drawn.
    type Filter: Drop;

    /// An output that was drawn.
    type Output: Drop;

    /// The number that each of them has of its own.
    ghost filter_number: { Self.Filter → ℕ };

    ghost output_number: { Self.Output → ℕ };

    /// How many boxes were added so far, which is the number of the next.
    ghost given: { Self → ℕ };

    /// Takes the last filter of a name. None exactly where none is left.
    fn take_filter(&mut self, name: &str) -> Option<Self::Filter>
        ensures some { IfSome result (λ _. (Self.stand self.new kind.Filter).stocks
            ≡ drawn name.now (Self.stand self.old kind.Filter).stocks) }
        ensures last { IfSome result (λ p. IsLast (filter_number p)
            (left_of name.now (Self.stand self.old kind.Filter).stocks)) }
        ensures own { IfSome result (λ p. IsOut (given self.new)
            (Self.stand self.new kind.Filter).stocks
            (Self.stand self.new kind.Output).stocks (filter_number p)) }
        ensures none { IfNone result
            (left_of name.now (Self.stand self.old kind.Filter).stocks ≡ []) }
        ensures outputs { (Self.stand self.new kind.Output).stocks
            ≡ (Self.stand self.old kind.Output).stocks }
        ensures links { Self.links self.new ≡ Self.links self.old }
        ensures given { given self.new ≡ given self.old };

    /// Puts a filter back under the name under which it was drawn. It takes no memory.
    fn return_filter(&mut self, name: &str, filter: Self::Filter)
        requires out { 0 < out_of name.now (Self.stand self.old kind.Filter).stocks }
        requires own { IsOut (given self.old) (Self.stand self.old kind.Filter).stocks
            (Self.stand self.old kind.Output).stocks (filter_number filter) }
        ensures filters { (Self.stand self.new kind.Filter).stocks
            ≡ given_back name.now (filter_number filter)
            (Self.stand self.old kind.Filter).stocks }
        ensures outputs { (Self.stand self.new kind.Output).stocks
            ≡ (Self.stand self.old kind.Output).stocks }
        ensures links { Self.links self.new ≡ Self.links self.old }
        ensures given { given self.new ≡ given self.old };

    /// The number of an output of a name that is left, by its place; the last is drawn next.
    fn output_number_at(&self, name: &str, at: usize) -> u64
        requires { at < length (left_of name.now (Self.stand self.now kind.Output).stocks) }
        ensures { slice_get (left_of name.now (Self.stand self.now kind.Output).stocks) at
            ≡ Some result };

    /// Takes the last output of a name. None exactly where none is left.
    fn take_output(&mut self, name: &str) -> Option<Self::Output>
        ensures some { IfSome result (λ _. (Self.stand self.new kind.Output).stocks
            ≡ drawn name.now (Self.stand self.old kind.Output).stocks) }
        ensures last { IfSome result (λ p. IsLast (output_number p)
            (left_of name.now (Self.stand self.old kind.Output).stocks)) }
        ensures own { IfSome result (λ p. IsOut (given self.new)
            (Self.stand self.new kind.Filter).stocks
            (Self.stand self.new kind.Output).stocks (output_number p)) }
        ensures none { IfNone result
            (left_of name.now (Self.stand self.old kind.Output).stocks ≡ []) }
        ensures filters { (Self.stand self.new kind.Filter).stocks
            ≡ (Self.stand self.old kind.Filter).stocks }
        ensures links { Self.links self.new ≡ Self.links self.old }
        ensures given { given self.new ≡ given self.old };

    /// Puts an output back under the name under which it was drawn. It takes no memory.
    fn return_output(&mut self, name: &str, output: Self::Output)
        requires out { 0 < out_of name.now (Self.stand self.old kind.Output).stocks }
        requires own { IsOut (given self.old) (Self.stand self.old kind.Filter).stocks
            (Self.stand self.old kind.Output).stocks (output_number output) }
        ensures outputs { (Self.stand self.new kind.Output).stocks
            ≡ given_back name.now (output_number output)
            (Self.stand self.old kind.Output).stocks }
        ensures filters { (Self.stand self.new kind.Filter).stocks
            ≡ (Self.stand self.old kind.Filter).stocks }
        ensures links { Self.links self.new ≡ Self.links self.old }
        ensures given { given self.new ≡ given self.old };

    /// Takes the link of an address, where it lies in the rack. Its place stays.
    fn take_link(&mut self, address: &str) -> Option<LinkTaker>
        ensures taken { result ≡ link_of address.now (Self.links self.old) }
        ensures links { Self.links self.new ≡ put address.now None (Self.links self.old) }
        ensures filters { (Self.stand self.new kind.Filter).stocks
            ≡ (Self.stand self.old kind.Filter).stocks }
        ensures outputs { (Self.stand self.new kind.Output).stocks
            ≡ (Self.stand self.old kind.Output).stocks }
        ensures given { given self.new ≡ given self.old };

    /// Puts the link of an address back into its place, from which it was taken. It takes no memory.
    fn return_link(&mut self, address: &str, taker: LinkTaker)
        requires { is_out address.now (Self.links self.old) ≡ true }
        ensures links { Self.links self.new ≡ put address.now (Some taker) (Self.links self.old) }
        ensures filters { (Self.stand self.new kind.Filter).stocks
            ≡ (Self.stand self.old kind.Filter).stocks }
        ensures outputs { (Self.stand self.new kind.Output).stocks
            ≡ (Self.stand self.old kind.Output).stocks }
        ensures given { given self.new ≡ given self.old };
}

impl BoxPool for Rack {
    ghost use Rattle.foreign_parts.specs.Racks.{given_of};

    type Filter = PluggedFilter;

    type Output = PluggedOutput;

    ghost filter_number = { λ p. p.number };

    ghost output_number = { λ p. p.number };

    ghost given = { λ rack. given_of rack };

    fn take_filter(&mut self, name: &str) -> Option<PluggedFilter> {
        self.draw_filter(name)
    }

    fn return_filter(&mut self, name: &str, filter: PluggedFilter) {
        self.give_back_filter(name, filter);
    }

    fn output_number_at(&self, name: &str, at: usize) -> u64 {
        Rack::output_number_at(self, name, at)
    }

    fn take_output(&mut self, name: &str) -> Option<PluggedOutput> {
        self.draw_output(name)
    }

    fn return_output(&mut self, name: &str, output: PluggedOutput) {
        self.give_back_output(name, output);
    }

    fn take_link(&mut self, address: &str) -> Option<LinkTaker> {
        Rack::take_link(self, address)
    }

    fn return_link(&mut self, address: &str, taker: LinkTaker) {
        self.give_back_link(address, taker);
    }
}
