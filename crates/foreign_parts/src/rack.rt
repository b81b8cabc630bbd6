// The rack: all boxes and links that were handed in.
ghost use Rattle.std.specs.Prelude.{◌≡◌, ◌<◌, ◌≤◌, ◌+◌, ◌-◌, ◌^◌, [], ◌∷◌, ◌++◌, length, min, slice_get, true, false, bytes_eq, Some, None, IfOk, IfSome, IfNone, OnOk, OnErr};
ghost use Rattle.std.specs.List.{list_any};
ghost use Rattle.foreign_parts.specs.Stocks as spec;
ghost use Rattle.foreign_parts.specs.Stocks.{AnswersAt, AreNumbered, IsLast, IsOut, refusals_of};
ghost use Rattle.foreign_parts.specs.Shelves.{stocks};
ghost use Rattle.foreign_parts.specs.Links.{addresses_of, is_out, link_of, placed, put};

use crate::filter::ForeignFilter;
use crate::links::{self, LinkPlace};
use crate::named_boxes::NamedBoxes;
use crate::output::ForeignOutput;
use crate::plugged::{PluggedFilter, PluggedOutput};
use crate::shelves::{add, configure, count_left, draw, give_back, is_known, number_at};
use config_tree::{FromFault, Settings};
use pipeline_bus::LinkTaker;
use plain_data::Text;
use std::alloc::{AllocError, Global};

/// The boxes that were handed in and that no configuration has taken, by their names, and the links, by their
/// addresses.
///
/// Each box has a number of its own. Filters and outputs of one name are apart. A call finds a name or
/// an address by a look at each one before it.
#[derive(Drop)]
pub struct Rack {
    filters: Vec<NamedBoxes<PluggedFilter>>,
    outputs: Vec<NamedBoxes<PluggedOutput>>,
    /// The links from outside, each in the place of its address.
    links: Vec<LinkPlace>,
    /// How many boxes were added so far, which is the number of the next.
    given: u64,
    alloc: Global,
    ghost own: { AreNumbered given
        (stocks (λ p. p.number) filters.items) (stocks (λ p. p.number) outputs.items) },
}

impl Rack {
    ghost use Rattle.foreign_parts.specs.Racks.{filters_of, outputs_of, links_of, given_of};
    ghost use Rattle.foreign_parts.specs.Racks.{filter_refusals, output_refusals};

    /// No box and no link. It takes no memory.
    pub fn new(alloc: Global) -> Rack
        ensures filters { filters_of result ≡ [] }
        ensures outputs { outputs_of result ≡ [] }
        ensures links { links_of result ≡ [] }
        ensures given { given_of result ≡ 0 }
    {
        Rack {
            filters: Vec::new(alloc),
            outputs: Vec::new(alloc),
            links: Vec::new(alloc),
            given: 0,
            alloc,
        }
    }

    /// Adds a filter under a name, behind those that have it. Where memory runs out the rack is as it
    /// was.
    pub fn add_filter(
        &mut self,
        name: &str,
        filter: Box<dyn ForeignFilter>,
    ) -> Result<(), AllocError>
        ensures ok { OnOk result (filters_of self.new
            ≡ spec.with_box name.now (given_of self.old) (filters_of self.old)) }
        ensures given { OnOk result (given_of self.new ≡ given_of self.old + 1) }
        ensures err { OnErr result (filters_of self.new ≡ filters_of self.old) }
        ensures err_given { OnErr result (given_of self.new ≡ given_of self.old) }
        ensures outputs { outputs_of self.new ≡ outputs_of self.old }
        ensures links { links_of self.new ≡ links_of self.old }
    {
        let number = self.given;
        let next = next_number(number)?;
        let plugged = PluggedFilter { number, filter };
        add(self.alloc, &mut self.filters, name, plugged)?;
        self.given = next;
        Ok(())
    }

    /// Adds an output under a name of at most 255 bytes, behind those that have it. Where memory runs
    /// out the rack is as it was.
    pub fn add_output(
        &mut self,
        name: &str,
        output: Box<dyn ForeignOutput>,
    ) -> Result<(), AllocError>
        requires { length name.now ≤ 255 }
        ensures ok { OnOk result (outputs_of self.new
            ≡ spec.with_box name.now (given_of self.old) (outputs_of self.old)) }
        ensures given { OnOk result (given_of self.new ≡ given_of self.old + 1) }
        ensures err { OnErr result (outputs_of self.new ≡ outputs_of self.old) }
        ensures err_given { OnErr result (given_of self.new ≡ given_of self.old) }
        ensures filters { filters_of self.new ≡ filters_of self.old }
        ensures links { links_of self.new ≡ links_of self.old }
    {
        let number = self.given;
        let next = next_number(number)?;
        let plugged = PluggedOutput { number, output };
        add(self.alloc, &mut self.outputs, name, plugged)?;
        self.given = next;
        Ok(())
    }

    /// How many boxes of a name are left, filters and outputs together, as far as a number of 64 bits
    /// counts.
    pub fn left(&self, name: &str) -> usize
        ensures { result ≡ min (length (spec.left_of name.now (filters_of self.now))
            + length (spec.left_of name.now (outputs_of self.now))) (2 ^ 64 - 1) }
    {
        self.filters_left(name)
            .saturating_add(self.outputs_left(name))
    }

    /// How many filters of a name are left.
    pub fn filters_left(&self, name: &str) -> usize
        ensures { result ≡ length (spec.left_of name.now (filters_of self.now)) }
    {
        count_left(self.filters.as_slice(), name)
    }

    /// How many outputs of a name are left.
    pub fn outputs_left(&self, name: &str) -> usize
        ensures { result ≡ length (spec.left_of name.now (outputs_of self.now)) }
    {
        count_left(self.outputs.as_slice(), name)
    }

    /// Whether a filter of the name was ever added.
    pub fn knows_filter(&self, name: &str) -> bool
        ensures { result ≡ spec.is_known name.now (filters_of self.now) }
    {
        is_known(self.filters.as_slice(), name)
    }

    /// Whether an output of the name was ever added.
    pub fn knows_output(&self, name: &str) -> bool
        ensures { result ≡ spec.is_known name.now (outputs_of self.now) }
    {
        is_known(self.outputs.as_slice(), name)
    }

    /// Has a filter of a name that is left read settings, where it stands. Nothing is drawn.
    pub fn configure_filter(
        &mut self,
        name: &str,
        at: usize,
        settings: &Settings,
    ) -> Result<(), FromFault>
        requires { at < length (spec.left_of name.now (filters_of self.old)) }
        ensures answers { AnswersAt (refusals_of name.now
            (filter_refusals (λ p. (ForeignFilter-box p.filter).refusal p.filter.value) self.old))
            at settings.now.list result }
        ensures refusals { filter_refusals
            (λ p. (ForeignFilter-box p.filter).refusal p.filter.value) self.new
            ≡ filter_refusals (λ p. (ForeignFilter-box p.filter).refusal p.filter.value) self.old }
        ensures others { output_refusals
            (λ p. (ForeignOutput-box p.output).refusal p.output.value) self.new
            ≡ output_refusals (λ p. (ForeignOutput-box p.output).refusal p.output.value) self.old }
        ensures filters { filters_of self.new ≡ filters_of self.old }
        ensures outputs { outputs_of self.new ≡ outputs_of self.old }
        ensures given { given_of self.new ≡ given_of self.old }
        ensures links { links_of self.new ≡ links_of self.old }
    {
        configure(&mut self.filters, name, at, settings)
    }

    /// Has an output of a name that is left read settings, where it stands. Nothing is drawn.
    pub fn configure_output(
        &mut self,
        name: &str,
        at: usize,
        settings: &Settings,
    ) -> Result<(), FromFault>
        requires { at < length (spec.left_of name.now (outputs_of self.old)) }
        ensures answers { AnswersAt (refusals_of name.now
            (output_refusals (λ p. (ForeignOutput-box p.output).refusal p.output.value) self.old))
            at settings.now.list result }
        ensures refusals { output_refusals
            (λ p. (ForeignOutput-box p.output).refusal p.output.value) self.new
            ≡ output_refusals (λ p. (ForeignOutput-box p.output).refusal p.output.value) self.old }
        ensures others { filter_refusals
            (λ p. (ForeignFilter-box p.filter).refusal p.filter.value) self.new
            ≡ filter_refusals (λ p. (ForeignFilter-box p.filter).refusal p.filter.value) self.old }
        ensures outputs { outputs_of self.new ≡ outputs_of self.old }
        ensures filters { filters_of self.new ≡ filters_of self.old }
        ensures given { given_of self.new ≡ given_of self.old }
        ensures links { links_of self.new ≡ links_of self.old }
    {
        configure(&mut self.outputs, name, at, settings)
    }

    /// Takes the last filter of a name. None exactly where none is left.
    pub fn draw_filter(&mut self, name: &str) -> Option<PluggedFilter>
        ensures some { IfSome result
            (λ _. filters_of self.new ≡ spec.drawn name.now (filters_of self.old)) }
        ensures last { IfSome result
            (λ p. IsLast p.number (spec.left_of name.now (filters_of self.old))) }
        ensures own { IfSome result
            (λ p. IsOut (given_of self.new) (filters_of self.new) (outputs_of self.new) p.number) }
        ensures none { IfNone result (spec.left_of name.now (filters_of self.old) ≡ []) }
        ensures same { IfNone result (filters_of self.new ≡ filters_of self.old) }
        ensures outputs { outputs_of self.new ≡ outputs_of self.old }
        ensures given { given_of self.new ≡ given_of self.old }
        ensures links { links_of self.new ≡ links_of self.old }
    {
        draw(&mut self.filters, name)
    }

    /// Puts a filter back under the name under which it was drawn. It takes no memory.
    pub fn give_back_filter(&mut self, name: &str, filter: PluggedFilter)
        requires out { 0 < spec.out_of name.now (filters_of self.old) }
        requires own { IsOut (given_of self.old) (filters_of self.old)
            (outputs_of self.old) filter.number }
        ensures filters { filters_of self.new
            ≡ spec.given_back name.now filter.number (filters_of self.old) }
        ensures outputs { outputs_of self.new ≡ outputs_of self.old }
        ensures given { given_of self.new ≡ given_of self.old }
        ensures links { links_of self.new ≡ links_of self.old }
    {
        give_back(&mut self.filters, name, filter);
    }

    /// The number of an output of a name that is left, by its place; the last is drawn next.
    pub fn output_number_at(&self, name: &str, at: usize) -> u64
        requires { at < length (spec.left_of name.now (outputs_of self.now)) }
        ensures { slice_get (spec.left_of name.now (outputs_of self.now)) at ≡ Some result }
    {
        number_at(self.outputs.as_slice(), name, at)
    }

    /// Takes the last output of a name. None exactly where none is left.
    pub fn draw_output(&mut self, name: &str) -> Option<PluggedOutput>
        ensures some { IfSome result
            (λ _. outputs_of self.new ≡ spec.drawn name.now (outputs_of self.old)) }
        ensures last { IfSome result
            (λ p. IsLast p.number (spec.left_of name.now (outputs_of self.old))) }
        ensures own { IfSome result
            (λ p. IsOut (given_of self.new) (filters_of self.new) (outputs_of self.new) p.number) }
        ensures none { IfNone result (spec.left_of name.now (outputs_of self.old) ≡ []) }
        ensures same { IfNone result (outputs_of self.new ≡ outputs_of self.old) }
        ensures filters { filters_of self.new ≡ filters_of self.old }
        ensures given { given_of self.new ≡ given_of self.old }
        ensures links { links_of self.new ≡ links_of self.old }
    {
        draw(&mut self.outputs, name)
    }

    /// Puts an output back under the name under which it was drawn. It takes no memory.
    pub fn give_back_output(&mut self, name: &str, output: PluggedOutput)
        requires out { 0 < spec.out_of name.now (outputs_of self.old) }
        requires own { IsOut (given_of self.old) (filters_of self.old)
            (outputs_of self.old) output.number }
        ensures outputs { outputs_of self.new
            ≡ spec.given_back name.now output.number (outputs_of self.old) }
        ensures filters { filters_of self.new ≡ filters_of self.old }
        ensures given { given_of self.new ≡ given_of self.old }
        ensures links { links_of self.new ≡ links_of self.old }
    {
        give_back(&mut self.outputs, name, output);
    }

    /// Adds the link of an address, on which something outside of the pipelines sends. An address has one.
    /// Where memory runs out the rack is as it was, and the link is dropped.
    pub fn add_link(&mut self, address: &str, taker: LinkTaker) -> Result<(), AllocError>
        requires { list_any (bytes_eq address.now) (addresses_of (links_of self.old)) ≡ false }
        ensures ok { OnOk result (links_of self.new
            ≡ links_of self.old ++ placed address.now taker ∷ []) }
        ensures err { OnErr result (links_of self.new ≡ links_of self.old) }
        ensures filters { filters_of self.new ≡ filters_of self.old }
        ensures outputs { outputs_of self.new ≡ outputs_of self.old }
        ensures given { given_of self.new ≡ given_of self.old }
    {
        let address = Text::of(self.alloc, address)?;
        let taker = Some(taker);
        self.links.push(LinkPlace { address, taker })?;
        Ok(())
    }

    /// Whether a link of the address was ever added.
    pub fn knows_link(&self, address: &str) -> bool
        ensures { result ≡ list_any (bytes_eq address.now) (addresses_of (links_of self.now)) }
    {
        links::is_known(self.links.as_slice(), address)
    }

    /// Takes the link of an address, where it lies in the rack. Its place stays.
    pub fn take_link(&mut self, address: &str) -> Option<LinkTaker>
        ensures taken { result ≡ link_of address.now (links_of self.old) }
        ensures links { links_of self.new ≡ put address.now None (links_of self.old) }
        ensures filters { filters_of self.new ≡ filters_of self.old }
        ensures outputs { outputs_of self.new ≡ outputs_of self.old }
        ensures given { given_of self.new ≡ given_of self.old }
    {
        links::take(&mut self.links, address)
    }

    /// Puts the link of an address back into its place, from which it was taken. It takes no memory.
    pub fn give_back_link(&mut self, address: &str, taker: LinkTaker)
        requires { is_out address.now (links_of self.old) ≡ true }
        ensures links { links_of self.new ≡ put address.now (Some taker) (links_of self.old) }
        ensures filters { filters_of self.new ≡ filters_of self.old }
        ensures outputs { outputs_of self.new ≡ outputs_of self.old }
        ensures given { given_of self.new ≡ given_of self.old }
    {
        links::give_back(&mut self.links, address, taker);
    }
}

fn next_number(number: u64) -> Result<u64, AllocError>
    ensures { IfOk result (λ next. next ≡ number + 1) }
{
    number.checked_add(1).ok_or(AllocError)
}
