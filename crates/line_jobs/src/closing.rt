// Closing the boxes of a kit at the end of a run.
ghost use Rattle.std.specs.Prelude.{◌≡◌, ◌<◌, ◌+◌, length};
ghost use Rattle.std.specs.Option.{option_map};
ghost use Rattle.io_traits.specs.Counts.{one_more};
ghost use Rattle.plugin_graph.specs.Graphs.{boxes_in, built_in, contents_of};
ghost use Rattle.line_jobs.specs.Closings.{each_once_more, once_more_from, told};

use foreign_parts::{ForeignFilter, PluggedFilter};
use graph_checks::Drawn;
use plugin_graph::Kit;

/// What is closed at the end of a run: a box, or what holds one.
pub trait Close: Drop {
    ghost use Rattle.std.specs.Prelude.{◌≡◌, ℕ};
    ghost use Rattle.io_traits.specs.Counts.{one_more};

    /// The type of the box.
    type Inside: Drop;

    /// The number that it has of its own.
    ghost number: { Self → ℕ };

    /// How often it was closed, as far as a number of 64 bits counts.
    ghost closes: { Self → ℕ };

    /// Its last call.
    fn close(&mut self)
        ensures closes { closes self.new ≡ one_more (closes self.old) }
        ensures number { number self.new ≡ number self.old };
}

// `ForeignFilter-box` stands for the box's members where the impl names the type of the box.
impl Close for PluggedFilter {
    type Inside = Box<dyn ForeignFilter>;

    ghost number = { λ p. p.number };

    ghost closes = { λ p. (ForeignFilter-box p.filter).closes p.filter.value };

    fn close(&mut self) {
        self.filter.close();
    }
}

impl<F: Close> Close for Drawn<F> {
    type Inside = F::Inside;

    ghost number = { λ drawn. F.number drawn.plugged };

    ghost closes = { λ drawn. F.closes drawn.plugged };

    fn close(&mut self) {
        self.plugged.close();
    }
}

/// Closes each box that stands in a kit once, and leaves it where it is.
pub fn close_kit<F: Close>(kit: &mut Kit<F>)
    ensures numbers { told F.number (boxes_in kit.new) ≡ told F.number (boxes_in kit.old) }
    ensures closed { told F.closes (boxes_in kit.new)
        ≡ each_once_more (told F.closes (boxes_in kit.old)) }
    ensures contents { contents_of kit.new ≡ contents_of kit.old }
    ensures built { built_in kit.new ≡ built_in kit.old }
{
    for at in 0..kit.filters() {
        close_at(kit, at);
    }
}

// Closes the box of the filter of a number, if one stands there.
fn close_at<F: Close>(kit: &mut Kit<F>, at: usize)
    requires { at < length (contents_of kit.old).filters }
    ensures numbers { told F.number (boxes_in kit.new) ≡ told F.number (boxes_in kit.old) }
    ensures closed { once_more_from (at + 1) (told F.closes (boxes_in kit.new))
        ≡ once_more_from at (told F.closes (boxes_in kit.old)) }
    ensures contents { contents_of kit.new ≡ contents_of kit.old }
    ensures built { built_in kit.new ≡ built_in kit.old }
{
    let plugged = kit.replace_box(at, None);
    let _ = kit.replace_box(at, close_box(plugged));
}

fn close_box<F: Close>(plugged: Option<F>) -> Option<F>
    ensures number { option_map F.number result ≡ option_map F.number plugged }
    ensures closes { option_map F.closes result
        ≡ option_map one_more (option_map F.closes plugged) }
{
    match plugged {
        Some(mut plugged) => {
            plugged.close();
            Some(plugged)
        }
        None => None,
    }
}
