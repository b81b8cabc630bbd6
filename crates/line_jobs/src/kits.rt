// The kits of one generation that are at home.
ghost use Rattle.std.specs.Prelude.{◌≡◌, ◌≤◌, ◌<◌, ◌++◌, ◌∷◌, [], length, map, vec_capacity, IsTrue, ◌↔◌, IfSome, MatchOption};
ghost use Rattle.plugin_graph.specs.Graphs.{built_in, contents_of};
ghost use Rattle.line_jobs.specs.Closings.{all_once_more, told_in};

use crate::closing::{Close, close_kit};
use plugin_graph::Kit;

/// The kits of one generation that are at home. Each goes out with a job and comes back with what the job gives.
#[derive(Drop)]
pub struct Kits<X> {
    home: Vec<Kit<X>>,
    // How many kits the generation has.
    size: usize,
    ghost room: { size ≤ vec_capacity home },
    ghost few: { length home.items ≤ size },
}

impl<X: Drop> Kits<X> {
    ghost use Rattle.line_jobs.specs.Homes.{kits_of, size_of};

    /// All kits of a generation, which are at home.
    pub fn new(kits: Vec<Kit<X>>) -> Kits<X>
        ensures kits { kits_of result ≡ kits.items }
        ensures size { size_of result ≡ length kits.items }
    {
        let size = kits.len();
        Kits { home: kits, size }
    }

    /// Takes a kit, which goes out. None exactly where no kit is at home.
    pub fn take(&mut self) -> Option<Kit<X>>
        ensures taken { MatchOption result
            ((kits_of self.old ≡ []) × (kits_of self.new ≡ []))
            (λ kit. kits_of self.old ≡ kits_of self.new ++ kit ∷ []) }
        ensures room { IfSome result (λ _. length (kits_of self.new) < size_of self.new) }
        ensures size { size_of self.new ≡ size_of self.old }
    {
        self.home.pop()
    }

    /// A kit comes home. It takes no memory.
    pub fn put_back(&mut self, kit: Kit<X>)
        requires { length (kits_of self.old) < size_of self.old }
        ensures kits { kits_of self.new ≡ kits_of self.old ++ kit ∷ [] }
        ensures size { size_of self.new ≡ size_of self.old }
    {
        self.home.push_reserved(kit);
    }

    /// How many kits are at home.
    pub fn len(&self) -> usize
        ensures { result ≡ length (kits_of self.now) }
    {
        self.home.len()
    }

    /// Whether no kit is at home.
    pub fn is_empty(&self) -> bool
        ensures { IsTrue result ↔ (kits_of self.now ≡ []) }
    {
        self.home.is_empty()
    }

    /// How many kits the generation has, at home and out.
    pub fn size(&self) -> usize
        ensures { result ≡ size_of self.now }
    {
        self.size
    }
}

impl<F: Close> Kits<F> {
    ghost use Rattle.line_jobs.specs.Homes.{kits_of, size_of};

    /// Closes each box of the kits that are at home once, and leaves it where it is.
    pub fn close_all(&mut self)
        ensures numbers { told_in F.number (kits_of self.new)
            ≡ told_in F.number (kits_of self.old) }
        ensures closed { told_in F.closes (kits_of self.new)
            ≡ all_once_more (told_in F.closes (kits_of self.old)) }
        ensures contents { map contents_of (kits_of self.new)
            ≡ map contents_of (kits_of self.old) }
        ensures built { map built_in (kits_of self.new) ≡ map built_in (kits_of self.old) }
        ensures size { size_of self.new ≡ size_of self.old }
    {
        close_each(self.home.as_mut_slice());
    }
}

// Closes each box of some kits once.
fn close_each<F: Close>(kits: &mut [Kit<F>])
    ensures numbers { told_in F.number kits.new ≡ told_in F.number kits.old }
    ensures closed { told_in F.closes kits.new ≡ all_once_more (told_in F.closes kits.old) }
    ensures contents { map contents_of kits.new ≡ map contents_of kits.old }
    ensures built { map built_in kits.new ≡ map built_in kits.old }
{
    for kit in kits.iter_mut() {
        close_kit(kit);
    }
}
