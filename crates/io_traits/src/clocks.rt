// The trait of clocks.
ghost use Rattle.std.specs.Prelude.{List, [], ◌∷◌, ℤ, Option};
ghost use Rattle.io_traits.specs.Telling.{Grows};

use plain_data::Instant;

/// Where moments come from. No call fails: a real clock gives some moment where the system has none.
pub trait Clock {
    /// The moments that it gave, where it tells them.
    ghost given: { Self → Option (List ℤ) };

    /// The moment that the clock shows. Nothing says that it is later than the one before.
    fn now(&mut self) -> Instant
        ensures { Grows (given self.old) (given self.new) (result ∷ []) };

    /// Lets some time pass where time passes by itself. A program calls it where it found nothing to
    /// do.
    fn pause(&mut self)
        ensures { Grows (given self.old) (given self.new) [] };
}
