// Laws of the definitions, by which layers above compose what their calls say. They speak of properties that a test decides; the
// lemmas in proofs/ say the same of any property.
ghost use Rattle.std.specs.Prelude.{◌⊎◌, ◌≤◌, ℕ, Bool, IsTrue, List, Option, length};
ghost use Rattle.io_traits.specs.Images.{Image, at_rest, overlaid};
ghost use Rattle.io_traits.specs.Chance.{NoChance, StandsAt};
ghost use Rattle.io_traits.specs.Moments.{MayLeaveNow, EachMoment, LeavesBeside, ReadsBeside};

use crate::stores::Store;

/// What holds of the images at each moment of one run of calls, and at each moment of the next, holds
/// at each moment of both.
pub fn moments_of_two_runs_join<S: Store>()
    ensures { (old mid new : S) (holds : Image → Bool)
        → EachMoment S.Store old mid (λ i. IsTrue (holds i))
        → EachMoment S.Store mid new (λ i. IsTrue (holds i))
        → EachMoment S.Store old new (λ i. IsTrue (holds i)) }
{}

/// Where a run of calls leaves all files but its own as they might have been left before, and reads
/// them as before, and the next run leaves all but its own, both leave all but those of the two.
pub fn two_runs_leave_the_files_beside_both<S: Store>()
    ensures { (first second : List ℕ → Bool) (old mid : S)
        → ((i : Image) → MayLeaveNow S.Store mid i → LeavesBeside S.Store (λ name. IsTrue (first name)) old i)
        → ReadsBeside S.Store (λ name. IsTrue (first name)) old mid
        → (i : Image) → LeavesBeside S.Store (λ name. IsTrue (second name)) mid i
        → LeavesBeside S.Store (λ name. IsTrue (first name) ⊎ IsTrue (second name)) old i }
{}

/// In a file at rest no frame stands by chance, whatever a frame is.
pub fn a_file_at_rest_has_no_frame_by_chance()
    ensures { (is_frame : ℕ → List ℕ → Bool) (file : Option (List ℕ))
        → NoChance (λ place bytes. IsTrue (is_frame place bytes)) (at_rest file) }
{}

/// What a write wrote stands at its place.
pub fn what_was_written_stands_there()
    ensures { (at : ℕ) (bytes old : List ℕ)
        → at ≤ length old → StandsAt at bytes (overlaid at bytes old) }
{}
