// The trait of what tells a program to go on, look or stop.
ghost use Rattle.std.specs.Prelude.{List, [], ◌∷◌, Option};
ghost use Rattle.io_traits.specs.Answers.{IsNext};
ghost use Rattle.io_traits.specs.Telling.{Grows};

/// What a program is to do before its next step.
#[derive(Clone, Copy, PartialEq, Eq)]
pub enum Said {
    /// Go on.
    Go,
    /// Look for changed configurations, and go on.
    Look,
    /// Stop.
    Stop,
}

/// Who says whether a program goes on. No call fails.
pub trait Control {
    ghost use Rattle.io_traits.specs.declared.controls.Said.{Said};

    /// The answers that it gave, where it tells them.
    ghost given: { Self → Option (List Said) };

    /// The answers that are left, where it tells them.
    ghost left: { Self → Option (List Said) };

    /// The next answer.
    fn next(&mut self) -> Said
        ensures given { Grows (given self.old) (given self.new) (result ∷ []) }
        ensures left { IsNext (left self.old) (left self.new) result };
}
