// The traits of jobs and of shops that have them done.
ghost use Rattle.std.specs.Prelude.{◌≡◌, ◌≤◌, ℕ, List, length, IsSome, IfSome, IfNone, ◌↔◌};
ghost use Rattle.batch_shop.specs.Jobs.{IsAdded, ComesHome, HasReason};

/// Work for a worker. In contracts a job is its own value. A worker may move to another thread where the job and its
/// result may.
pub trait Task: Drop {
    /// What the work gives.
    type Done: Drop;

    /// Which results are those of a job.
    ghost gives: { Self → Self.Done → Type 0 };

    /// Does the work.
    fn work(self) -> Self::Done
        ensures { gives self result };
}

/// Who has jobs done.
pub trait Shop<T: Task> {
    /// The jobs that are out.
    ghost out: { Self → List T };
    /// How many jobs may be out: one for each worker that was hired.
    ghost started: { Self → ℕ };
    /// How many looks for a result found a job that is not done yet, up to the last number.
    ghost looks: { Self → ℕ };

    /// Gives a job to a worker, or hands it back where each worker that was hired has a job out.
    fn give(&mut self, job: T) -> Option<T>
        ensures given { IfNone result (IsAdded job (out self.old) (out self.new)) }
        ensures back { IfSome result (λ back. (back ≡ job) × (out self.new ≡ out self.old)) }
        ensures full { IsSome result ↔ (started self.old ≤ length (out self.old)) }
        ensures same { (started self.new ≡ started self.old) × (looks self.new ≡ looks self.old) };

    /// The result of a job that is out, which is then home. None where no job is out, or where the looks rose.
    fn take(&mut self) -> Option<T::Done>
        ensures home { IfSome result (ComesHome T.gives (out self.old) (out self.new)) }
        ensures none { IfNone result (HasReason (out self.old) (out self.new) (looks self.old)
            (looks self.new)) }
        ensures same { started self.new ≡ started self.old };
}
