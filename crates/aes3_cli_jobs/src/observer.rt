//! Observers of a run.

ghost use Rattle.std.specs.Prelude.{◌≡◌, List, ℕ, Option, Bool, Some, ⊤, [], true, IsTrue};
ghost use Rattle.aes3_cli_jobs.specs.Hearing.{Hearing, with_job, with_refusal};

use crate::job::Job;
use crate::wave_refusal::Refusal;

/// Observes how a run proceeds. It has neither the input nor the output, and the run writes its
/// lines to standard error itself.
///
/// The contract speaks of all bytes that it has written (`told`), if they are known. It also speaks
/// of whether the observer writes nothing (`is_silent`), and of what it has observed (`heard`).
pub trait Observer {
    ghost told: { Self → Option (List ℕ) };

    ghost is_silent: { Self → Bool };

    ghost heard: { Self → Hearing → Type 0 };

    /// The job is about to run.
    fn begins(&mut self, job: &Job)
        ensures silent { IsTrue (is_silent self.old) → told self.new ≡ told self.old }
        ensures unchanged { is_silent self.new ≡ is_silent self.old }
        ensures heard { (hearing : Hearing) → heard self.old hearing
            → heard self.new (with_job job.now hearing) };

    /// The line of this error has been written.
    fn refused(&mut self, error: Refusal)
        ensures told { told self.new ≡ told self.old }
        ensures unchanged { is_silent self.new ≡ is_silent self.old }
        ensures heard { (hearing : Hearing) → heard self.old hearing
            → heard self.new (with_refusal (Some error) hearing) };
}

/// An observer that ignores everything.
#[derive(Clone, Copy)]
pub struct Nobody;

impl Observer for Nobody {
    ghost told = { λ _. Some [] };

    ghost is_silent = { λ _. true };

    // It keeps nothing, so anything holds of what it has observed.
    ghost heard = { λ _ _. ⊤ };

    fn begins(&mut self, _job: &Job) {}

    fn refused(&mut self, _error: Refusal) {}
}
