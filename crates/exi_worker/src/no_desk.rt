ghost use Rattle.std.specs.Prelude.{◌≡◌, None, ⊤};
ghost use Rattle.std.proofs.Common.{refl, ◌∙◌};
ghost use Rattle.exi_processing.specs.Reading.{job_of};

use crate::desk::Desk;
use crate::note::same_job;
use crate::posting::Posting;
use exi_processing::Job;

/// A desk that has no posting: a reader that asks it reads all by itself.
#[derive(Clone, Copy)]
pub struct NoDesk<'a> {
    /// What is read.
    pub job: Job<'a>,
}

impl<'a> NoDesk<'a> {
    /// The desk of a reader of this job.
    pub fn of(job: &Job<'a>) -> NoDesk<'a>
        ensures { result.job ≡ job.now }
    {
        NoDesk { job: same_job(job) }
    }
}

impl<'a> Desk for NoDesk<'a> {
    ghost job = { λ d. job_of d.job };

    ghost sound = { λ d. ⊤ };

    ghost arrives = { λ a byte given b. (given ≡ None) × (b ≡ a) };

    ghost returns = { λ a p b. b ≡ a };

    ghost same = { λ a b. b ≡ a };

    fn arrive(&mut self, _byte: u64) -> Option<Posting> {
        None
    }

    fn back(&mut self, _posting: Posting) {}

    ghost same_now = { λ s. refl };

    ghost same_then = { λ a b c p q. q ∙ p };
}
