ghost use Rattle.std.specs.Prelude.{◌≡◌};
ghost use Rattle.exi_processing.specs.Reading.{job_of};
ghost use Rattle.exi_worker.specs.Outcomes.{IsPosting, pages_in, worker_bounds};

use crate::posting::Posting;
use exi_board::Note;
use exi_processing::Job;

/// What a board promises of its postings: each is the outcome of the fragment of this job at the byte of its hint, read by
/// itself under a worker's limits.
#[derive(Clone, Copy)]
pub struct JobNote<'a> {
    /// The job.
    pub job: Job<'a>,
}

impl<'a> JobNote<'a> {
    /// The note of this job.
    pub fn of(job: &Job<'a>) -> JobNote<'a>
        ensures { result.job ≡ job.now }
    {
        JobNote { job: same_job(job) }
    }
}

/// The same job.
pub(crate) fn same_job<'a>(job: &Job<'a>) -> Job<'a>
    ensures { result ≡ job.now }
{
    Job {
        book: job.book,
        bytes: job.bytes,
        body: job.body,
        limits: job.limits,
    }
}

impl<'a> Note<Posting> for JobNote<'a> {
    ghost fits = { λ note byte p. IsPosting (job_of note.job) byte worker_bounds p };

    ghost pages = { pages_in };
}
