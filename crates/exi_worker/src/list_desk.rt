ghost use Rattle.std.specs.Prelude.{◌≡◌, ◌∷◌, ◌++◌, [], ⊤, position, OnErr, OnOk};
ghost use Rattle.exi_processing.specs.Reading.{job_of};
ghost use Rattle.exi_worker.specs.Desks.{AllPostings, GivesFirst, is_for};
ghost use Rattle.exi_worker.specs.Outcomes.{IsPostingAt};

use crate::desk::Desk;
use crate::held::Held;
use crate::note::same_job;
use crate::posting::Posting;
use exi_processing::Job;
use std::alloc::{AllocError, Global};

/// A desk that holds postings in a list: all workers ended before the reader began. A posting that comes back is dropped.
#[derive(Drop)]
pub struct ListDesk<'a> {
    /// What is read.
    pub job: Job<'a>,
    /// The postings, in the order in which they are tried.
    pub held: Vec<Held>,
}

impl<'a> ListDesk<'a> {
    /// A desk without postings.
    pub fn new(alloc: Global, job: &Job<'a>) -> ListDesk<'a>
        ensures job { result.job ≡ job.now }
        ensures held { result.held.items ≡ [] }
        ensures sound { AllPostings (job_of result.job) result.held.items }
    {
        ListDesk {
            job: same_job(job),
            held: Vec::new(alloc),
        }
    }

    /// Puts one more posting at the end of the list: the outcome of the fragment that begins at this byte, read by itself
    /// under any limits.
    ///
    /// # Errors
    ///
    /// `AllocError` where memory is refused; the posting is then dropped, and the list is as it was.
    pub fn hold(&mut self, byte: u64, posting: Posting) -> Result<(), AllocError>
        requires outcome { IsPostingAt (job_of self.old.job) byte posting }
        requires sound { AllPostings (job_of self.old.job) self.old.held.items }
        ensures sound { AllPostings (job_of self.new.job) self.new.held.items }
        ensures held { OnOk result (self.new.held.items ≡ self.old.held.items ++ record { byte = byte; posting = posting } ∷ []) }
        ensures err { OnErr result (self.new.held.items ≡ self.old.held.items) }
        ensures job { self.new.job ≡ self.old.job }
    {
        self.held.push(Held { byte, posting })?;
        Ok(())
    }
}

/// The place of the first posting that is held for this byte.
fn find(held: &[Held], byte: u64) -> Option<usize>
    ensures found { result ≡ position (is_for byte) held.now }
{
    held.iter().position(|each| each.byte == byte)
}

/// Takes out the first posting that is held for this byte.
fn take_first(held: &mut Vec<Held>, byte: u64) -> Option<Posting>
    ensures gives { GivesFirst byte held.old.items result held.new.items }
{
    match find(held.as_slice(), byte) {
        None => None,
        Some(place) => {
            let Held { byte: _, posting } = held.remove(place);
            Some(posting)
        }
    }
}

impl<'a> Desk for ListDesk<'a> {
    ghost job = { λ d. job_of d.job };

    ghost sound = { λ d. AllPostings (job_of d.job) d.held.items };

    ghost arrives = { λ a byte given b. GivesFirst byte a.held.items given b.held.items };

    ghost returns = { λ a p b. b.held.items ≡ a.held.items };

    ghost same = { λ a b. ⊤ };

    fn arrive(&mut self, byte: u64) -> Option<Posting> {
        take_first(&mut self.held, byte)
    }

    fn back(&mut self, _posting: Posting) {}

    ghost same_now = { λ s. tt };

    ghost same_then = { λ a b c p q. tt };
}
