//! What the rule of a pool says of all its passes together. Each law is a function that does nothing: what it ensures
//! is the law.
//!
//! The rule holds between any two steps of any threads, so each law speaks of any one moment: of what the queue holds
//! and of what the passes know then.

ghost use Rattle.std.specs.Prelude.{◌≡◌};
ghost use Rattle.exi_pool.specs.Laws.{AllBack, EmptyAlone, OutOnce};

use crate::page::Page;
use crate::pass::PoolPass;
use crate::pool::Pool;

/// Once every page that was taken was given back, the queue holds each page of the pool once, and nothing else.
pub fn all_back()
    ensures { AllBack }
{}

/// A page is taken at most once more than it is given back: it is never out twice.
pub fn out_once()
    ensures { OutOnce }
{}

/// Where a pool has one pass, and a take of it found no page, this pass has all pages of the pool.
pub fn empty_alone()
    ensures { EmptyAlone }
{}

/// Threads may share a pool.
pub fn pool_is_shared(pool: &Pool) {
    shared(pool);
}

/// A pool may go to another thread.
pub fn pool_is_sent(pool: Pool) -> Pool
    ensures same { result ≡ pool }
{
    sent(pool)
}

/// A pass may go to another thread.
pub fn pass_is_sent(pass: PoolPass) -> PoolPass
    ensures same { result ≡ pass }
{
    sent(pass)
}

/// Threads may share a page to read.
pub fn page_is_shared(page: &Page) {
    shared(page);
}

/// A page may go to another thread, with the pages before it.
pub fn page_is_sent(page: Page) -> Page
    ensures same { result ≡ page }
{
    sent(page)
}

// Takes what threads may share.
fn shared<T: Sync>(_value: &T) {}

// Takes what may go to another thread.
fn sent<T: Send>(value: T) -> T
    ensures same { result ≡ value }
{
    value
}
