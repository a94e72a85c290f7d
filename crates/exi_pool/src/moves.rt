//! How pages go out and come back.
ghost use Rattle.std.specs.Prelude.{◌≡◌, ◌+◌, ◌-◌, ◌^◌, ◌≤◌, min, IfNone, IfSome};
ghost use Rattle.exi_pool.specs.Pages.{IsLone, number_of};
ghost use Rattle.exi_pool.specs.Passes.{IsOf, dry_of, view_of};
ghost use Rattle.exi_pool.specs.Rule.{WasEmpty};
ghost use Rattle.exi_pool.specs.Views.{giving, taking};

use crate::page::Page;
use crate::pass::PoolPass;
use crate::pool::Pool;
use crate::rule::{Give, Take};
use std::sync::Wait;
use std::thread;

impl Pool {
    /// Takes the page that has been in the queue longest. `None` only where the queue was empty at a moment of this
    /// call, which the pass then counts. The pass has to be one of this pool's.
    pub fn take<R: Wait>(&self, rt: &R, pass: &mut PoolPass) -> Option<Page>
        requires of { IsOf self.now pass.old }
        ensures of { IsOf self.now pass.new }
        ensures took { IfSome result (λ p. view_of pass.new ≡ taking (number_of p) (view_of pass.old)) }
        ensures lone { IfSome result IsLone }
        ensures counted { IfSome result (λ p. dry_of pass.new ≡ dry_of pass.old) }
        ensures none { IfNone result (view_of pass.new ≡ view_of pass.old) }
        ensures empty { IfNone result (WasEmpty (view_of pass.old)) }
        ensures dry { IfNone result (dry_of pass.new ≡ min (dry_of pass.old + 1) (2 ^ 64 - 1)) }
        ensures later { dry_of pass.old ≤ dry_of pass.new }
    {
        match self.queue.pop_as::<Take, R>(rt, &mut pass.pass) {
            Some(page) => Some(page),
            None => {
                pass.dry = pass.dry.saturating_add(1);
                None
            }
        }
    }

    /// Puts a page into the queue that was taken, and has no pages before it. Where the queue is full, as it can be
    /// where pages of another pool were given to it, this waits until there is room. The pass has to be one of this
    /// pool's.
    pub fn give<R: Wait>(&self, rt: &R, pass: &mut PoolPass, page: Page)
        requires of { IsOf self.now pass.old }
        requires lone { IsLone page }
        ensures of { IsOf self.now pass.new }
        ensures gave { view_of pass.new ≡ giving (number_of page) (view_of pass.old) }
        ensures dry { dry_of pass.new ≡ dry_of pass.old }
    {
        let mut page = page;
        for _ in rt.forever() {
            match self.queue.push_as::<Give, R>(rt, &mut pass.pass, page) {
                Ok(()) => return,
                Err(back) => page = back,
            }
            thread::yield_now();
        }
        unreachable!()
    }
}
