//! How a pool is made, with its pages and passes.
ghost use Rattle.std.specs.Prelude.{◌≡◌, ◌+◌, ◌<◌, map, All, IfOk};
ghost use Rattle.crossbeam_queue.specs.Passes.{IsPassOf, IsSamePass, view};
ghost use Rattle.exi_pool.specs.Pages.{IsLone, number_of};
ghost use Rattle.exi_pool.specs.Passes.{IsOf, dry_of, view_of};
ghost use Rattle.exi_pool.specs.Views.{newcomer, newcomers, putting, starter};

use crate::page::Page;
use crate::pass::PoolPass;
use crate::pool::Pool;
use crate::rule::{Make, PutFirst, Rule};
use crate::view::View;
use crossbeam_queue::{Pass, RuledArrayQueue};
use std::alloc::{AllocError, Global};
use std::sync::Wait;
use std::thread;

impl Pool {
    /// A pool of that many pages, numbered from 0, and that many passes. All memory that it ever has is taken here.
    ///
    /// # Errors
    ///
    /// `AllocError` where memory is refused.
    pub fn new<R: Wait>(
        rt: &R,
        alloc: Global,
        pages: u32,
        passes: u32,
    ) -> Result<(Pool, Vec<PoolPass>), AllocError>
        requires passes { 0 < passes }
        ensures views { IfOk result (λ r. map view_of r.1.items ≡ newcomers pages passes) }
        ensures of { IfOk result (λ r. All (IsOf r.0) r.1.items) }
        ensures dry { IfOk result (λ r. All (λ p. dry_of p ≡ 0) r.1.items) }
    {
        let (queue, mut first) = RuledArrayQueue::<Page, View, Rule>::ruled(
            alloc,
            pages as usize + 1,
        )?;
        let pool = Pool { queue };
        pool.fill(rt, alloc, &mut first, pages)?;
        let all = pool.make_passes(alloc, first, pages, passes)?;
        Ok((pool, all))
    }

    /// Puts that many new pages into the queue.
    fn fill<R: Wait>(
        &self,
        rt: &R,
        alloc: Global,
        pass: &mut Pass<Page, View>,
        pages: u32,
    ) -> Result<(), AllocError>
        requires of { IsPassOf self.now.queue pass.old }
        requires fresh { view pass.old ≡ newcomer 0 1 }
        ensures same { IsSamePass pass.old pass.new }
        ensures filled { IfOk result (λ _. view pass.new ≡ starter pages 1) }
    {
        for number in 0..pages {
            let page = Page::blank(alloc, number)?;
            self.put_first(rt, pass, page);
        }
        Ok(())
    }

    /// Puts a new page into the queue.
    fn put_first<R: Wait>(&self, rt: &R, pass: &mut Pass<Page, View>, page: Page)
        requires of { IsPassOf self.now.queue pass.old }
        requires lone { IsLone page }
        ensures same { IsSamePass pass.old pass.new }
        ensures put { view pass.new ≡ putting (number_of page) (view pass.old) }
    {
        let mut page = page;
        for _ in rt.forever() {
            match self.queue.push_as::<PutFirst, R>(rt, pass, page) {
                Ok(()) => return,
                Err(back) => page = back,
            }
            thread::yield_now();
        }
        unreachable!()
    }

    /// All passes of a pool, of which it has the first.
    fn make_passes(
        &self,
        alloc: Global,
        first: Pass<Page, View>,
        pages: u32,
        passes: u32,
    ) -> Result<Vec<PoolPass>, AllocError>
        requires of { IsPassOf self.now.queue first }
        requires id { first.id ≡ 0 }
        requires first { view first ≡ starter pages 1 }
        requires passes { 0 < passes }
        ensures views { IfOk result (λ all. map view_of all.items ≡ newcomers pages passes) }
        ensures of { IfOk result (λ all. All (IsOf self.now) all.items) }
        ensures dry { IfOk result (λ all. All (λ p. dry_of p ≡ 0) all.items) }
    {
        let mut first = first;
        let mut all = Vec::with_capacity(alloc, passes as usize)?;
        for _number in 1..passes {
            let pass = self.queue.another::<Make>(&mut first);
            all.push(PoolPass::fresh(pass))?;
        }
        all.insert(0, PoolPass::fresh(first))?;
        Ok(all)
    }
}
