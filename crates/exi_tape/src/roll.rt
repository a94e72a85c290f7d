//! Bytes on a chain of pages.
ghost use Rattle.std.specs.Prelude.{◌≡◌, ℕ, ◌+◌, ◌-◌, ◌*◌, ◌^◌, ◌<◌, ◌≤◌, ◌++◌, ◌∷◌, [], length, IfOk, OnErr, OnOk};
ghost use Rattle.exi_pool.specs.Pages.{IsLone, chain, number_of, numbers};
ghost use Rattle.exi_pool.specs.Passes.{IsOf, Rose, dry_of, view_of};
ghost use Rattle.exi_pool.specs.Views.{SameStart, gives, takes};
ghost use Rattle.exi_tape.specs.Rolls.{times};
ghost use Rattle.exi_tape.specs.Walks.{left};

use crate::walk::Walk;
use exi_pool::{PAGE_BYTES, Page, Pool, PoolPass};
use std::alloc::{AllocError, Global};
use std::marker::Model;
use std::sync::Wait;
use thiserror::Error;

/// The pool had no page left.
#[derive(Clone, Copy, Debug, PartialEq, Eq, Error)]
#[error("no page is left")]
pub struct Full;

/// Bytes on pages. Pages are taken ahead, so that what is written then finds room.
#[derive(Drop)]
pub(crate) struct Roll {
    /// The pages with bytes, the newest first.
    last: Option<Page>,
    /// How many bytes the newest has; all, where there is none.
    used: u32,
    /// The pages that were taken ahead.
    spare: Option<Page>,
    /// How many of them there are.
    spares: u64,
}

impl Model for Roll {
    ghost use Rattle.std.specs.Prelude.{◌≡◌, ◌≤◌, ◌^◌, [], length};
    ghost use Rattle.exi_pool.specs.Pages.{chain};
    ghost use Rattle.exi_tape.specs.Rolls.{Written, written};

    ghost Value = { Written };

    ghost view = { λ r. written (chain r.last) r.used (chain r.spare) };

    ghost invariant = { λ r. (r.used ≤ 4096) × (r.spares ≡ length (chain r.spare)) × (chain r.last ≡ [] → r.used ≡ 4096) × (r.spares ≤ 2 ^ 30) };
}

impl Roll {
    /// No bytes, on no page.
    pub(crate) fn new() -> Roll
        ensures bytes { result.bytes ≡ [] }
        ensures pages { result.pages ≡ [] }
        ensures room { result.room ≡ 0 }
    {
        Roll {
            last: None,
            used: PAGE_BYTES as u32,
            spare: None,
            spares: 0,
        }
    }

    /// How many bytes there is room for before a page has to be taken.
    pub(crate) fn room(&self) -> u64
        ensures { result ≡ self.now.room }
    {
        PAGE_BYTES as u64 - u64::from(self.used) + PAGE_BYTES as u64 * self.spares
    }

    /// Puts a page beside those that were taken ahead.
    fn add(&mut self, page: Page)
        requires lone { IsLone page }
        requires few { self.old.room < 2 ^ 40 }
        ensures bytes { self.new.bytes ≡ self.old.bytes }
        ensures room { self.new.room ≡ self.old.room + 4096 }
        ensures pages { self.new.pages ≡ number_of page ∷ self.old.pages }
    {
        let mut page = page;
        page.link(self.spare.take());
        self.spare = Some(page);
        self.spares += 1;
    }

    /// Goes on to the next page, from one that is full.
    fn advance(&mut self)
        requires full { self.old.full ≡ 0 }
        requires room { 0 < self.old.room }
        ensures bytes { self.new.bytes ≡ self.old.bytes }
        ensures room { self.new.room ≡ self.old.room }
        ensures full { self.new.full ≡ 4096 }
        ensures pages { (n : ℕ) → times n self.new.pages ≡ times n self.old.pages }
    {
        if let Some(mut page) = self.spare.take() {
            self.spare = page.part();
            self.spares -= 1;
            page.link(self.last.take());
            self.last = Some(page);
            self.used = 0;
        }
    }

    /// Writes bytes to the newest page.
    #[inline]
    fn fill(&mut self, bytes: &[u8])
        requires room { length bytes.now ≤ self.old.full }
        requires some { 0 < self.old.full }
        ensures bytes { self.new.bytes ≡ self.old.bytes ++ bytes.now }
        ensures full { self.new.full + length bytes.now ≡ self.old.full }
        ensures room { self.new.room + length bytes.now ≡ self.old.room }
        ensures pages { self.new.pages ≡ self.old.pages }
    {
        if let Some(page) = self.last.as_mut() {
            page.write(self.used as usize, bytes);
            self.used += bytes.len() as u32;
        }
    }

    /// Takes pages until that many bytes find room. Pages that were taken before the pool had none left stay.
    pub(crate) fn reserve<R: Wait>(
        &mut self,
        rt: &R,
        pool: &Pool,
        pass: &mut PoolPass,
        more: u64,
    ) -> Result<(), Full>
        requires of { IsOf pool.now pass.old }
        requires few { more < 2 ^ 40 }
        ensures of { IsOf pool.now pass.new }
        ensures room { OnOk result (more ≤ self.new.room) }
        ensures fits { OnOk result (self.new.room < 2 ^ 64) }
        ensures bytes { self.new.bytes ≡ self.old.bytes }
        ensures full { OnErr result (Rose (dry_of pass.old) (dry_of pass.new)) }
        ensures pages { (n : ℕ) → times n self.new.pages + takes n (view_of pass.old) ≡ times n self.old.pages + takes n (view_of pass.new) }
        ensures gives { (view_of pass.new).gives ≡ (view_of pass.old).gives }
        ensures later { dry_of pass.old ≤ dry_of pass.new }
        ensures start { SameStart (view_of pass.old) (view_of pass.new) }
        ensures most { 4096 * length (view_of pass.new).takes ≤ 4096 * (length (view_of pass.old).takes + 1) + more }
    {
        while self.room() < more {
            match pool.take(rt, pass) {
                Some(page) => self.add(page),
                None => return Err(Full),
            }
        }
        Ok(())
    }

    /// Writes the first of some bytes, and gives the rest.
    fn write_some<'a>(&mut self, bytes: &'a [u8]) -> &'a [u8]
        requires room { length bytes.now ≤ self.old.room }
        requires some { 0 < length bytes.now }
        ensures bytes { self.new.bytes ++ result.now ≡ self.old.bytes ++ bytes.now }
        ensures fewer { length result.now < length bytes.now }
        ensures room { self.new.room + length bytes.now ≡ self.old.room + length result.now }
        ensures pages { (n : ℕ) → times n self.new.pages ≡ times n self.old.pages }
    {
        if self.used as usize == PAGE_BYTES {
            self.advance();
        }
        let count = bytes.len().min(PAGE_BYTES - self.used as usize);
        let (front, rest) = bytes.split_at(count);
        self.fill(front);
        rest
    }

    /// Writes bytes, for which there is room.
    #[inline]
    pub(crate) fn write(&mut self, bytes: &[u8])
        requires room { length bytes.now ≤ self.old.room }
        ensures bytes { self.new.bytes ≡ self.old.bytes ++ bytes.now }
        ensures room { self.new.room + length bytes.now ≡ self.old.room }
        ensures pages { (n : ℕ) → times n self.new.pages ≡ times n self.old.pages }
    {
        if !bytes.is_empty() && bytes.len() <= PAGE_BYTES - self.used as usize {
            self.fill(bytes);
        } else {
            self.write_across(bytes);
        }
    }

    /// The same, on more than one page.
    #[inline(never)]
    fn write_across(&mut self, bytes: &[u8])
        requires room { length bytes.now ≤ self.old.room }
        ensures bytes { self.new.bytes ≡ self.old.bytes ++ bytes.now }
        ensures room { self.new.room + length bytes.now ≡ self.old.room }
        ensures pages { (n : ℕ) → times n self.new.pages ≡ times n self.old.pages }
    {
        let mut rest = bytes;
        while !rest.is_empty() {
            rest = self.write_some(rest);
        }
    }

    /// Gives each page back.
    pub(crate) fn give_back<R: Wait>(self, rt: &R, pool: &Pool, pass: &mut PoolPass)
        requires of { IsOf pool.now pass.old }
        ensures of { IsOf pool.now pass.new }
        ensures gives { (n : ℕ) → gives n (view_of pass.new) ≡ gives n (view_of pass.old) + times n self.pages }
        ensures takes { (view_of pass.new).takes ≡ (view_of pass.old).takes }
        ensures dry { dry_of pass.new ≡ dry_of pass.old }
        ensures start { SameStart (view_of pass.old) (view_of pass.new) }
    {
        let Roll { last, spare, .. } = self;
        give_chain(rt, pool, pass, last);
        give_chain(rt, pool, pass, spare);
    }

    /// The bytes, to be read from the first on. Takes room for where each page lies.
    ///
    /// # Errors
    ///
    /// `AllocError` where memory is refused.
    pub(crate) fn walk(&self, alloc: Global) -> Result<Walk<'_>, AllocError>
        ensures { IfOk result (λ w. left w ≡ self.now.bytes) }
    {
        let mut later = Vec::new(alloc);
        let mut page = self.last.as_ref();
        let mut used = self.used as usize;
        while let Some(this) = page {
            later.push(&this.bytes()[..used])?;
            used = PAGE_BYTES;
            page = this.before();
        }
        Ok(Walk::of(alloc, later))
    }
}

/// Gives a page and those before it.
fn give_chain<R: Wait>(rt: &R, pool: &Pool, pass: &mut PoolPass, pages: Option<Page>)
    requires of { IsOf pool.now pass.old }
    ensures of { IsOf pool.now pass.new }
    ensures gives { (n : ℕ) → gives n (view_of pass.new) ≡ gives n (view_of pass.old) + times n (numbers (chain pages)) }
    ensures takes { (view_of pass.new).takes ≡ (view_of pass.old).takes }
    ensures dry { dry_of pass.new ≡ dry_of pass.old }
    ensures start { SameStart (view_of pass.old) (view_of pass.new) }
{
    let mut next = pages;
    while let Some(mut page) = next {
        next = page.part();
        pool.give(rt, pass, page);
    }
}
