ghost use Rattle.std.specs.Prelude.{◌≡◌, ◌∷◌, ◌++◌, ◌+◌, ◌<◌, ◌≤◌, [], length, take, MatchOption, IfOk};
ghost use Rattle.exi_pool.specs.Pages.{IsLone, before, bytes_of, chain, number_of, numbers, sheet};

use std::alloc::{AllocError, Global};
use std::marker::Model;

/// How many bytes a page has.
pub const PAGE_BYTES: usize = 4_096;

/// A page, with the pages before it. Seen as the list of them all, itself first: each has a number and its bytes.
#[cycle(page)]
pub struct Page {
    number: u32,
    leaf: Box<Leaf>,
}

/// What of a page stays where it is when the page moves.
#[cycle(page)]
#[derive(Drop)]
struct Leaf {
    bytes: Vec<u8>,
    before: Option<Page>,
}

/// A chain is let go page by page: it may be too long for a call within a call for each of its pages.
impl Drop for Page {
    fn drop(mut self) {
        loop {
            let Page { number: _, leaf } = self;
            let Leaf { bytes: _, before } = Box::into_inner(leaf);
            match before {
                None => return,
                Some(page) => self = page,
            }
        }
    }
}

impl Model for Page {
    ghost use Rattle.std.specs.Prelude.{◌≡◌, List, length};
    ghost use Rattle.exi_pool.specs.Pages.{Sheet, sheets};

    ghost Value = { List Sheet };

    ghost view = { λ p. sheets p.number p.leaf.value.bytes.items p.leaf.value.before };

    ghost invariant = { λ p. length p.leaf.value.bytes.items ≡ 4096 };

    ghost size = { length };

    ghost use Rattle.std.proofs.Common.{arith};

    ghost size_decreases = { λ p h. Prim.grind (arith) };
}

impl Page {
    /// A page of zeros.
    pub(crate) fn blank(alloc: Global, number: u32) -> Result<Page, AllocError>
        ensures number { IfOk result (λ p. number_of p ≡ number) }
        ensures lone { IfOk result IsLone }
    {
        let bytes = Vec::from_elem(alloc, 0u8, PAGE_BYTES)?;
        let leaf = Leaf {
            bytes,
            before: None,
        };
        Ok(Page {
            number,
            leaf: Box::new(alloc, leaf)?,
        })
    }

    /// The page's number. No other page of its pool has it.
    #[inline]
    pub fn number(&self) -> u32
        ensures { result ≡ number_of self.now }
    {
        self.number
    }

    /// The page's bytes.
    #[inline]
    pub fn bytes(&self) -> &[u8]
        ensures bytes { result.now ≡ bytes_of self.now }
        ensures count { length result.now ≡ 4096 }
    {
        &self.leaf.bytes
    }

    /// The page before it, with those before that one.
    #[inline]
    pub fn before(&self) -> Option<&Page>
        ensures before { MatchOption result (before self.now ≡ []) (λ p. before self.now ≡ p.now) }
        ensures some { length self.now ≡ length (before self.now) + 1 }
    {
        self.leaf.before.as_ref()
    }

    /// Parts the page from those before it, which it gives.
    #[inline]
    pub fn part(&mut self) -> Option<Page>
        ensures some { 0 < length self.old }
        ensures rest { chain result ≡ before self.old }
        ensures page { self.new ≡ sheet (number_of self.old) (bytes_of self.old) ∷ [] }
    {
        self.leaf.before.take()
    }

    /// Puts pages before it, where there are none.
    #[inline]
    pub fn link(&mut self, rest: Option<Page>)
        requires lone { IsLone self.old }
        ensures { self.new ≡ sheet (number_of self.old) (bytes_of self.old) ∷ chain rest }
    {
        self.leaf.before = rest;
    }

    /// Writes bytes into the page, from a place on. What stands before that place stays.
    #[inline]
    pub fn write(&mut self, at: usize, bytes: &[u8])
        requires within { at + length bytes.now ≤ 4096 }
        ensures front { take (at + length bytes.now) (bytes_of self.new) ≡ take at (bytes_of self.old) ++ bytes.now }
        ensures numbers { numbers self.new ≡ numbers self.old }
        ensures before { before self.new ≡ before self.old }
        ensures page { length self.new ≡ length self.old }
    {
        self.leaf.bytes[at..at + bytes.len()].copy_from_slice(bytes);
    }
}
