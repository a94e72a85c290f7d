ghost use Rattle.std.specs.Prelude.{◌≡◌, [], ◌∷◌, ◌++◌, ◌<◌, ◌≤◌, ℕ, true, get_or, length, take, Some, IfOk, IfSome, OnOk, OnErr, IsTrue, ◌↔◌, encode_utf8_all};
ghost use Rattle.std.proofs.Common.{refl};
ghost use Rattle.std.specs.Str.{chars, bytes_eq, IsAscii};
ghost use Rattle.std.specs.String.{string_bytes};
ghost use Rattle.exi_names.specs.Characters.{are_plain, between};
ghost use Rattle.std.specs.Cmp.Lexicographic.{slice_cmp, nat_list_eq_equiv, nat_list_cmp_total};
ghost use Rattle.std.specs.Ordering.{nat_cmp};
ghost use Rattle.std.specs.Cmp;
ghost use Rattle.std.specs.Cmp.{on_total};
ghost use Rattle.std.specs.Hash as fed;
ghost use Rattle.exi_names.specs.TextLaws.{spelled_tie, fed_alike};

use crate::body::Body;
use crate::counts::count_chars;
use std::alloc::{AllocError, Global};
use std::cmp::Ordering;
use std::hash::{Hash, Hasher};
use std::marker::Model;

/// A text, seen as the list of its characters.
///
/// Texts are equal where they have the same characters, and are ordered by their UTF-8. So a set of
/// texts is looked up by `&Txt`, and holds each of them once. How many characters it has is kept.
#[derive(Debug, Drop)]
pub struct Txt {
    body: Body,
}

impl Model for Txt {
    ghost use Rattle.std.specs.Prelude.{List, ℕ};
    ghost use Rattle.std.specs.Str.{IsUtf8, chars};

    ghost Value = { List ℕ };

    ghost view = { λ t. chars t.body };

    ghost invariant = { λ t. ∥ IsUtf8 t.body ∥₁ };
}

impl Txt {
    /// The empty text.
    pub fn new(alloc: Global) -> Txt
        ensures { result ≡ [] }
    {
        Txt {
            body: Body::new(alloc),
        }
    }

    /// The text of these characters.
    ///
    /// # Errors
    ///
    /// `AllocError` where memory is refused.
    pub fn of(alloc: Global, text: &str) -> Result<Txt, AllocError>
        ensures { IfOk result (λ t. t ≡ chars text.now) }
    {
        Ok(Txt {
            body: Body::of(alloc, text)?,
        })
    }

    /// The first bytes of some, which have to be ASCII: a character each. Where there are more bytes than a text keeps
    /// within itself, as many are copied at once.
    ///
    /// # Errors
    ///
    /// `AllocError` where memory is refused.
    #[inline(always)]
    pub fn of_front(alloc: Global, bytes: &[u8], count: usize) -> Result<Txt, AllocError>
        requires within { count ≤ length bytes.now }
        requires ascii { IsAscii (take count bytes.now) }
        ensures { IfOk result (λ t. t ≡ take count bytes.now) }
    {
        Ok(Txt {
            body: Body::of_front(alloc, bytes, count)?,
        })
    }

    /// Puts the first bytes of some in place of all characters. They have to be plain, from 20 to 7E and neither a quote nor a
    /// backslash. Memory that the text has is kept.
    ///
    /// # Errors
    ///
    /// `AllocError` where memory is refused; the text is then empty.
    #[inline(always)]
    pub fn refill(&mut self, bytes: &[u8], count: usize) -> Result<(), AllocError>
        requires within { count ≤ length bytes.now }
        requires plain { are_plain (take count bytes.now) ≡ true }
        ensures ok { OnOk result (self.new ≡ take count bytes.now) }
        ensures err { OnErr result (self.new ≡ []) }
    {
        self.body.refill(bytes, count)?;
        Ok(())
    }

    /// The text that the string holds, in the string's own memory. Counts its characters.
    pub fn from_string(text: String) -> Txt
        ensures { result ≡ chars (string_bytes text) }
    {
        Txt {
            body: Body::of_string(text),
        }
    }

    /// Another text with the same characters.
    ///
    /// # Errors
    ///
    /// `AllocError` where memory is refused.
    pub fn copy(&self) -> Result<Txt, AllocError>
        ensures { IfOk result (λ t. t ≡ self.now) }
    {
        Ok(Txt {
            body: self.body.copy()?,
        })
    }

    /// Puts a character at the end.
    ///
    /// # Errors
    ///
    /// `AllocError` where memory is refused; the text is then unchanged.
    #[inline]
    pub fn push(&mut self, c: char) -> Result<(), AllocError>
        ensures ok { OnOk result (self.new ≡ self.old ++ c ∷ []) }
        ensures err { OnErr result (self.new ≡ self.old) }
    {
        self.body.push(c)?;
        Ok(())
    }

    /// Puts characters at the end.
    ///
    /// # Errors
    ///
    /// `AllocError` where memory is refused; the text is then unchanged.
    pub fn push_str(&mut self, text: &str) -> Result<(), AllocError>
        ensures ok { OnOk result (self.new ≡ self.old ++ chars text.now) }
        ensures err { OnErr result (self.new ≡ self.old) }
    {
        self.body.push_counted(text, count_chars(text))?;
        Ok(())
    }

    /// Puts ASCII characters at the end, a byte each, with one copy and nothing to count.
    ///
    /// # Errors
    ///
    /// `AllocError` where memory is refused; the text is then unchanged.
    #[inline]
    pub fn push_ascii(&mut self, bytes: &[u8]) -> Result<(), AllocError>
        requires ascii { IsAscii bytes.now }
        ensures ok { OnOk result (self.new ≡ self.old ++ bytes.now) }
        ensures err { OnErr result (self.new ≡ self.old) }
    {
        // What is ASCII is UTF-8, and is each its own character.
        let text = unsafe { std::str::from_utf8_unchecked(bytes) };
        self.body.push_counted(text, bytes.len() as u64)?;
        Ok(())
    }

    /// Asks for room for that many more bytes of UTF-8 at once, in place of step by step. The text stays
    /// as it is; this is a matter of speed alone.
    ///
    /// # Errors
    ///
    /// `AllocError` where memory is refused.
    pub fn reserve(&mut self, more: usize) -> Result<(), AllocError>
        ensures { self.new ≡ self.old }
    {
        self.body.reserve(more)
    }

    /// Takes all characters away. Memory that the text has is kept.
    #[inline]
    pub fn clear(&mut self)
        ensures { self.new ≡ [] }
    {
        self.body.clear();
    }

    /// How many characters the text has.
    #[inline]
    pub fn count(&self) -> u64
        ensures { result ≡ length self.now }
    {
        self.body.count()
    }

    /// The characters in UTF-8.
    #[inline]
    pub fn as_str(&self) -> &str
        ensures chars { self.now ≡ chars result.now }
        ensures bytes { result.now ≡ encode_utf8_all self.now }
    {
        self.body.as_str()
    }

    /// Whether the other text has the same characters.
    #[inline]
    pub fn same(&self, other: &Txt) -> bool
        ensures same { IsTrue result ↔ (self.now ≡ other.now) }
        ensures test { result ≡ bytes_eq self.now other.now }
    {
        self.body.same(&other.body)
    }

    /// True only where each byte of the text's UTF-8 is from 20 to 7F. A text that has no [`room`](Txt::room) may answer false
    /// whatever its bytes are.
    #[inline(always)]
    pub fn is_surely_plain(&self) -> bool
        ensures { IsTrue result → (i : ℕ) → i < length (encode_utf8_all self.now) → between 0x20 0x7F (get_or (encode_utf8_all self.now) i 0) ≡ true }
    {
        match self.room() {
            Some(_) => true,
            None => false,
        }
    }

    /// The room of 30 bytes that a short text has within itself, and how many of them are its UTF-8: the first, each of them
    /// plain, from 20 to 7E and neither a quote nor a backslash. What lies behind them is not told. A text whose bytes lie in a
    /// string has none, however few they are: one that is long, or was, or has a byte that is not plain, or came from a string.
    #[inline(always)]
    pub fn room(&self) -> Option<(&[u8], usize)>
        ensures bytes { IfSome result (λ r. take r.1 r.0.now ≡ encode_utf8_all self.now) }
        ensures plain { IfSome result (λ r. are_plain (encode_utf8_all self.now) ≡ true) }
        ensures room { IfSome result (λ r. length r.0.now ≡ 30) }
        ensures few { IfSome result (λ r. r.1 ≤ 30) }
    {
        self.body.room()
    }
}

impl PartialEq for Txt {
    ghost eq = { bytes_eq };

    ghost laws = { Cmp.partial_equiv_from_equiv nat_list_eq_equiv };

    fn eq(&self, other: &Txt) -> bool {
        self.same(other)
    }
}

impl Eq for Txt {
    ghost laws = { nat_list_eq_equiv };
}

impl PartialOrd for Txt {
    ghost partial_cmp = { λ x y. Some (slice_cmp nat_cmp (encode_utf8_all x) (encode_utf8_all y)) };

    ghost laws = { Cmp.po (on_total encode_utf8_all nat_list_cmp_total) spelled_tie };

    fn partial_cmp(&self, other: &Txt) -> Option<Ordering> {
        Some(self.cmp(other))
    }
}

impl Ord for Txt {
    ghost cmp = { λ x y. slice_cmp nat_cmp (encode_utf8_all x) (encode_utf8_all y) };

    ghost total = { on_total encode_utf8_all nat_list_cmp_total };

    ghost matches_partial_cmp = { λ x y. refl };

    ghost matches_eq = { spelled_tie };

    fn cmp(&self, other: &Txt) -> Ordering {
        self.as_str().cmp(other.as_str())
    }
}

impl Hash for Txt {
    ghost hash_input = { λ t. fed.str (encode_utf8_all t) };

    ghost respects_eq = { fed_alike };

    fn hash<H: Hasher>(&self, state: &mut H) {
        self.as_str().hash(state);
    }
}
