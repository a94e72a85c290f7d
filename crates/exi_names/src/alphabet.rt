ghost use Rattle.std.specs.Prelude.{◌≡◌, true, false, ◌&&◌, nat_le, IfSome, IfNone, IfOk};
ghost use Rattle.std.specs.Str.{chars};
ghost use Rattle.exi_names.specs.Alphabets.{is_alphabet};
ghost use Rattle.exi_names.specs.Characters.{is_xml_char};

use crate::chars::is_xml;
use crate::letters::{Letters, places_of};
use crate::txt::Txt;
use std::alloc::{AllocError, Global};
use std::marker::Model;

/// The characters that a pattern leaves a string (EXI 1.0, section 7.1.10.1), seen as the list of them:
/// XML characters, sorted by code point, without repeats.
#[derive(Debug, Drop)]
pub struct Alphabet {
    text: Txt,
}

impl Model for Alphabet {
    ghost use Rattle.std.specs.Prelude.{◌≡◌, true, List, ℕ};
    ghost use Rattle.exi_names.specs.Alphabets.{is_alphabet};

    ghost Value = { List ℕ };

    ghost view = { λ a. a.text };

    ghost invariant = { λ a. is_alphabet a.text ≡ true };
}

impl Alphabet {
    /// The alphabet of these characters, and `None` where they are not sorted, repeat one, or are not all
    /// XML characters. It takes no memory.
    pub fn of(text: Txt) -> Option<Alphabet>
        ensures some { IfSome result (λ a. (a ≡ text) × (is_alphabet text ≡ true)) }
        ensures none { IfNone result (is_alphabet text ≡ false) }
    {
        if rises(text.as_str()) {
            Some(Alphabet { text })
        } else {
            None
        }
    }

    /// Its characters.
    pub fn text(&self) -> &Txt
        ensures text { result.now ≡ self.now }
        ensures sorted { is_alphabet self.now ≡ true }
    {
        &self.text
    }

    /// Its characters by their places. Memory is taken only where they are not all ASCII.
    ///
    /// # Errors
    ///
    /// `AllocError` where memory is refused.
    pub fn letters(&self, alloc: Global) -> Result<Letters<'_>, AllocError>
        ensures letters { IfOk result (λ l. l ≡ self.now) }
        ensures sorted { is_alphabet self.now ≡ true }
    {
        Ok(Letters {
            places: places_of(alloc, self.text.as_str())?,
        })
    }

    /// Another alphabet of the same characters.
    ///
    /// # Errors
    ///
    /// `AllocError` where memory is refused.
    pub fn copy(&self) -> Result<Alphabet, AllocError>
        ensures { IfOk result (λ a. a ≡ self.now) }
    {
        Ok(Alphabet {
            text: self.text.copy()?,
        })
    }
}

/// Whether this is an XML character, and its code is `least` or above.
fn may_follow(least: u32, c: char) -> bool
    ensures { result ≡ (nat_le least c && is_xml_char c) }
{
    least <= c as u32 && is_xml(c)
}

/// Whether the characters are XML characters, each above the one before it.
fn rises(text: &str) -> bool
    ensures { result ≡ is_alphabet (chars text.now) }
{
    let mut least = 0;
    for c in text.chars() {
        if !may_follow(least, c) {
            return false;
        }
        least = c as u32 + 1;
    }
    true
}
