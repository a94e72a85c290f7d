//! Sets of characters that grow.

ghost use Rattle.std.specs.Prelude.{◌≡◌, true, [], ◌+◌, ◌≤◌, OnOk, IfOk, None, Some};
ghost use Rattle.std.specs.Option.{is_none};
ghost use Rattle.exi_names.specs.Characters.{is_xml_char};
ghost use Rattle.exi_pattern.specs.Sets.{every, with_letter, with_code, with_codes, with_member};
ghost use Rattle.exi_pattern.specs.Patterns.{kept};
ghost use Rattle.exi_pattern.specs.Joins.{joined, letters_in, with_all};
ghost use Rattle.std.specs.Str.{chars};

use crate::charset::CharSet;
use crate::member::Member;
use exi_names::{Alphabet, Txt, xml_char};
use std::alloc::{AllocError, Global};
use std::marker::Model;

/// How many characters a set has at most.
const MOST: usize = 255;

/// The characters found so far, or any character.
///
/// They are kept sorted, so that each is found by binary search, and given up as soon as they are too many.
#[derive(Debug, Drop)]
pub struct Letters {
    few: Option<Vec<char>>,
}

impl Model for Letters {
    ghost use Rattle.std.specs.Prelude.{Option, List, ℕ, option_map};
    ghost use Rattle.exi_pattern.specs.Sets.{AreLetters};

    ghost Value = { Option (List ℕ) };

    ghost view = { λ l. option_map (λ v. v.items) l.few };

    ghost invariant = { λ l. AreLetters (option_map (λ v. v.items) l.few) };
}

impl Letters {
    /// No characters.
    pub fn new(alloc: Global) -> Letters
        ensures { result ≡ Some [] }
    {
        Letters {
            few: Some(Vec::new(alloc)),
        }
    }

    /// Whether any character may stand.
    fn is_any(&self) -> bool
        ensures { result ≡ is_none self.now }
    {
        self.few.is_none()
    }

    /// Lets any character stand.
    pub(crate) fn give_up(&mut self)
        ensures { self.new ≡ every }
    {
        self.few = None;
    }

    /// Adds an XML character.
    fn add(&mut self, c: char) -> Result<(), AllocError>
        requires { is_xml_char c ≡ true }
        ensures { OnOk result (self.new ≡ with_letter c self.old) }
    {
        if c > '\u{FFFF}' {
            self.few = None;
            return Ok(());
        }
        let Some(few) = &mut self.few else {
            return Ok(());
        };
        if let Err(place) = few.binary_search(&c) {
            if few.len() == MOST {
                self.few = None;
            } else {
                few.insert(place, c)?;
            }
        }
        Ok(())
    }

    /// Adds the XML characters of so many codes from `first` on.
    fn add_codes(&mut self, first: u32, count: u32) -> Result<(), AllocError>
        requires { first + count ≤ 0x11_0000 }
        ensures { OnOk result (self.new ≡ with_codes first count self.old) }
    {
        for code in first..first + count {
            if self.is_any() {
                return Ok(());
            }
            if let Some(c) = xml_char(u128::from(code)) {
                self.add(c)?;
            }
        }
        Ok(())
    }

    /// Adds what a member of the pattern stands for.
    pub(crate) fn add_member(&mut self, member: Member) -> Result<(), AllocError>
        ensures { OnOk result (self.new ≡ with_member member self.old) }
    {
        match member {
            Member::Span(first, last) => {
                let first = first as u32;
                let count = (last as u32 + 1).saturating_sub(first);
                self.add_codes(first, count)
            }
            Member::Spaces => {
                self.add_codes(9, 2)?;
                self.add_codes(13, 1)?;
                self.add_codes(32, 1)
            }
            Member::Others => {
                self.give_up();
                Ok(())
            }
        }
    }

    /// Adds the characters of a text that are XML's.
    fn add_all(&mut self, text: &str) -> Result<(), AllocError>
        ensures { OnOk result (self.new ≡ with_all (chars text.now) self.old) }
    {
        for c in text.chars() {
            self.add_codes(c as u32, 1)?;
        }
        Ok(())
    }

    /// Adds the characters of a pattern. Where it leaves any character, or is refused, any may stand.
    ///
    /// # Errors
    ///
    /// `AllocError` where memory is refused.
    pub fn join(&mut self, set: &CharSet) -> Result<(), AllocError>
        ensures { OnOk result (self.new ≡ joined self.old (letters_in set.now)) }
    {
        match set {
            CharSet::Set(letters) => self.add_all(letters.text().as_str()),
            CharSet::Any | CharSet::Refused(_) => {
                self.give_up();
                Ok(())
            }
        }
    }

    /// The characters, where there is a set of them.
    ///
    /// # Errors
    ///
    /// `AllocError` where memory is refused.
    pub fn into_alphabet(self, alloc: Global) -> Result<Option<Alphabet>, AllocError>
        ensures { IfOk result (λ a. a ≡ self) }
    {
        match self.into_set(alloc)? {
            CharSet::Set(letters) => Ok(Some(letters)),
            CharSet::Any | CharSet::Refused(_) => Ok(None),
        }
    }

    /// The set.
    pub(crate) fn into_set(self, alloc: Global) -> Result<CharSet, AllocError>
        ensures { IfOk result (λ s. s ≡ kept self) }
    {
        let Some(few) = self.few else {
            return Ok(CharSet::Any);
        };
        let mut text = Txt::new(alloc);
        for c in &few {
            text.push(*c)?;
        }
        match Alphabet::of(text) {
            Some(letters) => Ok(CharSet::Set(letters)),
            None => Ok(CharSet::Any),
        }
    }
}
