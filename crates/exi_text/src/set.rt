ghost use Rattle.std.specs.Prelude.{◌≡◌, ◌≢◌, ◌+◌, ◌<◌, ◌≤◌, ℕ, length, get_or, IfOk, IsTrue};
ghost use Rattle.std.specs.Str.{chars};
ghost use Rattle.exi_names.specs.Alphabets.{place_of};
ghost use Rattle.exi_text.specs.Literals.{all_xml, width_in};

use exi_bits::bits_for;
use exi_names::{Alphabet, Letters, Txt, is_xml};
use std::alloc::{AllocError, Global};
use std::marker::Model;

/// The characters that a pattern leaves, by their places, and how many bits a place or the escape takes.
/// Seen as the list of the characters.
#[derive(Drop)]
pub struct Set<'a> {
    letters: Letters<'a>,
    width: u32,
}

impl<'a> Model for Set<'a> {
    ghost use Rattle.std.specs.Prelude.{◌≡◌, ◌≤◌, List, ℕ};
    ghost use Rattle.exi_text.specs.Literals.{width_in};

    ghost Value = { List ℕ };

    ghost view = { λ s. s.letters };

    ghost invariant = { λ s. (s.width ≡ width_in s.letters) × (s.width ≤ 64) };
}

impl<'a> Set<'a> {
    /// The characters of an alphabet, which is decoded where it is not of ASCII alone.
    pub fn of(alloc: Global, alphabet: &'a Alphabet) -> Result<Set<'a>, AllocError>
        ensures { IfOk result (λ s. s ≡ alphabet.now) }
    {
        let letters = alphabet.letters(alloc)?;
        let width = bits_for(letters.len() as u64 + 1);
        Ok(Set { letters, width })
    }

    /// How many bits a place or the escape takes.
    pub fn width(&self) -> u32
        ensures width { result ≡ width_in self.now }
        ensures narrow { result ≤ 64 }
    {
        self.width
    }

    /// How many characters there are.
    pub fn len(&self) -> u64
        ensures { result ≡ length self.now }
    {
        self.letters.len() as u64
    }

    /// The character at a place.
    pub fn at(&self, place: u64) -> char
        requires { place < length self.now }
        ensures { result ≡ get_or self.now place 0 }
    {
        self.letters.at(place as usize)
    }

    /// The place of a character, where it is one of these.
    pub fn place_of(&self, c: char) -> Option<u64>
        ensures { result ≡ place_of c self.now }
    {
        match self.letters.place_of(c) {
            Some(place) => Some(place as u64),
            None => None,
        }
    }
}

/// Whether each character of the text is an XML character, so that it has a spelling. Most short texts tell it at once.
#[inline(always)]
pub fn is_writable(text: &Txt) -> bool
    ensures { result ≡ all_xml text.now }
{
    // the look is told of the text's octets, which are seen as its characters' here
    let characters = text.as_str();
    if text.is_surely_plain() {
        return true;
    }
    is_all_xml(characters)
}

/// True only where none of these octets is below 20, as a control has it, and none is EF, the first of a character from
/// U+F000 to U+FFFF, of which two are no XML characters. None of them ends the search, so that many are looked at at once.
fn are_common(octets: &[u8]) -> bool
    ensures { IsTrue result → (i : ℕ) → i < length octets.now → (0x20 ≤ get_or octets.now i 0) × (get_or octets.now i 0 ≢ 0xEF) }
{
    let mut all = true;
    for octet in octets {
        all = all & (*octet >= 0x20) & (*octet != 0xEF);
    }
    all
}

/// Whether each character is an XML character. Of most texts the octets tell it.
#[inline(never)]
fn is_all_xml(text: &str) -> bool
    ensures { result ≡ all_xml (chars text.now) }
{
    if are_common(text.as_bytes()) {
        return true;
    }
    for c in text.chars() {
        if !is_xml(c) {
            return false;
        }
    }
    true
}
