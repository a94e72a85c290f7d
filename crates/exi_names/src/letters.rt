ghost use Rattle.std.specs.Prelude.{◌≡◌, ◌<◌, true, length, get_or, IfOk};
ghost use Rattle.std.specs.Str.{chars};
ghost use Rattle.exi_names.specs.Alphabets.{is_alphabet, place_of};
ghost use Rattle.exi_names.specs.Letters.{characters};

use std::alloc::{AllocError, Global};
use std::marker::Model;

/// The characters of an alphabet by their places, seen as the list of them.
///
/// ```text
///   ASCII alone      0 1 2 .. 9        the character at a place is the byte there
///   any others       0 1 2 .. 9 €      decoded once, each at its place
/// ```
#[derive(Debug, Drop)]
pub struct Letters<'a> {
    pub(crate) places: Places<'a>,
}

/// Where the characters are.
#[derive(Debug, Drop)]
pub(crate) enum Places<'a> {
    /// The alphabet's own text, of ASCII alone.
    Ascii(&'a [u8]),
    /// All of them, decoded.
    Decoded(Vec<char>),
}

impl<'a> Model for Letters<'a> {
    ghost use Rattle.std.specs.Prelude.{◌≡◌, true, List, ℕ};
    ghost use Rattle.exi_names.specs.Alphabets.{is_alphabet};
    ghost use Rattle.exi_names.specs.Letters.{characters};

    ghost Value = { List ℕ };

    ghost view = { λ l. characters l.places };

    ghost invariant = { λ l. is_alphabet (characters l.places) ≡ true };
}

impl<'a> Letters<'a> {
    /// How many characters there are.
    pub fn len(&self) -> usize
        ensures { result ≡ length self.now }
    {
        match &self.places {
            Places::Ascii(bytes) => bytes.len(),
            Places::Decoded(chars) => chars.len(),
        }
    }

    /// The character at a place.
    pub fn at(&self, place: usize) -> char
        requires { place < length self.now }
        ensures { result ≡ get_or self.now place 0 }
    {
        match &self.places {
            Places::Ascii(bytes) => char::from(bytes[place]),
            Places::Decoded(chars) => chars[place],
        }
    }

    /// The place of a character, and `None` where it is not one of these.
    pub fn place_of(&self, c: char) -> Option<usize>
        ensures { result ≡ place_of c self.now }
    {
        match &self.places {
            Places::Ascii(bytes) => place_of_byte(bytes, c),
            Places::Decoded(chars) => place_of_char(chars, c),
        }
    }
}

/// The characters of a text by their places. Memory is taken only where they are not all ASCII.
pub(crate) fn places_of(alloc: Global, text: &str) -> Result<Places<'_>, AllocError>
    ensures { IfOk result (λ p. characters p ≡ chars text.now) }
{
    if text.is_ascii() {
        return Ok(Places::Ascii(text.as_bytes()));
    }
    Ok(Places::Decoded(text.chars().collect(alloc)?))
}

fn place_of_byte(bytes: &[u8], c: char) -> Option<usize>
    requires { is_alphabet bytes.now ≡ true }
    ensures { result ≡ place_of c bytes.now }
{
    let Ok(byte) = u8::try_from(c) else {
        return None;
    };
    bytes.binary_search(&byte).ok()
}

fn place_of_char(chars: &[char], c: char) -> Option<usize>
    requires { is_alphabet chars.now ≡ true }
    ensures { result ≡ place_of c chars.now }
{
    chars.binary_search(&c).ok()
}
