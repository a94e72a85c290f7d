//! Where a text keeps its UTF-8.

ghost use Rattle.std.specs.Prelude.{◌≡◌, ◌+◌, ◌≤◌, ◌++◌, [], length, take, encode_utf8, true, IfOk, IfSome, IsTrue, OnErr, OnOk, ◌↔◌};
ghost use Rattle.std.specs.Str.{IsAscii, chars};
ghost use Rattle.exi_names.specs.Bodies.{kept_count};
ghost use Rattle.exi_names.specs.Characters.{are_plain};
ghost use Rattle.std.specs.String.{string_bytes};

use crate::counts::count_chars;
use crate::lanes::{plain_front, same_front};
use std::alloc::{AllocError, Global};
use std::marker::Model;

/// How many bytes a text keeps within itself, all of them plain: with their number and what tells them from a string, they
/// take four words.
const ROOM: usize = 30;

/// Some plain bytes within the value itself: each is a character.
#[derive(Debug, Drop)]
struct Short {
    len: u8,
    bytes: [u8; ROOM],
}

impl Model for Short {
    ghost use Rattle.std.specs.Prelude.{ℕ, List, ◌≡◌, ◌≤◌, take, true};
    ghost use Rattle.exi_names.specs.Characters.{are_plain};

    ghost Value = { List ℕ };

    ghost view = { λ s. take s.len s.bytes };

    ghost invariant = { λ s. (s.len ≤ 30) × (are_plain (take s.len s.bytes) ≡ true) };
}

impl Short {
    /// No bytes.
    #[inline(always)]
    fn new() -> Short
        ensures { result ≡ [] }
    {
        Short {
            len: 0,
            bytes: [0; ROOM],
        }
    }

    /// The first bytes of a room, where they are plain.
    #[inline(always)]
    fn of_room(bytes: [u8; ROOM], count: usize) -> Option<Short>
        requires few { count ≤ 30 }
        ensures { IfSome result (λ s. s ≡ take count bytes) }
    {
        if !plain_front(&bytes, count) {
            return None;
        }
        Some(Short {
            len: count as u8,
            bytes,
        })
    }

    /// The first bytes of many, where they are plain: all that may be among them are copied at once.
    #[inline(always)]
    fn of_front(bytes: &[u8], count: usize) -> Option<Short>
        requires few { count ≤ 30 }
        requires room { 30 ≤ length bytes.now }
        ensures { IfSome result (λ s. s ≡ take count bytes.now) }
    {
        let mut front = [0; ROOM];
        front.copy_from_slice(&bytes[..ROOM]);
        Short::of_room(front, count)
    }

    /// The same, of bytes that are known to be plain.
    #[inline(always)]
    fn of_plain(bytes: &[u8], count: usize) -> Short
        requires few { count ≤ 30 }
        requires room { 30 ≤ length bytes.now }
        requires plain { are_plain (take count bytes.now) ≡ true }
        ensures { result ≡ take count bytes.now }
    {
        let mut front = [0; ROOM];
        front.copy_from_slice(&bytes[..ROOM]);
        Short {
            len: count as u8,
            bytes: front,
        }
    }

    /// The same bytes.
    #[inline(always)]
    fn copy(&self) -> Short
        ensures { result ≡ self.now }
    {
        Short {
            len: self.len,
            bytes: self.bytes,
        }
    }

    /// Whether another has the same bytes: all that there may be are compared at once.
    #[inline(always)]
    fn same(&self, other: &Short) -> bool
        ensures { IsTrue result ↔ (self.now ≡ other.now) }
    {
        self.len == other.len && same_front(&self.bytes, &other.bytes, usize::from(self.len))
    }

    /// Whether so many bytes more fit.
    #[inline(always)]
    fn fits(&self, more: usize) -> bool
        ensures { IsTrue result ↔ (length self.now + more ≤ 30) }
    {
        more <= ROOM - usize::from(self.len)
    }

    /// With bytes at the end, where they are plain.
    #[inline(always)]
    fn pushed(&self, text: &str) -> Option<Short>
        requires fits { length self.now + length text.now ≤ 30 }
        ensures { IfSome result (λ s. s ≡ self.now ++ text.now) }
    {
        let end = usize::from(self.len) + text.len();
        let mut bytes = self.bytes;
        bytes[usize::from(self.len)..end].copy_from_slice(text.as_bytes());
        Short::of_room(bytes, end)
    }

    /// The bytes.
    #[inline(always)]
    fn as_str(&self) -> &str
        ensures { result.now ≡ self.now }
    {
        unsafe { std::str::from_utf8_unchecked(&self.bytes[..usize::from(self.len)]) }
    }
}

/// So many characters more than are kept of some.
#[inline(always)]
fn added(kept: u32, more: u64) -> u32
    ensures { result ≡ kept_count (kept + more) }
{
    match u32::try_from(more) {
        Ok(more) => kept.saturating_add(more),
        Err(_) => u32::MAX,
    }
}

/// Where bytes lie. The characters of a string are counted, as far as a word of 32 bits tells.
#[derive(Debug)]
enum Form {
    Short(Global, Short),
    Long(u32, String),
}

/// They are let go by a call: the two forms are then no cases of whoever holds a text.
impl Drop for Form {
    fn drop(self) {
        match self {
            Form::Short(_, _) => {}
            Form::Long(_, _) => {}
        }
    }
}

/// The UTF-8 of a text: few plain bytes within the value itself, others in a string.
#[derive(Debug, Drop)]
pub(crate) struct Body(Form);

impl Model for Body {
    ghost use Rattle.std.specs.Prelude.{ℕ, List};
    ghost use Rattle.exi_names.specs.Bodies.{IsCounted, form_bytes};

    ghost Value = { List ℕ };

    ghost view = { λ b. form_bytes b.0 };

    ghost invariant = { λ b. IsCounted b.0 };
}

impl Body {
    /// No bytes.
    #[inline(always)]
    pub(crate) fn new(alloc: Global) -> Body
        ensures { result ≡ [] }
    {
        Body(Form::Short(alloc, Short::new()))
    }

    /// The bytes that a string holds, in the string's own memory.
    pub(crate) fn of_string(text: String) -> Body
        ensures { result ≡ string_bytes text }
    {
        let characters = added(0, count_chars(text.as_str()));
        Body(Form::Long(characters, text))
    }

    /// These bytes.
    pub(crate) fn of(alloc: Global, text: &str) -> Result<Body, AllocError>
        ensures { IfOk result (λ b. b ≡ text.now) }
    {
        if text.len() <= ROOM {
            if let Some(short) = Short::new().pushed(text) {
                return Ok(Body(Form::Short(alloc, short)));
            }
        }
        Ok(Body::of_string(String::from_str(alloc, text)?))
    }

    /// The first bytes of some.
    #[inline(always)]
    pub(crate) fn of_front(alloc: Global, bytes: &[u8], count: usize) -> Result<Body, AllocError>
        requires within { count ≤ length bytes.now }
        requires ascii { IsAscii (take count bytes.now) }
        ensures { IfOk result (λ b. b ≡ take count bytes.now) }
    {
        if count <= ROOM && bytes.len() >= ROOM {
            if let Some(short) = Short::of_front(bytes, count) {
                return Ok(Body(Form::Short(alloc, short)));
            }
        }
        Body::of(
            alloc,
            unsafe { std::str::from_utf8_unchecked(&bytes[..count]) },
        )
    }

    /// Puts the first bytes of some, which have to be plain, in place of all. A string's memory is kept.
    #[inline(always)]
    pub(crate) fn refill(&mut self, bytes: &[u8], count: usize) -> Result<(), AllocError>
        requires within { count ≤ length bytes.now }
        requires plain { are_plain (take count bytes.now) ≡ true }
        ensures ok { OnOk result (self.new ≡ take count bytes.now) }
        ensures err { OnErr result (self.new ≡ []) }
    {
        if count <= ROOM && bytes.len() >= ROOM {
            if let Form::Short(_, own) = &mut self.0 {
                *own = Short::of_plain(bytes, count);
                return Ok(());
            }
        }
        self.clear();
        let text = unsafe { std::str::from_utf8_unchecked(&bytes[..count]) };
        self.push_counted(text, count as u64)
    }

    /// The same bytes.
    pub(crate) fn copy(&self) -> Result<Body, AllocError>
        ensures { IfOk result (λ b. b ≡ self.now) }
    {
        match &self.0 {
            Form::Short(alloc, short) => Ok(Body(Form::Short(*alloc, short.copy()))),
            Form::Long(characters, text) => Ok(Body(Form::Long(*characters, text.clone()?))),
        }
    }

    /// The bytes as a string, with room for so many more.
    #[cold]
    #[inline(never)]
    fn grown(alloc: Global, short: &Short, more: usize) -> Result<String, AllocError>
        ensures { IfOk result (λ t. string_bytes t ≡ short.now) }
    {
        let mut text = String::with_capacity(alloc, usize::from(short.len).saturating_add(more))?;
        text.push_str(short.as_str())?;
        Ok(text)
    }

    /// Asks for room for so many more bytes.
    pub(crate) fn reserve(&mut self, more: usize) -> Result<(), AllocError>
        ensures { self.new ≡ self.old }
    {
        match &mut self.0 {
            Form::Short(alloc, short) => {
                if !short.fits(more) {
                    let grown = Body::grown(*alloc, short, more)?;
                    *self = Body::of_string(grown);
                }
                Ok(())
            }
            Form::Long(_, text) => text.reserve(more),
        }
    }

    /// Puts bytes at the end, which are so many characters.
    #[inline(always)]
    pub(crate) fn push_counted(&mut self, text: &str, more: u64) -> Result<(), AllocError>
        requires counted { more ≡ length (chars text.now) }
        ensures ok { OnOk result (self.new ≡ self.old ++ text.now) }
        ensures err { OnErr result (self.new ≡ self.old) }
    {
        match &mut self.0 {
            Form::Short(alloc, own) => {
                if own.fits(text.len()) {
                    if let Some(short) = own.pushed(text) {
                        *own = short;
                        return Ok(());
                    }
                }
                let mut grown = Body::grown(*alloc, own, text.len())?;
                grown.push_str(text)?;
                *self = Body::of_string(grown);
                Ok(())
            }
            Form::Long(characters, long) => {
                long.push_str(text)?;
                *characters = added(*characters, more);
                Ok(())
            }
        }
    }

    /// Puts a character at the end.
    #[inline(always)]
    pub(crate) fn push(&mut self, c: char) -> Result<(), AllocError>
        ensures ok { OnOk result (self.new ≡ self.old ++ encode_utf8 c) }
        ensures err { OnErr result (self.new ≡ self.old) }
    {
        let mut buffer = [0; 4];
        self.push_counted(c.encode_utf8(&mut buffer), 1)
    }

    /// Takes all bytes away, and keeps a string's memory.
    #[inline(always)]
    pub(crate) fn clear(&mut self)
        ensures { self.new ≡ [] }
    {
        match &mut self.0 {
            Form::Short(_, short) => *short = Short::new(),
            Form::Long(characters, text) => {
                text.clear();
                *characters = 0;
            }
        }
    }

    /// How many characters the bytes are.
    #[inline(always)]
    pub(crate) fn count(&self) -> u64
        ensures { result ≡ length (chars self.now) }
    {
        match &self.0 {
            Form::Short(_, short) => u64::from(short.len),
            Form::Long(characters, text) => {
                if *characters < u32::MAX {
                    return u64::from(*characters);
                }
                count_chars(text.as_str())
            }
        }
    }

    /// The bytes.
    #[inline(always)]
    pub(crate) fn as_str(&self) -> &str
        ensures { result.now ≡ self.now }
    {
        match &self.0 {
            Form::Short(_, short) => short.as_str(),
            Form::Long(_, text) => text.as_str(),
        }
    }

    /// Whether another has the same bytes.
    #[inline(always)]
    pub(crate) fn same(&self, other: &Body) -> bool
        ensures { IsTrue result ↔ (self.now ≡ other.now) }
    {
        match (&self.0, &other.0) {
            (Form::Short(_, short), Form::Short(_, others)) => short.same(others),
            _ => self.as_str() == other.as_str(),
        }
    }

    /// The room within that has the bytes, where one has, and how many of it they are: all of them plain.
    #[inline(always)]
    pub(crate) fn room(&self) -> Option<(&[u8], usize)>
        ensures bytes { IfSome result (λ r. take r.1 r.0.now ≡ self.now) }
        ensures plain { IfSome result (λ r. are_plain self.now ≡ true) }
        ensures room { IfSome result (λ r. length r.0.now ≡ 30) }
        ensures few { IfSome result (λ r. r.1 ≤ 30) }
    {
        match &self.0 {
            Form::Short(_, short) => Some((&short.bytes, usize::from(short.len))),
            Form::Long(_, _) => None,
        }
    }
}
