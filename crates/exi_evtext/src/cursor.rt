//! The bytes of a line that are left, and the texts and names in front of them.

ghost use Rattle.std.specs.Prelude.{◌≡◌, ◌∷◌, [], ◌<◌, ◌≤◌, length, take, drop, IsTrue, false, option_copied, IfSome, OnOk};
ghost use Rattle.std.specs.Str.{IsAscii};
ghost use Rattle.exi_calendar.specs.Reading.{Reads, past};
ghost use Rattle.exi_evtext.specs.Reading.{also_at, content_at, name_at, opened_at, plain_at, prefix_at, text_at, unescaped, word_at};
ghost use Rattle.exi_evtext.specs.Parsing.{Decodes, Ends, Gives, Moves, Runs, Steps, escape_at, front, mark_at, stops_run};

use crate::run::run_width;
use crate::stop::LineStop;
use exi_digits::split_at_mark;
use exi_names::{QName, Txt};
use std::alloc::Global;
use std::marker::Model;

/// The bytes of a line that are left. A contract sees them alone.
#[derive(Drop)]
pub struct Cursor<'a> {
    pub alloc: Global,
    pub left: &'a [u8],
    /// Where a value's text is printed again, to be compared.
    pub scratch: String,
}

impl<'a> Model for Cursor<'a> {
    ghost use Rattle.std.specs.Prelude.{List, ℕ};

    ghost Value = { List ℕ };

    ghost view = { λ c. c.left.now };
}

/// What stands behind this mark, where the bytes begin with it.
#[inline(always)]
#[tactic(auto, unfolding(exi_calendar::specs::Reading::past))]
pub fn behind_mark(mark: u8, bytes: &[u8]) -> Option<&[u8]>
    ensures { option_copied result ≡ past (mark ∷ []) bytes.now }
{
    match bytes.split_first() {
        Some((byte, behind)) if *byte == mark => Some(behind),
        _ => None,
    }
}

/// What stands behind a space and a quote, where the bytes begin with them.
#[inline(always)]
fn behind_quote(bytes: &[u8]) -> Option<&[u8]>
    ensures { option_copied result ≡ past (32 ∷ 34 ∷ []) bytes.now }
{
    behind_mark(b'"', behind_mark(b' ', bytes)?)
}

/// Whether a byte surely is ASCII that stands for itself between quotes.
#[inline(always)]
fn is_plain(byte: u8) -> bool
    ensures { IsTrue result → (stops_run byte ≡ false) × (byte < 128) }
{
    (byte >= 93 && byte < 127) || (byte >= 35 && byte < 92) || byte == b' ' || byte == b'!'
}

/// How many bytes in front are ASCII that stands for itself.
#[inline(always)]
fn plain_width(bytes: &[u8]) -> usize
    ensures within { result ≤ length bytes.now }
    ensures ascii { IsAscii (take result bytes.now) }
    ensures read { front (take result bytes.now) (content_at false (drop result bytes.now)) ≡ content_at false bytes.now }
{
    for (place, byte) in bytes.iter().enumerate() {
        if !is_plain(*byte) {
            return place;
        }
    }
    bytes.len()
}

/// The byte that one behind a backslash stands for.
fn unescaped(byte: u8) -> Option<u8>
    ensures is { result ≡ unescaped byte }
    ensures ascii { IfSome result (λ byte. byte < 128) }
{
    match byte {
        b'"' => Some(b'"'),
        b'\\' => Some(b'\\'),
        b'n' => Some(b'\n'),
        b'r' => Some(b'\r'),
        b't' => Some(b'\t'),
        _ => None,
    }
}

/// The byte that an escape stands for, behind its backslash, and what stands behind it.
fn escape(bytes: &[u8]) -> Option<(u8, &[u8])>
    ensures read { Reads result (escape_at bytes.now) }
    ensures ascii { IfSome result (λ found. found.0 < 128) }
    ensures shorter { IfSome result (λ found. length found.1.now < length bytes.now) }
{
    let (byte, rest) = bytes.split_first()?;
    Some((unescaped(*byte)?, rest))
}

/// What stands behind a quote that closes, or the byte that an escape stands for and what stands behind it.
pub fn mark(bytes: &[u8]) -> Option<(Option<u8>, &[u8])>
    ensures read { Reads result (mark_at bytes.now) }
    ensures ascii { IfSome result (λ found. IfSome found.0 (λ byte. byte < 128)) }
    ensures shorter { IfSome result (λ found. length found.1.now < length bytes.now) }
{
    let (mark, rest) = bytes.split_first()?;
    match *mark {
        b'"' => Some((None, rest)),
        b'\\' => {
            let (byte, rest) = escape(rest)?;
            Some((Some(byte), rest))
        }
        _ => None,
    }
}

/// The characters of bytes, where these are UTF-8.
fn decoded(bytes: Vec<u8>) -> Result<Txt, LineStop>
    ensures { Decodes result bytes.items }
{
    match String::from_utf8(bytes) {
        Ok(text) => Ok(Txt::from_string(text)),
        Err(_) => Err(LineStop::Form),
    }
}

impl<'a> Cursor<'a> {
    /// No bytes.
    pub fn new(alloc: Global) -> Cursor<'a> {
        Cursor {
            alloc,
            left: &[],
            scratch: String::new(alloc),
        }
    }

    /// Nothing may be left.
    pub fn end(&self) -> Result<(), LineStop>
        ensures { Ends result self.now }
    {
        match self.left.split_first() {
            None => Ok(()),
            Some(_) => Err(LineStop::Form),
        }
    }

    /// Goes on behind this mark.
    #[inline(always)]
    pub fn past(&mut self, mark: u8) -> Result<(), LineStop>
        ensures { Moves result (past (mark ∷ []) self.old) self.new }
    {
        let Some(left) = behind_mark(mark, self.left) else {
            return Err(LineStop::Form);
        };
        self.left = left;
        Ok(())
    }

    /// The bytes up to the next space, and goes on behind it.
    pub fn word(&mut self) -> Result<&'a [u8], LineStop>
        ensures { Gives (λ word. word.now) result (word_at self.old) self.new }
    {
        let (word, behind) = split_at_mark(self.left, b' ');
        let Some(left) = behind else {
            return Err(LineStop::Form);
        };
        self.left = left;
        Ok(word)
    }

    /// The bytes up to the next quote, and goes on behind it.
    pub fn plain(&mut self) -> Result<&'a [u8], LineStop>
        ensures { Gives (λ plain. plain.now) result (plain_at self.old) self.new }
    {
        let (plain, behind) = split_at_mark(self.left, b'"');
        let Some(left) = behind else {
            return Err(LineStop::Form);
        };
        self.left = left;
        Ok(plain)
    }

    /// Takes the bytes that stand for themselves, and the quote that closes or the escape behind them; tells whether more
    /// is to come.
    fn run(&mut self, content: &mut Vec<u8>) -> Result<bool, LineStop>
        ensures read { Runs result content.old.items content.new.items self.old self.new }
        ensures shorter { OnOk result (length self.new < length self.old) }
    {
        let (run, rest) = self.left.split_at(run_width(self.left));
        content.extend_from_slice(run)?;
        let Some((byte, left)) = mark(rest) else {
            return Err(LineStop::Form);
        };
        self.left = left;
        let Some(byte) = byte else {
            return Ok(false);
        };
        content.push(byte)?;
        Ok(true)
    }

    /// The same; what was taken stands in front of what is read of the rest.
    fn step(&mut self, content: &mut Vec<u8>) -> Result<bool, LineStop>
        ensures read { Steps result content.old.items content.new.items self.old self.new }
        ensures shorter { OnOk result (length self.new < length self.old) }
    {
        self.run(content)
    }

    /// The bytes up to the quote that closes, those behind a backslash taken back.
    fn content(&mut self) -> Result<Vec<u8>, LineStop>
        ensures { Gives (λ content. content.items) result (content_at false self.old) self.new }
    {
        let mut content = Vec::new(self.alloc);
        while self.step(&mut content)? {}
        Ok(content)
    }

    /// A text behind the quote that opens it; most often all its bytes are ASCII that stands for itself.
    #[tactic(auto, using(crate::proofs::Cursors::opened_plain))]
    pub fn opened(&mut self) -> Result<Txt, LineStop>
        ensures { Gives (λ t. t) result (opened_at self.old) self.new }
    {
        let (run, rest) = self.left.split_at(plain_width(self.left));
        let Some(behind) = behind_mark(b'"', rest) else {
            return self.any_opened();
        };
        let mut text = Txt::new(self.alloc);
        text.push_ascii(run)?;
        self.left = behind;
        Ok(text)
    }

    /// A text behind the quote that opens it, of any bytes.
    #[inline(never)]
    #[tactic(auto, unfolding(crate::specs::Reading::decoded))]
    fn any_opened(&mut self) -> Result<Txt, LineStop>
        ensures { Gives (λ t. t) result (opened_at self.old) self.new }
    {
        let content = self.content()?;
        decoded(content)
    }

    /// A text between quotes.
    #[inline(never)]
    pub fn text(&mut self) -> Result<Txt, LineStop>
        ensures { Gives (λ t. t) result (text_at self.old) self.new }
    {
        self.past(b'"')?;
        self.opened()
    }

    /// One more text, behind a space.
    pub fn also(&mut self) -> Result<Txt, LineStop>
        ensures { Gives (λ t. t) result (also_at self.old) self.new }
    {
        self.past(b' ')?;
        self.text()
    }

    /// A prefix, where a quote comes behind a space.
    fn prefix(&mut self) -> Result<Option<Txt>, LineStop>
        ensures { Gives (λ p. p) result (prefix_at self.old) self.new }
    {
        let Some(inside) = behind_quote(self.left) else {
            return Ok(None);
        };
        self.left = inside;
        let prefix = self.opened()?;
        Ok(Some(prefix))
    }

    /// URI, local name, and the prefix where there is one.
    #[tactic(auto, unfolding(crate::specs::Reading::name_at))]
    pub fn name(&mut self) -> Result<QName, LineStop>
        ensures { Gives (λ n. n) result (name_at self.old) self.new }
    {
        let uri = self.text()?;
        let local = self.also()?;
        let prefix = self.prefix()?;
        Ok(QName { uri, local, prefix })
    }
}
