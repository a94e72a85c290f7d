//! Values in front of the bytes of a line that are left.

ghost use Rattle.std.specs.Prelude.{◌≡◌, ◌++◌, length, bytes_eq, codes, IfSome};
ghost use Rattle.exi_names.specs.Seen.{integer, seen, values_of, vals};
ghost use Rattle.exi_evtext.specs.Parsing.{Counts, Gives};
ghost use Rattle.exi_evtext.specs.Reading.{item_at, item_of, items_at, list_at, opened_integer, opened_value, scalar_at, value_at, value_of};

use crate::cursor::Cursor;
use crate::scalar::{is_four, number_of, scalar_of, whole_of};
use crate::stop::LineStop;
use exi_digits::split_at_mark;
use exi_names::{Val, ValList, Whole};

/// What stands behind the word of a text and the quote that opens it, where the bytes begin with them.
#[inline(always)]
pub fn inside_text(bytes: &[u8]) -> Option<&[u8]>
    ensures { IfSome result (λ inside. bytes.now ≡ codes "text \"" ++ inside.now) }
{
    if bytes.len() >= 6
        && bytes[0] == b't'
        && bytes[1] == b'e'
        && bytes[2] == b'x'
        && bytes[3] == b't'
        && bytes[4] == b' '
        && bytes[5] == b'"'
    {
        Some(&bytes[6..])
    } else {
        None
    }
}

/// What stands behind a space, the word of an integer and the quote that opens its text, where the bytes begin with them.
#[inline(always)]
pub fn inside_integer(bytes: &[u8]) -> Option<&[u8]>
    ensures { IfSome result (λ inside. bytes.now ≡ codes " int \"" ++ inside.now) }
{
    if bytes.len() >= 6
        && bytes[0] == b' '
        && bytes[1] == b'i'
        && bytes[2] == b'n'
        && bytes[3] == b't'
        && bytes[4] == b' '
        && bytes[5] == b'"'
    {
        Some(&bytes[6..])
    } else {
        None
    }
}

impl<'a> Cursor<'a> {
    /// An integer, behind the quote that opens its text.
    #[inline(always)]
    pub fn opened_integer(&mut self) -> Result<Whole, LineStop>
        ensures { Gives integer result (opened_integer self.old) self.new }
    {
        let digits = self.plain()?;
        whole_of(&mut self.scratch, digits)
    }

    /// A value by its canonical text between quotes.
    fn scalar(&mut self, word: &[u8]) -> Result<Val, LineStop>
        ensures { Gives seen result (scalar_at word.now self.old) self.new }
    {
        self.past(b'"')?;
        let digits = self.plain()?;
        scalar_of(self.alloc, &mut self.scratch, word, digits)
    }

    /// A value that is neither a list nor a name, behind its word.
    #[tactic(auto, unfolding(crate::specs::Reading::item_of))]
    fn item_of(&mut self, word: &[u8]) -> Result<Val, LineStop>
        ensures { Gives seen result (item_of (word.now, self.old)) self.new }
    {
        if is_four(word, b't', b'e', b'x', b't') {
            let text = self.text()?;
            Ok(Val::Text(text))
        } else {
            self.scalar(word)
        }
    }

    /// A value that is neither a list nor a name.
    fn item(&mut self) -> Result<Val, LineStop>
        ensures { Gives seen result (item_at self.old) self.new }
    {
        let word = self.word()?;
        self.item_of(word)
    }

    /// So many such values, each behind a space.
    fn items(&mut self, count: u128) -> Result<ValList, LineStop>
        ensures { Gives (λ list. values_of (vals list)) result (items_at count self.old) self.new }
    {
        let mut list = ValList::new(self.alloc);
        for _ in 0..count {
            self.past(b' ')?;
            let item = self.item()?;
            list.push(item)?;
        }
        Ok(list)
    }

    /// How many values, and each of them.
    #[inline(never)]
    #[tactic(auto, unfolding(crate::specs::Reading::list_at))]
    fn list(&mut self) -> Result<Val, LineStop>
        ensures { Gives seen result (list_at self.old) self.new }
    {
        let count = self.count()?;
        let list = self.items(count)?;
        Ok(Val::Items(list))
    }

    /// The number in front of the next space, and goes on at that space.
    fn count(&mut self) -> Result<u128, LineStop>
        ensures { Counts result self.old self.new }
    {
        let (digits, _) = split_at_mark(self.left, b' ');
        let Some(count) = number_of(digits) else {
            return Err(LineStop::Form);
        };
        let (_, left) = self.left.split_at(digits.len());
        self.left = left;
        Ok(count)
    }

    /// A text as a value, behind the quote that opens it.
    fn opened_value(&mut self) -> Result<Val, LineStop>
        ensures { Gives seen result (opened_value self.old) self.new }
    {
        let text = self.opened()?;
        Ok(Val::Text(text))
    }

    /// A value; most often it is a text.
    pub fn value(&mut self) -> Result<Val, LineStop>
        ensures { Gives seen result (value_at self.old) self.new }
    {
        let Some(inside) = inside_text(self.left) else {
            return self.any_value();
        };
        self.left = inside;
        self.opened_value()
    }

    /// A value of any kind.
    #[inline(never)]
    #[tactic(auto, unfolding(crate::specs::Reading::value_of))]
    fn any_value(&mut self) -> Result<Val, LineStop>
        ensures { Gives seen result (value_at self.old) self.new }
    {
        let word = self.word()?;
        if is_four(word, b'l', b'i', b's', b't') {
            self.list()
        } else if is_four(word, b'n', b'a', b'm', b'e') {
            let name = self.name()?;
            Ok(Val::Name(name))
        } else {
            self.item_of(word)
        }
    }
}
