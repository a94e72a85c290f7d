//! A text that stands in a line, with what stands behind it.

ghost use Rattle.std.specs.Prelude.{◌≡◌, ◌≤◌, [], OnErr, OnOk, true, length, take};
ghost use Rattle.exi_names.specs.Characters.{are_plain};

use exi_names::Txt;
use std::alloc::AllocError;
use std::marker::Model;

/// The first bytes of some. A text of few is filled by as many of all as it keeps within itself, whatever their number.
#[derive(Drop)]
pub struct Front<'a> {
    bytes: &'a [u8],
    count: usize,
}

impl<'a> Model for Front<'a> {
    ghost use Rattle.std.specs.Prelude.{List, ℕ, ◌≤◌, length, take};

    ghost Value = { List ℕ };

    ghost view = { λ f. take f.count f.bytes.now };

    ghost invariant = { λ f. f.count ≤ length f.bytes.now };
}

impl<'a> Front<'a> {
    /// So many bytes. There have to be as many.
    #[inline(always)]
    pub fn new(bytes: &'a [u8], count: usize) -> Front<'a>
        requires { count ≤ length bytes.now }
        ensures { result ≡ take count bytes.now }
    {
        Front { bytes, count }
    }

    /// Puts them, which have to be plain, in the place of a text, in its memory.
    ///
    /// # Errors
    ///
    /// `AllocError` where memory is refused; the text is then empty.
    #[inline(always)]
    pub fn fill(&self, text: &mut Txt) -> Result<(), AllocError>
        requires { are_plain self.now ≡ true }
        ensures ok { OnOk result (text.new ≡ self.now) }
        ensures err { OnErr result (text.new ≡ []) }
    {
        text.refill(self.bytes, self.count)
    }
}
