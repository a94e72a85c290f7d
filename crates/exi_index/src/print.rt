//! Hints as text.

ghost use Rattle.std.specs.Prelude.{◌≡◌, ◌++◌, OnOk, IfOk, encode_utf8_all, string_bytes};
ghost use Rattle.exi_index.specs.Hints.{line_of, lines_of};

use exi_digits::push_number;
use exi_names::Txt;
use std::alloc::{AllocError, Global};

/// Puts the line of a hint at the end, with its line feed.
///
/// # Errors
///
/// `AllocError` where memory is refused; the text then has a front of the line behind it, perhaps none.
pub fn push_hint(out: &mut String, hint: u64) -> Result<(), AllocError>
    ensures { OnOk result (string_bytes out.new ≡ string_bytes out.old ++ line_of hint) }
{
    push_number(out, u128::from(hint))?;
    out.push('\n')
}

/// The lines of hints, in their order.
///
/// # Errors
///
/// `AllocError` where memory is refused.
pub fn print_hints(alloc: Global, offsets: &[u64]) -> Result<Txt, AllocError>
    ensures { IfOk result (λ text. encode_utf8_all text ≡ lines_of offsets.now) }
{
    let mut out = String::new(alloc);
    for hint in offsets {
        push_hint(&mut out, *hint)?;
    }
    Ok(Txt::from_string(out))
}
