//! Hints from text.

ghost use Rattle.std.specs.Prelude.{◌≡◌, ◌≤◌};
ghost use Rattle.exi_index.specs.Hints.{Parses, hint_on, hints_in};

use exi_digits::{number, split_at_mark};
use exi_names::TextStop;
use std::alloc::Global;

/// How many digits a line has at most.
const MOST_DIGITS: usize = 20;

/// How many lines a text has at most.
const MOST_LINES: u64 = 65_536;

/// The number that the line with this number says, without its line feed; none where it says none, or where it is
/// behind the last line that may be.
fn hint_on(place: u64, line: &[u8]) -> Option<u64>
    ensures { result ≡ hint_on place line.now }
{
    if place > MOST_LINES || line.len() > MOST_DIGITS {
        return None;
    }
    u64::try_from(number(line)?).ok()
}

/// The numbers that the lines of a text say, in their order.
///
/// # Errors
///
/// `Syntax` with the number of the first line, counted from 1, that is not of the form, has no line feed or is the
/// line 65,537; `Memory` where memory is refused.
pub fn parse_hints(alloc: Global, bytes: &[u8]) -> Result<Vec<u64>, TextStop>
    ensures { Parses (λ hints. hints.items) result (hints_in bytes.now) }
{
    let mut hints = Vec::new(alloc);
    let mut left = bytes;
    let mut place = 1;
    while !left.is_empty() {
        let (line, behind) = split_at_mark(left, b'\n');
        let Some(others) = behind else {
            return Err(TextStop::Syntax(place));
        };
        let Some(hint) = hint_on(place, line) else {
            return Err(TextStop::Syntax(place));
        };
        if hints.push(hint).is_err() {
            return Err(TextStop::Memory);
        }
        left = others;
        place += 1;
    }
    Ok(hints)
}
