//! Texts and names between quotes.

ghost use Rattle.std.specs.Prelude.{◌≡◌, ◌<◌, ◌≤◌, ◌++◌, [], ◌∷◌, IfSome, IsTrue, OnOk, OnErr, OnSome, MatchOption, length, take, slice_range, string_bytes};
ghost use Rattle.std.specs.List.{flat_map};
ghost use Rattle.exi_names.specs.Shown.{named};
ghost use Rattle.exi_evtext.specs.Kept.{Keeps};
ghost use Rattle.exi_evtext.specs.Lines.{also, escaped, name_words, quoted};

use crate::run::run_width;
use exi_names::{NameRef, Txt};
use std::alloc::AllocError;

/// How many bytes are few: as many are looked at at once.
const FEW: usize = 16;

/// What stands for a byte between quotes, where it may not stand for itself.
#[inline(always)]
pub fn escape(byte: u8) -> Option<&'static str>
    ensures text { MatchOption result (escaped byte ≡ byte ∷ []) (λ text. escaped byte ≡ text.now) }
    ensures two { IfSome result (λ text. length text.now ≡ 2) }
    ensures ascii { OnSome result (byte < 128) }
{
    match byte {
        b'"' => Some("\\\""),
        b'\\' => Some("\\\\"),
        b'\n' => Some("\\n"),
        b'\r' => Some("\\r"),
        b'\t' => Some("\\t"),
        _ => None,
    }
}

/// Whether a byte surely stands for itself between quotes.
#[inline(always)]
fn stands(byte: u8) -> bool
    ensures { IsTrue result → escaped byte ≡ byte ∷ [] }
{
    (byte >= 32) & (byte != b'"') & (byte != b'\\')
}

/// Whether all bytes surely stand for themselves between quotes, looked at one by one.
fn each_stands(bytes: &[u8]) -> bool
    ensures { IsTrue result → flat_map escaped bytes.now ≡ bytes.now }
{
    for byte in bytes {
        if !stands(*byte) {
            return false;
        }
    }
    true
}

/// The same of a few bytes. Those that stand are counted, for which a processor tests all of them by one word of its own.
#[inline(always)]
fn few_stand(bytes: &[u8]) -> bool
    requires few { length bytes.now ≤ 16 }
    ensures { IsTrue result → flat_map escaped bytes.now ≡ bytes.now }
{
    let mut standing = 0u8;
    for byte in bytes {
        standing += u8::from(stands(*byte));
    }
    usize::from(standing) == bytes.len()
}

/// Whether all bytes surely stand for themselves between quotes. The last few are looked at together, some of them once more.
pub fn is_plain(bytes: &[u8]) -> bool
    ensures { IsTrue result → flat_map escaped bytes.now ≡ bytes.now }
{
    let count = bytes.len();
    if count < FEW {
        return each_stands(bytes);
    }
    let last = count - FEW;
    let mut done = 0;
    while done < last {
        if !few_stand(&bytes[done..done + FEW]) {
            return false;
        }
        done += FEW;
    }
    few_stand(&bytes[last..])
}

/// The text's bytes as they stand between quotes.
fn push_escaped(out: &mut String, text: &str) -> Result<(), AllocError>
    ensures ok { OnOk result (string_bytes out.new ≡ string_bytes out.old ++ flat_map escaped text.now) }
    ensures err { OnErr result (Keeps (string_bytes out.old) (string_bytes out.new)) }
{
    if is_plain(text.as_bytes()) {
        return out.push_str(text);
    }
    push_runs(out, text)
}

/// The end of the bytes from a place on that stand for themselves.
pub fn run_end(bytes: &[u8], from: usize) -> usize
    requires { from ≤ length bytes.now }
    ensures behind { from ≤ result }
    ensures within { result ≤ length bytes.now }
    ensures plain { flat_map escaped (slice_range bytes.now from result) ≡ slice_range bytes.now from result }
{
    from + run_width(&bytes[from..])
}

/// The text's bytes as they stand between quotes: those that stand for themselves in runs.
fn push_runs(out: &mut String, text: &str) -> Result<(), AllocError>
    ensures ok { OnOk result (string_bytes out.new ≡ string_bytes out.old ++ flat_map escaped text.now) }
    ensures err { OnErr result (Keeps (string_bytes out.old) (string_bytes out.new)) }
{
    let bytes = text.as_bytes();
    let mut start = 0;
    let mut place = run_end(bytes, 0);
    while place < bytes.len() {
        if let Some(escape) = escape(bytes[place]) {
            out.push_str(&text[start..place])?;
            out.push_str(escape)?;
            start = place + 1;
        }
        place = run_end(bytes, place + 1);
    }
    out.push_str(&text[start..])
}

/// A text between quotes.
pub fn push_quoted(out: &mut String, text: &Txt) -> Result<(), AllocError>
    ensures ok { OnOk result (string_bytes out.new ≡ string_bytes out.old ++ quoted text.now) }
    ensures err { OnErr result (Keeps (string_bytes out.old) (string_bytes out.new)) }
{
    out.push('"')?;
    push_escaped(out, text.as_str())?;
    out.push('"')
}

/// One more text, behind a space.
pub fn push_also(out: &mut String, text: &Txt) -> Result<(), AllocError>
    ensures ok { OnOk result (string_bytes out.new ≡ string_bytes out.old ++ also text.now) }
    ensures err { OnErr result (Keeps (string_bytes out.old) (string_bytes out.new)) }
{
    out.push(' ')?;
    push_quoted(out, text)
}

/// URI, local name, and the prefix where there is one.
pub fn push_name(out: &mut String, name: &NameRef<'_>) -> Result<(), AllocError>
    ensures ok { OnOk result (string_bytes out.new ≡ string_bytes out.old ++ name_words (named name.now)) }
    ensures err { OnErr result (Keeps (string_bytes out.old) (string_bytes out.new)) }
{
    push_quoted(out, name.uri)?;
    push_also(out, name.local)?;
    match name.prefix {
        Some(prefix) => push_also(out, prefix),
        None => Ok(()),
    }
}
