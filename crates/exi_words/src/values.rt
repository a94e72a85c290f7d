//! What the values that words give mean, one by one.

ghost use Rattle.std.specs.Prelude.{◌≡◌, ◌≤◌, IfSome, chars, option_copied, option_map};
ghost use Rattle.clap.specs.Words.{first_of};
ghost use Rattle.exi_words.specs.Found.{rows_found};
ghost use Rattle.exi_words.specs.Values.{flags_of, is_schema_name, name_if, number_if, number_or};
ghost use Rattle.exi_words.specs.Values.{number_told, number_within, stands, with_bit};

use bitflags::Flags;
use clap::ArgMatches;
use exi_digits::number;
use exi_gram::OptionFlags;
use exi_names::is_xml;

/// How many digits a number has at most.
const MOST_DIGITS: usize = 10;

/// How many characters a schema's name has at most.
const MOST_CHARACTERS: u64 = 65_536;

/// The value of an option, or of the word that has to stand.
pub(crate) fn value<'a>(matches: &ArgMatches<'a>, name: &str) -> Option<&'a str>
    ensures { option_copied result ≡ first_of name.now (rows_found matches.now) }
{
    matches.get_str(name)
}

/// Whether a flag stands.
pub(crate) fn stands(matches: &ArgMatches<'_>, name: &str) -> bool
    ensures { result ≡ stands name.now (rows_found matches.now) }
{
    match value(matches, name) {
        Some(text) => text == "true",
        None => false,
    }
}

/// With an option of the stream, where its flag stands.
fn with_bit(
    matches: &ArgMatches<'_>,
    name: &str,
    flag: OptionFlags,
    flags: OptionFlags,
) -> OptionFlags
    ensures { result ≡ record { 0 = with_bit (rows_found matches.now) name.now flag.0 flags.0 } }
{
    let mut flags = flags;
    if stands(matches, name) {
        flags.insert(flag);
    }
    flags
}

/// The options of the stream that are on.
pub(crate) fn flags_of(matches: &ArgMatches<'_>) -> OptionFlags
    ensures { result ≡ flags_of (rows_found matches.now) }
{
    let flags = OptionFlags::from_bits_retain(0);
    let flags = with_bit(matches, "strict", OptionFlags::STRICT, flags);
    let flags = with_bit(matches, "fragment", OptionFlags::FRAGMENT, flags);
    let flags = with_bit(
        matches,
        "self-contained",
        OptionFlags::SELF_CONTAINED,
        flags,
    );
    let flags = with_bit(matches, "byte-aligned", OptionFlags::BYTES, flags);
    let flags = with_bit(matches, "comments", OptionFlags::COMMENTS, flags);
    let flags = with_bit(matches, "pis", OptionFlags::PIS, flags);
    let flags = with_bit(matches, "dtd", OptionFlags::DTD, flags);
    with_bit(matches, "prefixes", OptionFlags::PREFIXES, flags)
}

/// A number of 1 to 10 digits.
fn number_told(text: &str) -> Option<u128>
    ensures { result ≡ number_told text.now }
{
    let digits = text.as_bytes();
    if digits.len() > MOST_DIGITS {
        return None;
    }
    number(digits)
}

/// A number in a range.
pub(crate) fn number_within(least: u32, most: u32, text: &str) -> Option<u32>
    ensures { result ≡ number_within least most text.now }
{
    let number = number_told(text)?;
    if number < u128::from(least) || number > u128::from(most) {
        return None;
    }
    Some(number as u32)
}

/// A number up to `most`, and `usual` where none is given.
pub(crate) fn number_or(usual: u32, most: u32, text: Option<&str>) -> Option<u32>
    ensures { result ≡ number_or usual most (option_copied text.entry) }
{
    match text {
        Some(text) => number_within(0, most, text),
        None => Some(usual),
    }
}

/// Any number, or none.
pub(crate) fn number_if(text: Option<&str>) -> Option<Option<u128>>
    ensures { result ≡ number_if (option_copied text.entry) }
{
    match text {
        Some(text) => Some(Some(number_told(text)?)),
        None => Some(None),
    }
}

/// Whether a text may name a schema: at most 65,536 characters, each of XML.
fn is_schema_name(text: &str) -> bool
    ensures { result ≡ is_schema_name text.now }
{
    let mut left = MOST_CHARACTERS;
    for c in text.chars() {
        if left == 0 {
            return false;
        }
        if !is_xml(c) {
            return false;
        }
        left -= 1;
    }
    true
}

/// A schema's name, or none.
pub(crate) fn name_if(text: Option<&str>) -> Option<Option<&str>>
    ensures { option_map (λ n. option_copied n) result ≡ name_if (option_copied text.entry) }
{
    match text {
        Some(text) if is_schema_name(text) => Some(Some(text)),
        Some(_) => None,
        None => Some(None),
    }
}
