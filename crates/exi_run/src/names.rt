//! The names of the words' options.

ghost use Rattle.std.specs.Prelude.{◌≡◌, option_copied};
ghost use Rattle.exi_run.specs.Words.{is_hyphened, name_part, option_named, value_part};

use exi_gram::OptionFlags;

/// An option that takes a value.
#[derive(Clone, Copy, Debug, PartialEq, Eq)]
pub(crate) enum Valued {
    /// `--value-max-length N`.
    MaxLength,
    /// `--value-partition-capacity N`.
    Capacity,
    /// `--schema FILE`.
    Schema,
    /// `--schema-id TEXT`.
    SchemaId,
}

/// What the header of a stream that is written has.
#[derive(Clone, Copy, Debug, PartialEq, Eq)]
pub(crate) enum Mark {
    /// `--told`: the options document.
    Told,
    /// `--cookie`: the cookie.
    Cookie,
}

/// What an option's name stands for.
#[derive(Clone, Copy, Debug, PartialEq, Eq)]
pub(crate) enum Named {
    /// An option of the stream that it switches on.
    Switch(OptionFlags),
    /// An option that takes a value.
    Value(Valued),
    /// What a written header has.
    Mark(Mark),
}

/// Whether a word begins with a hyphen and has more behind it.
pub(crate) fn is_hyphened(word: &str) -> bool
    ensures { result ≡ is_hyphened word.now }
{
    let bytes = word.as_bytes();
    bytes.len() > 1 && bytes[0] == b'-'
}

/// What stands before the first equals sign of a word, and what stands behind it, where there is one.
pub(crate) fn split_at_equals(word: &str) -> (&str, Option<&str>)
    ensures name { result.0.now ≡ name_part word.now }
    ensures value { option_copied result.1 ≡ value_part word.now }
{
    match word.split_once('=') {
        Some((name, value)) => (name, Some(value)),
        None => (word, None),
    }
}

impl Named {
    /// What the name stands for.
    #[tactic(auto, unfolding(crate::specs::Words::option_named))]
    pub(crate) fn of(name: &str) -> Option<Named>
        ensures { result ≡ option_named name.now }
    {
        if name == "--strict" {
            Some(Named::Switch(OptionFlags::STRICT))
        } else if name == "--fragment" {
            Some(Named::Switch(OptionFlags::FRAGMENT))
        } else if name == "--self-contained" {
            Some(Named::Switch(OptionFlags::SELF_CONTAINED))
        } else if name == "--byte-aligned" {
            Some(Named::Switch(OptionFlags::BYTES))
        } else if name == "--comments" {
            Some(Named::Switch(OptionFlags::COMMENTS))
        } else if name == "--pis" {
            Some(Named::Switch(OptionFlags::PIS))
        } else if name == "--dtd" {
            Some(Named::Switch(OptionFlags::DTD))
        } else if name == "--prefixes" {
            Some(Named::Switch(OptionFlags::PREFIXES))
        } else if name == "--value-max-length" {
            Some(Named::Value(Valued::MaxLength))
        } else if name == "--value-partition-capacity" {
            Some(Named::Value(Valued::Capacity))
        } else if name == "--schema" {
            Some(Named::Value(Valued::Schema))
        } else if name == "--schema-id" {
            Some(Named::Value(Valued::SchemaId))
        } else if name == "--told" {
            Some(Named::Mark(Mark::Told))
        } else if name == "--cookie" {
            Some(Named::Mark(Mark::Cookie))
        } else {
            None
        }
    }
}
