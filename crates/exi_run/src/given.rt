//! What the words behind a command give, one at a time.

ghost use Rattle.std.specs.Prelude.{◌≡◌, chars, option_map};
ghost use Rattle.exi_run.specs.Tasks.{gathered, is_bare};
ghost use Rattle.exi_run.specs.Wishes.{options_of};
ghost use Rattle.exi_run.specs.Words.{is_schema_name, nothing, number_told, with_file, with_mark, with_switch, with_value};

use crate::names::{Mark, Valued};
use bitflags::Flags;
use exi_digits::number;
use exi_gram::{OptionFlags, Options, SchemaWord};
use exi_names::{Txt, is_xml};
use exi_options::MOST_CHARACTERS;

/// How many digits a number has at most.
const MOST_DIGITS: usize = 10;

/// What the words have given so far.
#[derive(Clone, Copy, Debug)]
pub(crate) struct Given<'a> {
    /// The name of the file.
    pub file: Option<&'a Txt>,
    /// The options that are on.
    pub flags: OptionFlags,
    /// The value of `--value-max-length`.
    pub most: Option<u128>,
    /// The value of `--value-partition-capacity`.
    pub capacity: Option<u128>,
    /// The name of the file with the schema's document.
    pub document: Option<&'a str>,
    /// The schema's name, which a stream's own name of it is compared with.
    pub schema: Option<&'a str>,
    /// Whether `--told` stands.
    pub told: bool,
    /// Whether `--cookie` stands.
    pub cookie: bool,
}

/// A number of 1 to 10 digits.
fn number_told(text: &str) -> Option<u128>
    ensures { result ≡ number_told text.now }
{
    let digits = text.as_bytes();
    if digits.len() > MOST_DIGITS {
        return None;
    }
    number(digits)
}

/// Whether a text may name a schema: at most [`MOST_CHARACTERS`], each of XML.
fn is_schema_name(text: &str) -> bool
    ensures { result ≡ is_schema_name text.now }
{
    let mut left = MOST_CHARACTERS;
    for c in text.chars() {
        if left == 0 {
            return false;
        }
        if !is_xml(c) {
            return false;
        }
        left -= 1;
    }
    true
}

impl<'a> Given<'a> {
    /// Nothing.
    pub(crate) fn nothing() -> Given<'a>
        ensures { gathered result ≡ nothing }
    {
        Given {
            file: None,
            flags: OptionFlags::from_bits_retain(0),
            most: None,
            capacity: None,
            document: None,
            schema: None,
            told: false,
            cookie: false,
        }
    }

    /// With the file, where none was given.
    pub(crate) fn with_file(self, file: &'a Txt) -> Option<Given<'a>>
        ensures { option_map gathered result ≡ with_file file.now (gathered self.entry) }
    {
        if self.file.is_some() {
            return None;
        }
        Some(Given {
            file: Some(file),
            ..self
        })
    }

    /// With an option switched on, where it was not.
    pub(crate) fn with_switch(self, flag: OptionFlags) -> Option<Given<'a>>
        ensures { option_map gathered result ≡ with_switch flag (gathered self.entry) }
    {
        if self.flags.contains(flag) {
            return None;
        }
        let mut flags = self.flags;
        flags.insert(flag);
        Some(Given { flags, ..self })
    }

    /// With what a written header has, where it was not asked for.
    #[tactic(auto, unfolding(crate::specs::Words::with_mark))]
    pub(crate) fn with_mark(self, mark: Mark) -> Option<Given<'a>>
        ensures { option_map gathered result ≡ with_mark mark (gathered self.entry) }
    {
        match mark {
            Mark::Told if self.told => None,
            Mark::Told => Some(Given { told: true, ..self }),
            Mark::Cookie if self.cookie => None,
            Mark::Cookie => Some(Given {
                cookie: true,
                ..self
            }),
        }
    }

    /// With the greatest length of a value, where none was given.
    #[tactic(auto, unfolding(crate::specs::Words::with_value))]
    fn with_most(self, text: &str) -> Option<Given<'a>>
        ensures { option_map gathered result ≡ with_value Valued.MaxLength text.now (gathered self.entry) }
    {
        if self.most.is_some() {
            return None;
        }
        Some(Given {
            most: Some(number_told(text)?),
            ..self
        })
    }

    /// With the capacity of the value partitions, where none was given.
    #[tactic(auto, unfolding(crate::specs::Words::with_value))]
    fn with_capacity(self, text: &str) -> Option<Given<'a>>
        ensures { option_map gathered result ≡ with_value Valued.Capacity text.now (gathered self.entry) }
    {
        if self.capacity.is_some() {
            return None;
        }
        Some(Given {
            capacity: Some(number_told(text)?),
            ..self
        })
    }

    /// With the file of the schema's document, where none was given.
    #[tactic(auto, unfolding(crate::specs::Words::with_value))]
    fn with_document(self, text: &'a str) -> Option<Given<'a>>
        ensures { option_map gathered result ≡ with_value Valued.Schema text.now (gathered self.entry) }
    {
        if self.document.is_some() {
            return None;
        }
        Some(Given {
            document: Some(text),
            ..self
        })
    }

    /// With the schema's name, where none was given.
    #[tactic(auto, unfolding(crate::specs::Words::with_value))]
    fn with_schema(self, text: &'a str) -> Option<Given<'a>>
        ensures { option_map gathered result ≡ with_value Valued.SchemaId text.now (gathered self.entry) }
    {
        if self.schema.is_some() || !is_schema_name(text) {
            return None;
        }
        Some(Given {
            schema: Some(text),
            ..self
        })
    }

    /// With the value of an option, where that was not given.
    pub(crate) fn with_value(self, option: Valued, text: &'a str) -> Option<Given<'a>>
        ensures { option_map gathered result ≡ with_value option text.now (gathered self.entry) }
    {
        match option {
            Valued::MaxLength => self.with_most(text),
            Valued::Capacity => self.with_capacity(text),
            Valued::Schema => self.with_document(text),
            Valued::SchemaId => self.with_schema(text),
        }
    }

    /// Whether nothing stands beside FILE.
    pub(crate) fn is_bare(&self) -> bool
        ensures { result ≡ is_bare (gathered self.now) }
    {
        self.flags.is_empty()
            && self.most.is_none()
            && self.capacity.is_none()
            && self.document.is_none()
            && self.schema.is_none()
            && !self.told
            && !self.cookie
    }

    /// The options of a stream whose header tells none.
    pub(crate) fn options(&self) -> Options
        ensures { result ≡ options_of (gathered self.now) }
    {
        Options {
            flags: self.flags,
            schema: SchemaWord::Absent,
            block: 1_000_000,
            most: self.most,
            capacity: self.capacity,
        }
    }
}
