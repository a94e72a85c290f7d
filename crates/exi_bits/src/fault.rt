ghost use Rattle.std.specs.Prelude.{◌≡◌};
ghost use Rattle.exi_bits.specs.Words.{kind_word, part_word};
ghost use Rattle.exi_bits.specs.declared.fault.Stop.TheVariants as Stop;
ghost use Rattle.exi_bits.specs.declared.fault.Stop.TheVariants.{Memory};

use std::alloc::{AllocError, AllocFailed};
use thiserror::Error;

/// A part of the options document, or an option, that is not supported (EXI 1.0, section 5.4).
#[derive(Clone, Copy, Debug, PartialEq, Eq)]
pub enum Part {
    /// A document whose root is not the header of options.
    Root,
    /// An element among the uncommon options that the recommendation leaves to its users.
    Metadata,
    /// Alignment for a later compression.
    PreCompress,
    /// Representations of datatypes other than the built-in ones.
    DatatypeMap,
    /// Values that keep their lexical form.
    LexicalValues,
    /// Compressed streams.
    Compression,
}

impl Part {
    /// The word that stands for the part in what is printed.
    pub fn word(&self) -> &'static str
        ensures word { result.now ≡ part_word self.now }
    {
        match self {
            Part::Root => "root",
            Part::Metadata => "metadata",
            Part::PreCompress => "pre-compress",
            Part::DatatypeMap => "datatypeRepresentationMap",
            Part::LexicalValues => "lexicalValues",
            Part::Compression => "compression",
        }
    }
}

/// What is wrong with a stream.
#[derive(Clone, Copy, Debug, PartialEq, Eq, Error)]
pub enum Kind {
    /// The bits that tell an EXI stream from others do not stand at its head.
    #[error("NoExi")]
    NoExi,
    /// A version other than the first final one.
    #[error("Version")]
    Version,
    /// An option that is not supported.
    #[error("Unsupported {}", .0.word())]
    Unsupported(Part),
    /// Options that exclude each other.
    #[error("Conflict")]
    Conflict,
    /// The header tells another schema than the one that is used.
    #[error("WrongSchema")]
    WrongSchema,
    /// The bits end before the item does.
    #[error("Short")]
    Short,
    /// An Unsigned Integer of more than 19 octets, or of 2^128 or more.
    #[error("TooWide")]
    TooWide,
    /// A mantissa or an exponent out of its range.
    #[error("BadFloat")]
    BadFloat,
    /// A code point that is no character of XML.
    #[error("BadChar")]
    BadChar,
    /// A part of a date or a time out of its range.
    #[error("BadMoment")]
    BadMoment,
    /// A number that is not below the count of what it chooses from.
    #[error("BadPlace")]
    BadPlace,
    /// A list of more than 65,536 items.
    #[error("ListTooLong")]
    ListTooLong,
    /// An event code that stands for no production.
    #[error("NoCode")]
    NoCode,
    /// A type that is named and is not there, in a strict stream.
    #[error("BadType")]
    BadType,
    /// A self-contained element that does not follow the start of an element at once.
    #[error("ScPlace")]
    ScPlace,
    /// A self-contained fragment that does not begin with the element that it stands for.
    #[error("ScRoot")]
    ScRoot,
    /// More than the one element in a self-contained fragment.
    #[error("ScNotOne")]
    ScNotOne,
    /// More events than the limit allows.
    #[error("EventLimit")]
    EventLimit,
    /// More text than the limit allows.
    #[error("TextLimit")]
    TextLimit,
    /// Deeper elements than the limit allows.
    #[error("DepthLimit")]
    DepthLimit,
    /// Bytes after the end of the stream.
    #[error("TrailingBytes")]
    TrailingBytes,
}

impl Kind {
    /// The word that stands for the kind in what is printed.
    pub fn word(&self) -> &'static str
        ensures word { result.now ≡ kind_word self.now }
    {
        match self {
            Kind::NoExi => "NoExi",
            Kind::Version => "Version",
            Kind::Unsupported(_) => "Unsupported",
            Kind::Conflict => "Conflict",
            Kind::WrongSchema => "WrongSchema",
            Kind::Short => "Short",
            Kind::TooWide => "TooWide",
            Kind::BadFloat => "BadFloat",
            Kind::BadChar => "BadChar",
            Kind::BadMoment => "BadMoment",
            Kind::BadPlace => "BadPlace",
            Kind::ListTooLong => "ListTooLong",
            Kind::NoCode => "NoCode",
            Kind::BadType => "BadType",
            Kind::ScPlace => "ScPlace",
            Kind::ScRoot => "ScRoot",
            Kind::ScNotOne => "ScNotOne",
            Kind::EventLimit => "EventLimit",
            Kind::TextLimit => "TextLimit",
            Kind::DepthLimit => "DepthLimit",
            Kind::TrailingBytes => "TrailingBytes",
        }
    }
}

/// What is wrong, and at which bit of the stream: the first bit of the item in which it shows.
#[derive(Clone, Copy, Debug, PartialEq, Eq, Error)]
#[error("{kind} {bit}")]
pub struct Fault {
    /// What is wrong.
    pub kind: Kind,
    /// The bit, counted from 0 at the head of the stream.
    pub bit: u64,
}

/// Why reading stopped.
#[derive(Debug, PartialEq, Eq, Drop, Error)]
pub enum Stop {
    /// The stream is wrong.
    #[error("{0}")]
    Fault(Fault),
    /// There was no memory.
    #[error("out of memory")]
    Memory,
}

impl From<AllocError> for Stop {
    ghost from_gives = { λ _ e. e ≡ Memory };

    fn from(_e: AllocError) -> Stop {
        Stop::Memory
    }
}

impl<T: Drop> From<AllocFailed<T>> for Stop {
    ghost from_gives = { λ _ e. e ≡ Memory };

    fn from(_e: AllocFailed<T>) -> Stop {
        Stop::Memory
    }
}

impl From<Fault> for Stop {
    ghost from_gives = { λ f e. e ≡ Stop.Fault f };

    fn from(fault: Fault) -> Stop {
        Stop::Fault(fault)
    }
}
