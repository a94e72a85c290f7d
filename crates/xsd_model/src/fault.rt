ghost use Rattle.std.specs.Prelude.{◌≡◌};
ghost use Rattle.xsd_model.specs.Words.{kind_word};
ghost use Rattle.xsd_model.specs.declared.fault.SchemaStop.TheVariants as stop;

use std::alloc::{AllocError, AllocFailed};
use thiserror::Error;

/// What is wrong with a schema document.
#[derive(Clone, Copy, Debug, PartialEq, Eq, Error)]
pub enum SchemaKind {
    /// It is no schema document: its first element is another, a second root follows it, or its elements do not end
    /// where they have to.
    #[error("NotSchema")]
    NotSchema,
    /// An element stands where XML Schema does not allow it.
    #[error("UnknownPart")]
    UnknownPart,
    /// A part of XML Schema that is not read.
    #[error("Unsupported")]
    Unsupported,
    /// An attribute that is needed is missing, or one has no value of its type.
    #[error("BadPart")]
    BadPart,
    /// A second global component of one kind and name.
    #[error("TwiceDeclared")]
    TwiceDeclared,
    /// A reference to a component that is not there.
    #[error("Unresolved")]
    Unresolved,
    /// A type, a group or a substitution group reaches itself.
    #[error("Circular")]
    Circular,
    /// A pattern that is none, or one that is not read.
    #[error("PatternRefused")]
    PatternRefused,
    /// Elements of one name in one state of a content model have different types.
    #[error("TypesDiffer")]
    TypesDiffer,
    /// A content model of too many states.
    #[error("TooLarge")]
    TooLarge,
}

impl SchemaKind {
    /// The word that stands for the kind in what is printed.
    pub fn word(&self) -> &'static str
        ensures word { result.now ≡ kind_word self.now }
    {
        match self {
            SchemaKind::NotSchema => "NotSchema",
            SchemaKind::UnknownPart => "UnknownPart",
            SchemaKind::Unsupported => "Unsupported",
            SchemaKind::BadPart => "BadPart",
            SchemaKind::TwiceDeclared => "TwiceDeclared",
            SchemaKind::Unresolved => "Unresolved",
            SchemaKind::Circular => "Circular",
            SchemaKind::PatternRefused => "PatternRefused",
            SchemaKind::TypesDiffer => "TypesDiffer",
            SchemaKind::TooLarge => "TooLarge",
        }
    }
}

/// What is wrong, and at which event of the document.
#[derive(Clone, Copy, Debug, PartialEq, Eq, Error)]
#[error("{kind} {event}")]
pub struct SchemaFault {
    /// What is wrong.
    pub kind: SchemaKind,
    /// The number of the event, counted from 1: the start of the element at fault.
    pub event: u64,
}

/// Why the reading of a schema document stopped.
#[derive(Debug, PartialEq, Eq, Drop, Error)]
pub enum SchemaStop {
    /// The document is refused.
    #[error("{0}")]
    Fault(SchemaFault),
    /// There was no memory.
    #[error("out of memory")]
    Memory,
}

impl From<AllocError> for SchemaStop {
    ghost from_gives = { λ _ e. e ≡ stop.Memory };

    fn from(_e: AllocError) -> SchemaStop {
        SchemaStop::Memory
    }
}

impl<T: Drop> From<AllocFailed<T>> for SchemaStop {
    ghost from_gives = { λ _ e. e ≡ stop.Memory };

    fn from(_e: AllocFailed<T>) -> SchemaStop {
        SchemaStop::Memory
    }
}

impl From<SchemaFault> for SchemaStop {
    ghost from_gives = { λ fault e. e ≡ stop.Fault fault };

    fn from(fault: SchemaFault) -> SchemaStop {
        SchemaStop::Fault(fault)
    }
}
