use thiserror::Error;

/// Why an event was not taken.
#[derive(Clone, Copy, Debug, PartialEq, Eq, Error)]
pub enum PushStop {
    /// Memory was refused.
    #[error("out of memory")]
    Memory,
    /// What takes the events can take no more, as where a write failed.
    #[error("the events are taken no further")]
    Stopped,
}

/// Why a text was not read.
#[derive(Clone, Copy, Debug, PartialEq, Eq, Error)]
pub enum TextStop {
    /// The line with this number, counted from 1, is not of the text's form.
    #[error("line {0} is not of the form")]
    Syntax(u64),
    /// Memory was refused.
    #[error("out of memory")]
    Memory,
}
