use exi_bits::Kind;
use thiserror::Error;

/// Why a list of events was not written. Events are counted from 1.
#[derive(Clone, Copy, Debug, PartialEq, Eq, Error)]
pub enum WriteFault {
    /// No production stands for this event; or the list ends early, and the event is the one behind its last.
    #[error("the grammar does not derive event {event}")]
    NotDerived {
        /// The number of the event.
        event: u64,
    },
    /// This event passes a limit.
    #[error("event {event} passes a limit")]
    Limit {
        /// The number of the event.
        event: u64,
        /// The limit.
        kind: Kind,
    },
    /// Memory was refused.
    #[error("out of memory")]
    Memory,
}
