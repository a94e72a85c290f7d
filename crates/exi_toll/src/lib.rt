//! What an event charges while it is written, and why it is not written.
//!
//! A [`Toll`] takes on the charges of an event one after another, and behind one that passes its limit none. It settles
//! them once the event's bits are written, so that an event without a production charges nothing.
#![tactic(auto)]

mod stop;
mod toll;

pub use stop::PutStop;
pub use toll::Toll;
