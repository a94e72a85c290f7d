//! Names, values and events of EXI 1.0.
//!
//! Nothing here reads or writes bits: these are the plain data that a stream's bits stand for, and
//! that a reader hands out and a writer takes in. A document is a list of events between `Sd` and `Ed`:
//!
//! ```text
//! <a k="7">x<!--y--></a>
//!
//!   Sd   Se a   At k 7   Ch "x"   Cm "y"   Ee   Ed
//!        |      |    |       |
//!        QName  QName Val    Val
//! ```
//!
//! [`Event`] restates the event types of the recommendation's section 4, [`Val`] and [`Datatype`] the
//! datatypes of its section 7, [`StartNames`] the first string tables of its appendix D.
//!
//! What allocates answers [`AllocError`](std::alloc::AllocError) where memory is refused, and then
//! leaves what it was called on as it was, unless its own lines say otherwise.
#![tactic(auto)]

mod alphabet;
mod body;
mod chars;
mod counts;
mod datatype;
mod equality;
mod event;
mod event_list;
mod event_out;
mod event_ref;
mod lanes;
pub mod laws;
mod letters;
mod moment;
mod name_map;
mod names;
mod octets;
mod start;
mod stops;
mod textual;
mod txt;
mod txt_list;
mod val;
mod whole;

pub use alphabet::Alphabet;
pub use chars::{is_xml, xml_char};
pub use datatype::Datatype;
pub use event::Event;
pub use event_list::EventList;
pub use event_out::EventOut;
pub use event_ref::{EventRef, NameRef, ValRef};
pub use letters::Letters;
pub use moment::{Moment, MomentKind};
pub use name_map::NameMap;
pub use names::{NameId, QName};
pub use octets::Octets;
pub use start::StartNames;
pub use stops::{PushStop, TextStop};
pub use txt::Txt;
pub use txt_list::{TxtList, TxtLists};
pub use val::{MOST_ITEMS, Val, ValList};
pub use whole::Whole;
