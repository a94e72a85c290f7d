//! The string tables of EXI 1.0 (section 7.3).
//!
//! A text that stands in a stream for the first time is spelled by its characters, and gets a place
//! in a partition; later it is told by that place. On the wire, `w(n)` being the bits of a number
//! below `n` and `count` the places of the partition:
//!
//! ```text
//! URI         w(count + 1) bits   0: a miss, a literal follows   k: place k - 1
//! local name  Unsigned Integer    0: a hit, place in w(count) bits
//!                                 L: a miss of L - 1 characters
//! prefix      w(count) bits       the place, where it is the prefix of a name
//!             w(count + 1) bits   in a namespace declaration: 0: a miss, a literal follows   k: place k - 1
//! value       Unsigned Integer    0: a hit in the name's own partition, place in w(count) bits
//!                                 1: a hit in the global partition, place in w(count) bits
//!                                 L: a miss of L - 2 characters
//! ```
//!
//! A text that is spelled out again gets a second place, which raises the counts alone: a look-up by text
//! gives the least place, and a name goes on as that.
//!
//! # Bounds
//!
//! Values of more characters than valueMaxLength are not added, and of those that are, as many are live as
//! valuePartitionCapacity says. With a capacity of 2, and x, y and z added under one name:
//!
//! ```text
//! global place   0   1          the next value takes the place 1
//! value          z   y
//! own place      0   1   2
//! value          -   y   z      x was pushed out; its place still counts
//! ```
//!
//! # Implementations
//!
//! [`FirstTables`] are the tables with which a stream begins, made once. All tables hold a share of them and what was
//! added: they start without memory, and start again with the room that they have.
//!
//! [`Tables`] is what readers and writers need: each partition's count, its texts by place, the least place of
//! a text, and growth at a miss. Three kinds meet it; each keeps a text no longer than it is live and stores a
//! value's text once, and no look-up takes memory. What the proofs say is the same for all; the steps below
//! are read and measured, not proved.
//!
//! ```text
//!                                  ListTables    PlaceTables     HashTables
//! a text by its place              one step      one step        one step
//! a value by its own place         all values    a few indices   a few indices
//! a name's own partition           all names     by hash         by hash
//! a URI, local name, prefix        all texts     by hash         by hash
//! a value's text                   all values    all values      by hash
//! ```
//!
//! A URI, local name or prefix among eight at most is compared with each, in place of a look-up by hash.
//!
//! By hash the steps are as many as the live texts with that hash: each place that has it is looked at, under a
//! name, and else until the least one has the text. A writer adds no text that is live, so in its tables that is
//! one but for texts that have their hash in common. The hash has no key: whoever makes the texts can choose
//! such texts. Adding one costs no more than the logarithm of their number, so a reader stays fast on them; a
//! writer looks at each.
//!
//! With a capacity, what is kept for values is bounded by it, and not by the stream: a name keeps the places
//! of its live values alone, and gives room back once it has four times too much.
#![tactic(auto)]

mod added;
mod first_tables;
mod hash_texts;
mod hash_values;
pub mod laws;
mod list_texts;
mod list_values;
mod live;
mod own_places;
mod partitioned;
mod place_values;
mod spots;
mod standing;
mod tables;
mod texts;
mod value_store;

pub use first_tables::FirstTables;
use hash_texts::HashTexts;
use hash_values::HashValues;
use list_texts::ListTexts;
use list_values::ListValues;
use partitioned::Partitioned;
use place_values::PlaceValues;
pub use standing::Standing;
pub use tables::{Tables, is_name};

/// String tables as plain lists.
pub type ListTables = Partitioned<ListTexts, ListValues>;

/// String tables for readers: names by hash and values by place. A reader looks no value up by its text.
pub type PlaceTables = Partitioned<HashTexts, PlaceValues>;

/// String tables for writers: names and values by hash, however many there are.
pub type HashTables = Partitioned<HashTexts, HashValues>;
