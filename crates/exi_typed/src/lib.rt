//! Names and string values, read through the string tables (EXI 1.0, sections 7.1.7, 7.1.10 and 7.3).
//!
//! A text that stands in a partition of the tables is told by its place there, a hit. Any other is spelled
//! out, a miss: its length in characters, an Unsigned Integer, and its characters. It is then added at the
//! partition's end. A place takes as many bits as tell the places of its partition apart, so it takes none
//! where there is one place.
//!
//! # A URI
//!
//! One number tells a miss from a hit. It takes as many bits as tell m + 1 values apart, where there are m
//! URIs: 0 is a miss, and k is a hit at place k - 1.
//!
//! ```text
//!          +-----+
//! hit      |1 0 0|                                             place 3 of four URIs
//!          +-----+
//!
//!          +---+---------------+---------------+
//! miss     |0 0|0 0 0 0 0 0 0 1|0 1 1 1 0 1 0 1|               "u", where there are three URIs
//!          +---+---------------+---------------+
//!            0      length 1         U+0075
//! ```
//!
//! # A local name
//!
//! An Unsigned Integer tells a miss from a hit: 0 is a hit among the local names of the URI, and its place
//! follows. Above 0 it is 1 more than the length of a miss.
//!
//! ```text
//!          +---------------+---+
//! hit      |0 0 0 0 0 0 0 0|1 0|                               place 2 of four local names
//!          +---------------+---+
//!
//!          +---------------+---------------+
//! miss     |0 0 0 0 0 0 1 0|0 1 1 0 0 0 0 1|                   "a"
//!          +---------------+---------------+
//!             length 1 + 1      U+0061
//! ```
//!
//! # A prefix of a name
//!
//! Where prefixes are kept, a place among the prefixes of the name's URI follows, which declarations made.
//! Where the URI has none, nothing is coded, and the name has no prefix. Where it has one, that is the
//! name's, in no bits.
//!
//! # A qualified name
//!
//! Its URI, its local name and, where prefixes are kept, its prefix. In the stream `80 40 98 40` the name of
//! the only element stands at bit 8:
//!
//! ```text
//!          +---+---------------+---------------+
//! bit 8    |0 1|0 0 0 0 0 0 1 0|0 1 1 0 0 0 0 1|               the URI "", at place 0, and the local name "a"
//!          +---+---------------+---------------+
//! ```
//!
//! # A namespace declaration
//!
//! A URI, a prefix in the partition of that URI, told as a URI is, and one bit that says whether the prefix
//! is that of the element itself. In the stream `80 00 5D 40 98 54 01 70 80`, in which prefixes are kept, one
//! stands at bit 45. The number before the prefix takes no bits, since the URI has no prefix yet:
//!
//! ```text
//!          +-----+---------------+---------------+-+
//! bit 45   |1 0 0|0 0 0 0 0 0 0 1|0 1 1 1 0 0 0 0|1|           "u", at place 3, gets "p", and the element has it
//!          +-----+---------------+---------------+-+
//!            URI      length 1         U+0070
//! ```
//!
//! # A string value
//!
//! An Unsigned Integer tells three ways: 0 is a hit among the values that were read under the same name, and
//! 1 is a hit among all values. Its place follows. Above 1 it is 2 more than the length of a miss. A pattern
//! of the datatype may leave a set of characters: a miss then tells its characters by their places in it.
//!
//! ```text
//!          +---------------+
//! hit      |0 0 0 0 0 0 0 0|                                   the only value under its name
//!          +---------------+
//!
//!          +---------------+---+
//! hit      |0 0 0 0 0 0 0 1|1 0|                               place 2 of three values
//!          +---------------+---+
//!
//!          +---------------+---------------+
//! miss     |0 0 0 0 0 0 1 1|0 1 1 1 1 0 0 0|                   "x"
//!          +---------------+---------------+
//!             length 1 + 2      U+0078
//! ```
//!
//! A missed value is added under its name and among all values; the empty text is not.
//!
//! # Reading and writing
//!
//! A name or a declaration is answered by its places in the tables ([`NameAt`], [`DeclarationAt`]), of which the
//! caller borrows the texts, and a string by reference, or, where it was spelled out, as a text that is still to be
//! added ([`StringRead`]). So nothing is copied, and nothing that is told by a place is looked up by its text. What
//! is written is a hit at the least place where the text stands, for a string among the values of its name before
//! all values, and else a miss. Reader and writer leave the same tables.
//!
//! # Our own choices
//!
//! A place that is not in its partition is the fault `BadPlace`. A text that is spelled out though it stands
//! there already is added once more; whatever is read goes on as the least place of its text. Each text is
//! charged to a meter by its characters: one that is spelled out before its first character, one that is told
//! by a place as soon as that is read, and those of a name that the event code tells, too.
//!
//! In a byte-aligned stream a number takes whole bytes, and otherwise all is the same.
#![tactic(auto)]

mod charge;
mod declarations;
pub mod laws;
mod names;
mod parts;
mod put;
mod spaces;
mod strings;
mod values;
mod write;
mod write_declarations;
mod write_names;

pub use declarations::{DeclarationAt, declaration_texts, read_declaration};
pub use names::{
    NameAt, name_ref, read_known, read_name, read_name_under, read_name_value, read_prefix,
};
pub use put::write_literal;
pub use strings::{StringRead, read_literal, read_string};
pub use values::read_value;
pub use write::{write_string, write_value};
pub use write_declarations::write_declaration;
pub use write_names::{write_name, write_name_under, write_prefix};
