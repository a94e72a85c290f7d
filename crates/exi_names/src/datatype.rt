ghost use Rattle.std.specs.Prelude.{◌≡◌, IfOk};
ghost use Rattle.exi_names.specs.Datatypes.{represented};

use crate::alphabet::Alphabet;
use crate::moment::MomentKind;
use crate::val::ValList;
use std::alloc::{AllocError, Global};

/// A datatype by how its values are represented (EXI 1.0, section 7).
#[derive(Debug, Drop)]
pub enum Datatype {
    /// An integer of a bounded range, as an n-bit number.
    Small {
        /// The least value.
        least: i128,
        /// How many values there are, from `least` on.
        count: u16,
    },
    /// An integer that is not negative.
    Unsigned,
    /// An integer.
    Integer,
    /// A boolean.
    Boolean {
        /// Whether a pattern tells its four spellings apart.
        pattern: bool,
    },
    /// Octets.
    Binary {
        /// Whether it is hexBinary; else it is base64Binary.
        hex: bool,
    },
    /// A decimal.
    Decimal,
    /// A float or double.
    Float,
    /// A date or time.
    Moment(MomentKind),
    /// A list of items of this datatype.
    List(Box<Datatype>),
    /// An enumeration.
    Choice {
        /// The datatype that it restricts.
        base: Box<Datatype>,
        /// Its values, in the schema's order.
        values: ValList,
    },
    /// A string.
    Text,
    /// A string that a pattern keeps to these characters.
    Chars(Alphabet),
    /// A qualified name.
    Name {
        /// Whether prefixes are kept.
        prefixes: bool,
    },
}

impl Datatype {
    /// Another datatype that is equal to this one.
    ///
    /// # Errors
    ///
    /// `AllocError` where memory is refused.
    pub fn copy(&self, alloc: Global) -> Result<Datatype, AllocError>
        ensures { IfOk result (λ d. represented d ≡ represented self.now) }
    {
        match self {
            Datatype::Small { least, count } => Ok(Datatype::Small {
                least: *least,
                count: *count,
            }),
            Datatype::Unsigned => Ok(Datatype::Unsigned),
            Datatype::Integer => Ok(Datatype::Integer),
            Datatype::Boolean { pattern } => Ok(Datatype::Boolean { pattern: *pattern }),
            Datatype::Binary { hex } => Ok(Datatype::Binary { hex: *hex }),
            Datatype::Decimal => Ok(Datatype::Decimal),
            Datatype::Float => Ok(Datatype::Float),
            Datatype::Moment(kind) => Ok(Datatype::Moment(*kind)),
            Datatype::List(item) => Ok(Datatype::List(Box::new(alloc, item.copy(alloc)?)?)),
            Datatype::Choice { base, values } => Ok(Datatype::Choice {
                base: Box::new(alloc, base.copy(alloc)?)?,
                values: values.copy(alloc)?,
            }),
            Datatype::Text => Ok(Datatype::Text),
            Datatype::Chars(alphabet) => Ok(Datatype::Chars(alphabet.copy()?)),
            Datatype::Name { prefixes } => Ok(Datatype::Name {
                prefixes: *prefixes,
            }),
        }
    }
}
