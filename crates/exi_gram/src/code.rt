ghost use Rattle.std.specs.Prelude.{◌≡◌, length};
ghost use Rattle.exi_gram.specs.Tables.{parts_of};

use crate::grammar::Production;
use crate::named::Named;

/// An event code of one to three parts (EXI 1.0, section 6.2). Codes with fewer parts come first, and
/// among these the lesser code.
#[derive(Clone, Copy, Debug, PartialEq, Eq)]
pub enum Code {
    /// One part.
    One(u32),
    /// Two parts.
    Two(u32, u32),
    /// Three parts: the second tells a group.
    Three(u32, u32, u32),
}

impl Code {
    /// How many parts it has.
    pub fn parts(self) -> u32
        ensures { result ≡ length (parts_of self) }
    {
        match self {
            Code::One(_) => 1,
            Code::Two(_, _) => 2,
            Code::Three(_, _, _) => 3,
        }
    }
}

/// A production with its code, and with the places of what it names.
#[derive(Debug, Drop)]
pub struct Coded {
    /// The code.
    pub code: Code,
    /// The production.
    pub production: Production,
    /// The least places, in the first string tables, of the name or URI of the production.
    pub named: Named,
}
