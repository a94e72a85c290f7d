ghost use Rattle.std.specs.Prelude.{◌≡◌, IfOk};

use crate::txt::Txt;
use std::alloc::AllocError;

/// A qualified name: its namespace's URI, its local name, and its prefix where prefixes are kept.
#[derive(Debug, Drop)]
pub struct QName {
    /// The URI, empty where the name is in no namespace.
    pub uri: Txt,
    /// The local name.
    pub local: Txt,
    /// The prefix, where the stream tells one.
    pub prefix: Option<Txt>,
}

/// A name by its places in the string tables (EXI 1.0, section 7.3), both counted from 0.
#[derive(Clone, Copy, Debug, PartialEq, Eq)]
pub struct NameId {
    /// The URI's place in the URI partition.
    pub uri: u32,
    /// The local name's place in the partition of that URI.
    pub local: u32,
}

impl QName {
    /// Another name that is equal to this one, prefix included.
    ///
    /// # Errors
    ///
    /// `AllocError` where memory is refused.
    pub fn copy(&self) -> Result<QName, AllocError>
        ensures { IfOk result (λ n. n ≡ self.now) }
    {
        self.as_ref().copy()
    }
}
