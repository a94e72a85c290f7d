ghost use Rattle.std.specs.Prelude.{◌≡◌, IfOk};
ghost use Rattle.exi_names.specs.Events.{happens};

use crate::names::QName;
use crate::txt::Txt;
use crate::val::Val;
use std::alloc::{AllocError, Global};

/// An event of a document or fragment (EXI 1.0, section 4).
#[derive(Debug, Drop)]
pub enum Event {
    /// The document or fragment begins.
    Sd,
    /// The document or fragment ends.
    Ed,
    /// An element of this name begins.
    Se(QName),
    /// The element ends.
    Ee,
    /// An attribute, `xsi:type` and `xsi:nil` included.
    At(QName, Val),
    /// Characters.
    Ch(Val),
    /// A namespace declaration.
    Ns {
        /// The namespace's URI.
        uri: Txt,
        /// The prefix that stands for it, empty for the default namespace.
        prefix: Txt,
        /// Whether this prefix is that of the element itself.
        element: bool,
    },
    /// A self-contained fragment begins.
    Sc {
        /// The byte of the stream, counted from 0, at which it begins. A writer does not look at it.
        at: u64,
    },
    /// A comment.
    Cm(Txt),
    /// A processing instruction.
    Pi {
        /// Its target.
        target: Txt,
        /// Its text.
        text: Txt,
    },
    /// A document type declaration.
    Dt {
        /// The name of the document's element.
        name: Txt,
        /// The public identifier, empty where there is none.
        public: Txt,
        /// The system identifier, empty where there is none.
        system: Txt,
        /// The text of the internal subset.
        text: Txt,
    },
    /// A reference to the entity of this name.
    Er(Txt),
}

impl Event {
    /// Another event that is equal to this one.
    ///
    /// # Errors
    ///
    /// `AllocError` where memory is refused.
    pub fn copy(&self, alloc: Global) -> Result<Event, AllocError>
        ensures { IfOk result (λ e. happens e ≡ happens self.now) }
    {
        self.as_ref().copy(alloc)
    }
}
