use exi_names::NameId;

/// A state of the built-in grammars (EXI 1.0, sections 8.4.2 and 8.4.3).
#[derive(Clone, Copy, Debug, PartialEq, Eq)]
pub enum Room {
    /// The start tag's content, of the grammar of this number.
    StartTag(u32),
    /// The element's content, of the grammar of this number.
    Content(u32),
    /// The content of a fragment.
    Fragment,
}

/// What a production of a built-in grammar reads (EXI 1.0, section 8.4).
#[derive(Clone, Copy, Debug, PartialEq, Eq)]
pub enum Learnable {
    /// An element or an attribute of a name that was used before; true for an attribute.
    Known(NameId, bool),
    /// An element of any name.
    SeAny,
    /// An attribute of any name.
    AtAny,
    /// Characters; true where the code has one part.
    Ch(bool),
    /// The end of the element; true where the code has one part.
    Ee(bool),
    /// The end of the fragment.
    Ed,
    /// A namespace declaration.
    Ns,
    /// A self-contained fragment.
    Sc,
    /// An entity reference.
    Er,
    /// A comment.
    Cm,
    /// A processing instruction.
    Pi,
}

/// A use from which a state learns.
#[derive(Clone, Copy, Debug, PartialEq, Eq)]
pub enum Learned {
    /// An element of this name, by SE(*).
    Se(NameId),
    /// An attribute of this name, by AT(*).
    At(NameId),
    /// Characters, by a longer code.
    Ch,
    /// The end of the element, by a longer code.
    Ee,
}
