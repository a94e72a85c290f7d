use exi_gram::Named;

/// What an event is, with what the first string tables tell of its name: its least places, those of its URI alone, or
/// nothing.
#[derive(Clone, Copy, Debug, PartialEq, Eq)]
pub enum Sought {
    /// The start of a document or fragment.
    Sd,
    /// Its end.
    Ed,
    /// The start of an element.
    Se(Named),
    /// An attribute that is neither of the next two.
    At(Named),
    /// The attribute xsi:type.
    Type(Named),
    /// The attribute xsi:nil.
    Nil(Named),
    /// Characters.
    Ch,
    /// The end of an element.
    Ee,
    /// A namespace declaration.
    Ns,
    /// A self-contained element.
    Sc,
    /// An entity reference.
    Er,
    /// A comment.
    Cm,
    /// A processing instruction.
    Pi,
    /// A document type.
    Dt,
}
