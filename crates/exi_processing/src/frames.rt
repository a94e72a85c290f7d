use exi_builtin::Room;
use exi_names::NameId;

/// The state of an open element's grammar.
#[derive(Clone, Copy, Debug, PartialEq, Eq)]
pub enum State {
    /// A state of the built-in grammar of its name (EXI 1.0, section 8.4.3).
    BuiltIn(Room),
    /// A state of a grammar of the schema (EXI 1.0, section 8.5.4).
    Informed {
        /// The place of the grammar.
        grammar: u32,
        /// The place of the state.
        state: u32,
        /// Whether the grammar is the empty form that `xsi:nil` opened.
        empty: bool,
    },
}

/// An open element.
#[derive(Clone, Copy, Debug, PartialEq, Eq)]
pub struct Element {
    /// The least places of its name.
    pub name: NameId,
    /// Where its content is.
    pub state: State,
}

/// The state outside of all elements.
#[derive(Clone, Copy, Debug, PartialEq, Eq)]
pub enum Outer {
    /// A state of a grammar of the book: Document, or by a schema Fragment (EXI 1.0, sections 8.4.1 and 8.5.2).
    Book {
        /// The place of the grammar.
        grammar: u32,
        /// The place of the state.
        state: u32,
    },
    /// The start of a fragment without a schema (EXI 1.0, section 8.4.2).
    FragmentStart,
    /// The content of a fragment without a schema.
    FragmentContent,
    /// The start of a fragment that stands for one element.
    AloneStart,
    /// The element of such a fragment is to come.
    AloneFirst,
    /// The element of such a fragment is read, or open.
    AloneOver,
    /// Behind the last event.
    Ended,
}
