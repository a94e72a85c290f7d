use exi_names::{NameId, NameRef, Val};
use exi_processing::Content;

/// The value that an event has.
#[derive(Clone, Copy)]
pub enum Valued<'e> {
    /// None.
    Nothing,
    /// That of an attribute.
    Attribute {
        /// The least places of the attribute's name, where it stands in the string tables.
        id: Option<NameId>,
        /// The attribute's name.
        name: NameRef<'e>,
        /// The value.
        value: &'e Val,
    },
    /// That of characters.
    Characters(&'e Val),
}

/// An event for which a production is looked for.
#[derive(Clone, Copy)]
pub struct Wanted<'e> {
    /// What it is, with what a code can tell of its name: by its places, by its URI's place, or nothing.
    pub on: Content,
    /// Its value.
    pub valued: Valued<'e>,
}
