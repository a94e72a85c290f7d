/// A type that a schema document names.
#[derive(Clone, Copy, Debug, PartialEq, Eq)]
pub enum TypeAt {
    /// The built-in type at this place.
    Built(u32),
    /// The type of the element at this place: a `simpleType`, a `complexType`, or the `restriction` of a `simpleContent`.
    Node(u32),
}
