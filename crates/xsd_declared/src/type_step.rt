use xsd_components::TypeAt;

/// What an element tells of its type.
#[derive(Clone, Copy, Debug, PartialEq, Eq)]
pub enum TypeStep {
    /// It has this type.
    Ends(TypeAt),
    /// It has the type of the element at this place, the head of its substitution group.
    Goes(u32),
}
