use xsd_components::TypeAt;

/// What the type of the value in the content of a type is.
#[derive(Clone, Copy, Debug, PartialEq, Eq)]
pub enum ValueStep {
    /// This, where there is one.
    Ends(Option<TypeAt>),
    /// That of this type.
    Goes(TypeAt),
}
