ghost use Rattle.std.specs.Prelude.{◌≡◌};
ghost use Rattle.xsd_nodes.specs.AttributeNames.{attribute_word};

/// An attribute of a schema document that has a meaning.
#[derive(Clone, Copy, Debug, PartialEq, Eq)]
pub enum AttributeName {
    /// `name`.
    Name,
    /// `ref`.
    Ref,
    /// `type`.
    Type,
    /// `base`.
    Base,
    /// `itemType`.
    ItemType,
    /// `memberTypes`.
    MemberTypes,
    /// `value`.
    Value,
    /// `substitutionGroup`.
    SubstitutionGroup,
    /// `targetNamespace`.
    TargetNamespace,
    /// `minOccurs`.
    MinOccurs,
    /// `maxOccurs`.
    MaxOccurs,
    /// `mixed`.
    Mixed,
    /// `use`.
    Use,
    /// `nillable`.
    Nillable,
    /// `namespace`.
    Namespace,
    /// `form`.
    Form,
    /// `elementFormDefault`.
    ElementFormDefault,
    /// `attributeFormDefault`.
    AttributeFormDefault,
}

impl AttributeName {
    /// The name as it stands in a document.
    pub fn word(&self) -> &'static str
        ensures word { result.now ≡ attribute_word self.now }
    {
        match self {
            AttributeName::Name => "name",
            AttributeName::Ref => "ref",
            AttributeName::Type => "type",
            AttributeName::Base => "base",
            AttributeName::ItemType => "itemType",
            AttributeName::MemberTypes => "memberTypes",
            AttributeName::Value => "value",
            AttributeName::SubstitutionGroup => "substitutionGroup",
            AttributeName::TargetNamespace => "targetNamespace",
            AttributeName::MinOccurs => "minOccurs",
            AttributeName::MaxOccurs => "maxOccurs",
            AttributeName::Mixed => "mixed",
            AttributeName::Use => "use",
            AttributeName::Nillable => "nillable",
            AttributeName::Namespace => "namespace",
            AttributeName::Form => "form",
            AttributeName::ElementFormDefault => "elementFormDefault",
            AttributeName::AttributeFormDefault => "attributeFormDefault",
        }
    }
}
