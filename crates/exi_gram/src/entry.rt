use exi_names::QName;

/// The grammars of a type (EXI 1.0, section 8.5.4.1.3).
#[derive(Debug, Drop)]
pub struct TypeEntry {
    /// The type's name, where it has one.
    pub name: Option<QName>,
    /// The place of its grammar.
    pub full: u32,
    /// The place of its empty form, which is the next.
    pub empty: u32,
    /// Whether `xsi:type` can name another type in its place: it has named sub-types or is a union.
    pub cast: bool,
}

/// The grammars of a global element (EXI 1.0, section 8.5.4.1.6).
#[derive(Debug, Drop)]
pub struct ElementEntry {
    /// The element's name.
    pub name: QName,
    /// The place of its grammar.
    pub full: u32,
    /// The place of its empty form, which is the next.
    pub empty: u32,
    /// Whether `xsi:nil` can empty it.
    pub nillable: bool,
}
