/// Where a type has its attribute wildcard from.
#[derive(Clone, Copy, Debug, PartialEq, Eq)]
pub enum Source {
    /// It has none.
    Nowhere,
    /// It is that of the built-in type of all types.
    AnyType,
    /// It is that of the element at this place, which holds attributes.
    Holder(u32),
}
