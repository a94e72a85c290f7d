/// Where a value stands.
#[derive(Clone, Copy, Debug)]
pub enum Standing {
    /// At this place under its name.
    Own(u32),
    /// Not under its name, but at this place among all.
    Global(u32),
    /// Nowhere.
    Missing,
}
