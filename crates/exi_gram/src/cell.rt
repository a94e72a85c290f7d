/// Where the cells stand that a part of a code chooses from.
#[derive(Clone, Copy, Debug)]
pub struct Branch {
    /// The place of the cell of the part 0.
    pub begin: u32,
    /// How many values the part has.
    pub count: u32,
}

/// What a part of a code tells.
#[derive(Clone, Copy, Debug)]
pub enum Cell {
    /// The code ends, and it is the one at this place.
    Leaf(u32),
    /// The code goes on.
    Branch(Branch),
}
