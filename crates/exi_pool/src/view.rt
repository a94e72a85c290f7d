use std::collections::LinkedList;

/// What a pass knows, for contracts alone: no value of it is made.
pub struct View {
    /// The pass's number among those of its pool, from 0.
    pub number: u64,
    /// In the view of pass 0, how many passes there are; 0 in any other.
    pub made: u64,
    /// The numbers of the pages that it put into the queue when the pool was made.
    pub firsts: LinkedList<u64>,
    /// The numbers of the pages that it took, in order.
    pub takes: LinkedList<u64>,
    /// The numbers of the pages that it gave, in order.
    pub gives: LinkedList<u64>,
}
