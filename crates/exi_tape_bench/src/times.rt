// What is counted of the events.
use std::alloc::Global;

/// How often an event was pushed and played in all rounds, and how many nanoseconds a round took where it was least.
#[derive(Drop)]
pub struct Times {
    /// How many bytes spell the event.
    pub bytes: usize,
    /// Events that were pushed.
    pub pushed: u64,
    /// Events that were played.
    pub played: u64,
    /// The pushes of a round.
    pub push: u64,
    /// The plays of a round.
    pub play: u64,
    /// The copies of a round.
    pub copy: u64,
    /// Where to the bytes are copied.
    pub copied: Vec<u8>,
}

impl Times {
    /// No round of an event of that many bytes.
    fn new(alloc: Global, bytes: usize) -> Times {
        Times {
            bytes,
            pushed: 0,
            played: 0,
            push: u64::MAX,
            play: u64::MAX,
            copy: u64::MAX,
            copied: Vec::new(alloc),
        }
    }
}

/// What is counted of each event.
#[derive(Drop)]
pub struct Table {
    /// The end of an element.
    pub end: Times,
    /// An element.
    pub element: Times,
    /// An attribute with 16 characters.
    pub attribute: Times,
    /// 16 characters.
    pub short: Times,
    /// 1,024 characters.
    pub long: Times,
}

impl Table {
    /// No round.
    pub fn new(alloc: Global) -> Table {
        Table {
            end: Times::new(alloc, 1),
            element: Times::new(alloc, 8),
            attribute: Times::new(alloc, 26),
            short: Times::new(alloc, 19),
            long: Times::new(alloc, 1035),
        }
    }
}
