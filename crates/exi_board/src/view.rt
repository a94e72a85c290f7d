use std::collections::LinkedList;

/// The hints of a board, which are fixed when it is made. Hint h is the place h of the list.
#[derive(Drop)]
pub struct Hints<N> {
    /// The offset of each hint. They strictly increase.
    pub offsets: Vec<u64>,
    /// What the board promises of its postings.
    pub note: N,
}

/// A hint that a seat posted. No value of it is ever made: it stands in views alone.
pub struct PostRecord {
    /// The hint.
    pub hint: u64,
    /// The numbers of the posting's pages.
    pub pages: LinkedList<u64>,
}

/// A hint that a seat arrived at. No value of it is ever made: it stands in views alone.
pub struct ArrivalRecord {
    /// The hint.
    pub hint: u64,
    /// The word that the arrival found: 0 free, 1 posted, 2 spent, 3 + s claimed by seat s.
    pub found: u64,
    /// The numbers of the pages of the posting that the arrival took; none where it found another word than 1.
    pub pages: LinkedList<u64>,
}

/// What a seat knows of its board, and what contracts say of a seat. No value of it is ever made.
///
/// Each list begins empty and grows at its end.
pub struct SeatView<N> {
    /// The hints of the board.
    pub hints: Hints<N>,
    /// The number of the seat, counted from 0 in the order in which the seats were made.
    pub number: u64,
    /// In the view of seat 0 the number of seats that were made; in the other views 0.
    pub seats: u64,
    /// During a post, one more than the hint whose slot the seat has; else 0.
    pub putting: u64,
    /// The hints that the seat claimed.
    pub claimed: LinkedList<u64>,
    /// The hints that the seat tried to claim and saw not free.
    pub not_free: LinkedList<u64>,
    /// The hints that the seat posted in time, each with the pages of its posting.
    pub posted: LinkedList<PostRecord>,
    /// The hints that the seat posted late: an arrival had spent them, and the posting went back.
    pub late: LinkedList<u64>,
    /// The hints that the seat gave up.
    pub given_up: LinkedList<u64>,
    /// The hints that the seat arrived at.
    pub arrivals: LinkedList<ArrivalRecord>,
}
