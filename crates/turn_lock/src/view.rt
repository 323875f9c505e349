// What the seats of the lock's table know. No value of these types but `Look` is made: they exist
// in proofs alone.
use std::collections::LinkedList;

/// What one of a pass's own steps found.
pub enum Look {
    /// An exchange on the turn word, and the word that it found: 0 where the turn was got, else the
    /// number of a pass.
    Turn(u64),
    /// A load of the count word, and the number that it found.
    Count(u64),
}

// What is remembered of a pass whose seat was given up.
pub struct PastView<E> {
    pub number: u64,
    pub seen: LinkedList<E>,
    pub own: LinkedList<E>,
    pub floor: u64,
}

// The view of one seat. One with the number 0 is of no pass, and only such a seat remembers past
// ones. `greatest` is 0 but at the seat that numbers the next pass, where it is the greatest number
// given out.
pub struct SeatView<E, G> {
    pub number: u64,
    pub seen: LinkedList<E>,
    pub own: LinkedList<E>,
    pub floor: u64,
    pub idle: bool,
    pub looks: LinkedList<Look>,
    pub basis: Option<G>,
    pub greatest: u64,
    pub past: LinkedList<PastView<E>>,
}
