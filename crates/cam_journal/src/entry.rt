//! What a run is made of: events, letters and the steps that make them.

/// A letter, with the number of the event that sent it and its place, from 0, among the letters of that event.
#[derive(Drop)]
pub struct SentLetter<L> {
    pub number: u64,
    pub place: u32,
    pub letter: L,
}

/// An event in the history of a node: its number, and the letter that it received. No value of it is made.
pub struct NumberedEvent<E, L> {
    pub number: u64,
    pub event: E,
    pub received: Option<SentLetter<L>>,
}

/// A step of the whole run: the node that took it. Its number is its place in the run. No value of it is made.
pub struct RunStep<E, L> {
    pub node: u8,
    pub event: E,
    pub received: Option<SentLetter<L>>,
}
