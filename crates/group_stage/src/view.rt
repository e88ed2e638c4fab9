use group_calls::{Answer, Event};
use group_node::Node;
use group_types::Shape;
use std::collections::LinkedList;

/// What a stage is made for: a shape, and so many callers.
#[derive(Clone, Copy)]
pub struct Plan {
    pub shape: Shape,
    pub callers: u32,
}

/// An event that a seat made, with its number in the schedule and its answer. No value of it is made.
pub struct Numbered {
    pub number: u64,
    pub event: Event,
    pub answer: Answer,
}

/// What a seat knows. No value of it is made.
pub struct View {
    pub shape: Shape,
    // its part of all seats, and whether it may draw a caller number, which is then the next
    pub parts: u64,
    pub pens: u64,
    pub next: u64,
    // the caller numbers that it drew
    pub numbers: LinkedList<u32>,
    // its calls, the one in flight, and 1 until that is an event or meets a held word
    pub calls: u64,
    pub call: Event,
    pub due: u64,
    // the nodes that it holds, by the indices of their processes, the last first
    pub held: LinkedList<(usize, Node)>,
    // the words that it found held, and how far above 1 those were that it released
    pub met: LinkedList<usize>,
    pub cleared: LinkedList<(usize, u64)>,
    // its events, and the schedule as of the last
    pub made: LinkedList<Numbered>,
    pub seen: LinkedList<Event>,
}
