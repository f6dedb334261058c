// What a case is: a file, what it is worked over, and the text that the rules give for it, worked out by hand.
use std::alloc::{AllocError, Global};

/// The tables that a file is worked over.
#[derive(Clone, Copy)]
pub enum Over {
    // a queue of so many places, half of them for each side
    Queue(usize),
    // a queue of 64 places, and the slots
    QueueAndSlots,
}

/// A file, the places of the tables that it runs over, and the text that it is to be answered with.
#[derive(Drop)]
pub struct Case {
    pub name: String,
    pub over: Over,
    /// how many slips a call may write
    pub room: usize,
    pub file: Vec<u8>,
    pub text: Vec<u8>,
}

impl Case {
    /// A case of which nothing but the name is said.
    pub fn new(heap: Global, name: &str) -> Result<Case, AllocError> {
        Ok(Case {
            name: String::from_str(heap, name)?,
            over: Over::QueueAndSlots,
            room: 64,
            file: Vec::new(heap),
            text: Vec::new(heap),
        })
    }
}
