//! The knowledge of each pass of the queue. No value of these types is made: contracts and the queue's rule speak of
//! them.
use crate::updates::Update;
use kc_graph::Item;
use std::collections::LinkedList;

/// The items that a client sent.
pub struct Submitted {
    /// The client's number.
    pub client: u32,
    /// The items, in order.
    pub items: LinkedList<Item>,
}

/// The knowledge of the drainer.
pub struct Drained {
    /// The number of clients.
    pub clients: u32,
    /// The drained batches, in order.
    pub taken: LinkedList<LinkedList<Update>>,
    /// The items that each client sent that was taken in.
    pub joined: LinkedList<Submitted>,
}

/// The use of a pass of the queue, with its knowledge.
pub enum Role {
    /// The pass has no more use.
    Spent,
    /// The pass of a client.
    Submits(Submitted),
    /// The pass of the drainer.
    Drains(Drained),
}
