//! What the seats of the gate's table know. No value of these types is made.
use std::collections::LinkedList;

/// A group of the history, and the number of the pass that made it.
pub struct Logged<G> {
    pub by: u64,
    pub group: G,
}

/// Where a pass is: at rest, with a ticket, in its turn before or after the count, or at its end.
pub enum Stage {
    Idle,
    Drawn(u64),
    Turn(u64),
    Counted(u64),
    Spent,
}

/// What a pass knows.
pub struct View<G> {
    pub stage: Stage,
    /// The number of the pass that it was parted from, or of none: never its own.
    pub maker: u64,
    /// Its part of the right to close the gate.
    pub parts: u64,
    /// The beginning of the history that it has seen.
    pub seen: LinkedList<Logged<G>>,
    /// Another such beginning, which came with the last pass that it met.
    pub also: LinkedList<Logged<G>>,
    /// The groups that it made, in order.
    pub own: LinkedList<G>,
}
