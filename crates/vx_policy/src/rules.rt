//! What one rule says.
use vx_calls::Proc;

/// The peers that a rule is for.
#[derive(Clone, Copy)]
pub enum Peers {
    /// Each peer.
    Any,
    /// Each whose first `bits` bits, 0 to 32, are those of the IPv4 address a.b.c.d.
    Under {
        a: u8,
        b: u8,
        c: u8,
        d: u8,
        bits: u8,
    },
}

/// The targets that a rule is for.
#[derive(Clone, Copy)]
pub enum Place {
    /// Each target, and calls that have none.
    Any,
    /// The interface itself.
    Bus,
    /// The devices of this primary address, 0 to 30.
    At(u8),
}

/// A rule: whether it allows or denies, for which peers, for which procedure of the core channel, or each where it names none,
/// and for which targets.
#[derive(Clone, Copy)]
pub struct Rule {
    pub allow: bool,
    pub peers: Peers,
    pub proc: Option<Proc>,
    pub place: Place,
}
