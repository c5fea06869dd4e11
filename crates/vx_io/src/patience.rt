//! When a receive looks for bytes before it sleeps for them. No contract speaks of it: it changes when bytes are seen, not
//! which.

/// How often a receive looks for bytes before it sleeps: about as long as a peer on the same machine takes to ask again.
pub(super) const LOOKS: u32 = 48;

/// How many receives sleep at once after one that looked in vain, at most.
const BLIND_MAX: u32 = 64;

/// When a receive looks for bytes before it sleeps. A sleep costs a wake-up, which a look that finds bytes saves; so it goes on
/// looking while that pays, and looks ever more seldom while it doesn't.
#[derive(Clone, Copy)]
pub(super) struct Patience {
    // how many receives are still to sleep at once
    blind: u32,
    // how many will after the next look in vain
    next_blind: u32,
}

impl Patience {
    /// That of a new link, whose first receive looks.
    pub(super) const NEW: Patience = Patience {
        blind: 0,
        next_blind: 1,
    };

    /// Whether this receive looks before it sleeps.
    pub(super) fn looks(&mut self) -> bool {
        if self.blind == 0 {
            return true;
        }
        self.blind -= 1;
        false
    }

    /// Looking found bytes.
    pub(super) fn paid(&mut self) {
        self.next_blind = 1;
    }

    /// Looking was in vain.
    pub(super) fn failed(&mut self) {
        self.blind = self.next_blind;
        self.next_blind = self.next_blind.saturating_mul(2).min(BLIND_MAX);
    }
}
