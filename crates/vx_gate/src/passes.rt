//! The right to take turns at a gate.
ghost use Rattle.std.specs.Prelude.{◌≡◌};

use crate::acts::Kept;
use crate::views::View;
use atomic_table::Seat;
use std::marker::Model;

/// A pass of a gate round a `K`. Contracts see its gate, its number, its parts of the right to close the gate, the
/// beginning of the history that it has seen, and the groups that it made. It can't be copied, and has no bytes.
pub type Pass<K> = PassOf<K, <K as Kept>::Group>;

/// A pass of a gate round a `K`, where `G` is the type of the groups of `K`. A pass that is dropped takes its parts
/// with it, so its gate is never closed.
pub struct PassOf<K, G> {
    seat: Seat<K, View<G>>,
}

impl<K, G> Model for PassOf<K, G> {
    ghost use Rattle.vx_gate.specs.PassView.{PassView};

    ghost Value = { PassView G };

    ghost use Rattle.vx_gate.specs.Seats.{pass_view, IsPass};

    ghost view = { λ p. pass_view p.seat };

    ghost invariant = { λ p. IsPass p.seat };
}

impl<K, G> PassOf<K, G> {
    ghost use Rattle.vx_gate.specs.Seats.{pass_view, IsPass};
    ghost use Rattle.vx_gate.specs.History.{made_by};

    /// What every pass knows: the groups that it made are those of its number among what it has seen.
    pub fn order(&self)
        ensures { made_by self.now.number self.now.seen ≡ self.now.own }
    {
        let _ = &self.seat;
    }

    pub(crate) fn of(seat: Seat<K, View<G>>) -> PassOf<K, G>
        requires { IsPass seat }
        ensures { result ≡ pass_view seat }
    {
        PassOf { seat }
    }

    pub(crate) fn into_seat(self) -> Seat<K, View<G>>
        ensures shown { pass_view result ≡ self }
        ensures is_pass { IsPass result }
    {
        let PassOf { seat } = self;
        seat
    }
}

impl<K, G> Drop for PassOf<K, G> {
    fn drop(self) {
        let Self { seat: _ } = self;
    }
}
