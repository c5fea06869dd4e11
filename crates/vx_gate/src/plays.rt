//! The rule of the gate's table, and what each kind of step tells. These types are for the proofs alone.
ghost use Rattle.std.specs.Prelude.{ℕ, ◌+◌, List};
ghost use Rattle.vx_gate.specs.declared.views.Stage.TheVariants.{Spent};
ghost use Rattle.vx_gate.specs.Rule.{Ruled};
ghost use Rattle.vx_gate.specs.Steps.{first_view, fresh, parted, met, spent, at_stage, drew, looked, added, served, Learned};

use crate::acts::Kept;
use crate::views::View;
use atomic_table::{Join, Play, Split, TableRule};
use std::marker::{Brand, PhantomData};
use std::snapshot::Snapshot;

pub struct OneHistory;

impl<K: Kept> TableRule<K, View<K::Group>, Snapshot<K>> for OneHistory {
    ghost holds = { λ first. Ruled (K.stands first.value) K.may_add };

    ghost first = { λ _. first_view };
}

// The number of the pass that steps, and the group that it counts. A call at `Brand` picks them from its arguments.
pub(crate) trait Marks<G> {
    ghost number: { ℕ };

    ghost adds: { G → Type 0 };
}

impl<G> Marks<G> for Brand {
    ghost number = { 0 };

    ghost adds = { λ _. Unit {0} };
}

// What the gate's value stands for. A call at `Brand` picks it from its arguments.
pub(crate) trait Standing<K, G> {
    ghost stands: { K → List G → Type 0 };
}

impl<K, G> Standing<K, G> for Brand {
    ghost stands = { λ _ _. Unit {0} };
}

pub(crate) struct Draw;

impl<K, G> Play<K, View<G>> for Draw {
    ghost then = { drew };
}

pub(crate) struct Look<B> {
    marker: PhantomData<B>,
}

impl<K: Kept, B: Marks<K::Group> + Standing<K, K::Group>> Play<K, View<K::Group>> for Look<B> {
    ghost then = { looked B.stands K.may_add B.number };
}

pub(crate) struct Count<B> {
    marker: PhantomData<B>,
}

impl<K, G, B: Marks<G>> Play<K, View<G>> for Count<B> {
    ghost then = { added B.adds B.number };
}

pub(crate) struct Serve;

impl<K, G> Play<K, View<G>> for Serve {
    ghost then = { served };
}

pub(crate) struct Learn<B> {
    marker: PhantomData<B>,
}

impl<K: Kept, B: Marks<K::Group>> Play<K, View<K::Group>> for Learn<B> {
    ghost then = { λ _ m _ n. Learned K.may_add B.number m n };
}

pub(crate) struct Part<B> {
    marker: PhantomData<B>,
}

impl<G, B: Marks<G>> Split<View<G>> for Part<B> {
    ghost left = { parted };

    ghost right = { λ v. fresh B.number 1 v.seen };
}

pub(crate) struct Leave<B> {
    marker: PhantomData<B>,
}

impl<G, B: Marks<G>> Split<View<G>> for Leave<B> {
    ghost left = { at_stage Spent };

    ghost right = { λ v. fresh B.number v.parts v.seen };
}

pub(crate) struct Meet;

impl<G> Join<View<G>> for Meet {
    ghost both = { met };

    ghost spent = { spent };
}
