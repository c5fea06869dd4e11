//! The gate, and the calls of a pass.
ghost use Rattle.std.specs.Prelude.{◌≡◌, ◌≢◌, ◌⊎◌, ◌+◌, ◌-◌, ◌<◌, ◌≤◌, [], IfOk, IfErr, ◌∷◌, vec_len};
ghost use mathlib.Core.List.{IsPrefix};
ghost use Rattle.vx_gate.specs.History.{groups, made_by, Lawful};
ghost use Rattle.vx_gate.specs.PassView.{GateId};
ghost use Rattle.vx_gate.specs.Turning.{MayTurn, Turned};

use crate::acts::{Act, Kept};
use crate::holding::{self, Room, WORDS};
use crate::passes::{Pass, PassOf};
use crate::plays::{Meet, OneHistory};
use crate::views::View;
use crate::waiting;
use atomic_table::{Refused, Table};
use std::alloc::{AllocFailed, Global};
use std::marker::Brand;
use std::snapshot::Snapshot;
use std::sync::Wait;

/// A gate round a `K`. It takes its memory at the start, and each other call takes none.
pub struct Gate<K: Kept> {
    table: Table<K, View<<K as Kept>::Group>, Snapshot<K>, OneHistory, Global>,
    ghost sized: { (table.shared.table_id.words ≡ 64) × (table.shared.table_id.slots ≡ 1) },
}

/// There was no memory for the gate. The value comes back.
#[derive(Drop)]
pub struct GateRefused<K> {
    pub value: K,
}

/// Takes turns at a gate round a `K`.
pub trait Turns<K: Kept> {
    // Which gate it is.
    ghost gate: { Self → GateId };

    // The value that it was started over, as it was then.
    ghost first: { Self → K };

    /// Runs the act on the value, in the pass's turn, and adds the group of the run to the history.
    fn turn<R: Wait, A: Act<K>>(&self, rt: &R, pass: Pass<K>, act: &mut A) -> (Pass<K>, A::Answer)
        requires gate { pass.gate ≡ gate self.now }
        requires act { MayTurn (K.stands (first self.now)) K.may_add A.asks A.does A.adds pass act.old }
        ensures { Turned (K.stands (first self.now)) K.may_add A.does A.adds pass act.old result.1 act.new result.0 };
}

impl<K: Kept> Gate<K> {
    ghost use Rattle.vx_gate.specs.Gates.{gate_of, first_of};

    /// A gate round the value, which is the first of its history, with no group in that, and its first pass, which has all
    /// 4,294,967,296 parts.
    pub fn start(alloc: Global, value: K) -> Result<(Gate<K>, Pass<K>), GateRefused<K>>
        requires { K.stands value value [] }
        ensures first { IfOk result (λ r. first_of r.0 ≡ value) }
        ensures gate { IfOk result (λ r. r.1.gate ≡ gate_of r.0) }
        ensures pass { IfOk result (λ r. (r.1.number ≡ 0) × (r.1.parts ≡ 4294967296) × (r.1.seen ≡ []) × (r.1.own ≡ [])) }
        ensures refused { IfErr result (λ r. r.value ≡ value) }
    {
        let first = Snapshot::of(&value);
        let mut slots = Vec::new(alloc);
        if let Err(AllocFailed { value }) = slots.push(value) {
            slots.destroy_empty();
            return Err(GateRefused { value });
        }
        match Table::new(alloc, &[0; WORDS], slots, &first) {
            Ok((table, seat)) => Ok((Gate { table }, PassOf::of(seat))),
            Err(Refused { slots }) => Err(GateRefused { value: only(slots) }),
        }
    }

    /// Makes a second pass with one part of this one, which has seen the same and made nothing.
    pub fn part(&self, pass: Pass<K>) -> (Pass<K>, Pass<K>)
        requires gate { pass.gate ≡ gate_of self.now }
        requires parts { 2 ≤ pass.parts }
        ensures first { result.0 ≡ record pass { parts = pass.parts - 1 } }
        ensures second { (result.1.gate ≡ pass.gate) × (result.1.parts ≡ 1) × (result.1.seen ≡ pass.seen) × (result.1.own ≡ []) }
        ensures numbers { result.1.number ≢ result.0.number }
        ensures order { (made_by result.0.number result.0.seen ≡ result.0.own) × (made_by result.1.number result.1.seen ≡ []) }
    {
        let mut place = pass.into_seat();
        let mut other = holding::split::<K, Brand>(&self.table.shared, &mut place);
        holding::learn::<K, Brand>(&self.table.shared, &mut other);
        (PassOf::of(place), PassOf::of(other))
    }

    /// Lets the first pass go on with the parts of both and the longer of both seen lists, of which the other is a
    /// beginning.
    pub fn meet(&self, into: Pass<K>, other: Pass<K>) -> Pass<K>
        requires into { into.gate ≡ gate_of self.now }
        requires other { other.gate ≡ gate_of self.now }
        ensures same { (result.gate ≡ into.gate) × (result.number ≡ into.number) × (result.own ≡ into.own) }
        ensures parts { result.parts ≡ into.parts + other.parts }
        ensures longer { (result.seen ≡ into.seen) ⊎ (result.seen ≡ other.seen) }
        ensures begins { IsPrefix into.seen result.seen × IsPrefix other.seen result.seen }
        ensures order { made_by result.number result.seen ≡ result.own }
    {
        let mut place = into.into_seat();
        self.table
            .shared
            .join_seat::<Meet>(&mut place, other.into_seat());
        holding::learn::<K, Brand>(&self.table.shared, &mut place);
        PassOf::of(place)
    }

    /// Runs the act on the value, in the pass's turn, and adds the group of the run to the history. It waits for a while,
    /// at most some 50 milliseconds, while other passes are in line, then draws a ticket and waits until that is served; it
    /// looks first and then sleeps. From 2^62 tickets on it never returns.
    pub fn turn<R: Wait, A: Act<K>>(
        &self,
        rt: &R,
        pass: Pass<K>,
        act: &mut A,
    ) -> (Pass<K>, A::Answer)
        requires gate { pass.gate ≡ gate_of self.now }
        requires act { MayTurn (K.stands (first_of self.now)) K.may_add A.asks A.does A.adds pass act.old }
        ensures { Turned (K.stands (first_of self.now)) K.may_add A.does A.adds pass act.old result.1 act.new result.0 }
    {
        let room = &self.table.shared;
        let mut place = pass.into_seat();
        waiting::stay_outside(rt, room);
        let ticket = holding::draw(room, &mut place);
        holding::take::<K, Brand, R>(rt, room, &mut place, ticket);
        let answer = holding::run_and_count(room, &mut place, ticket, act);
        holding::serve(room, &mut place, ticket);
        (PassOf::of(place), answer)
    }

    /// Ends the gate, once all other passes were met into this one. The pass comes back with what it knows, and is
    /// of no gate any more.
    pub fn close(self, pass: Pass<K>) -> (K, Pass<K>)
        requires gate { pass.gate ≡ gate_of self }
        requires parts { pass.parts ≡ 4294967296 }
        ensures stands { K.stands (first_of self) result.0 (groups result.1.seen) }
        ensures lawful { Lawful K.may_add result.1.seen }
        ensures same { (result.1.number ≡ pass.number) × (result.1.parts ≡ pass.parts) × (result.1.seen ≡ pass.seen) × (result.1.own ≡ pass.own) }
    {
        let Gate { table } = self;
        let mut place = pass.into_seat();
        let last = holding::leave::<K, Brand>(&table.shared, &mut place);
        let mut closed = table.close_with(last);
        let value = closed.take(0);
        closed.free();
        (value, PassOf::of(place))
    }
}

impl<K: Kept> Turns<K> for Gate<K> {
    ghost use Rattle.vx_gate.specs.Gates.{gate_of, first_of};

    ghost gate = { gate_of };

    ghost first = { first_of };

    fn turn<R: Wait, A: Act<K>>(&self, rt: &R, pass: Pass<K>, act: &mut A) -> (Pass<K>, A::Answer)
        requires gate { pass.gate ≡ gate_of self.now }
        requires act { MayTurn (K.stands (first_of self.now)) K.may_add A.asks A.does A.adds pass act.old }
        ensures { Turned (K.stands (first_of self.now)) K.may_add A.does A.adds pass act.old result.1 act.new result.0 }
    {
        Gate::turn(self, rt, pass, act)
    }
}

impl<K: Kept + Drop> Drop for Gate<K> {
    fn drop(self) {
        let Self { table: _ } = self;
    }
}

// The one value of the list.
fn only<K>(mut slots: Vec<K>) -> K
    requires { vec_len slots ≡ 1 }
    ensures { slots.items ≡ result ∷ [] }
{
    let value = slots.pop().unwrap();
    slots.destroy_empty();
    value
}
