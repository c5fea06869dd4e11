//! Four gates, and the turns at them.
ghost use Rattle.std.specs.Prelude.{◌≡◌, ◌≢◌, ◌⊎◌, ◌≤◌, ◌<◌, ◌+◌, ◌-◌, ◌++◌, ◌∷◌, ℕ, [], length, take, IfOk, IfErr, IfSome, vec_len, vec_capacity, Some, None};
ghost use Rattle.std.specs.List.{All};
ghost use Rattle.vx_gate.specs.Gates.{gate_of, first_of};
ghost use Rattle.vx_gate.specs.Turning.{MayTurn, Turned};
ghost use Rattle.vx_desks.specs.Four.{at, put, listed, Each, EachOf};
ghost use Rattle.vx_desks.specs.Passing.{passes_shown, IsOf, IsFirst, Parts, IsParted, InOrder, IsMet};
ghost use Rattle.vx_desks.specs.Standing.{gates_shown, firsts_shown, ComeBack};

use crate::fleet::passes::Passes;
use std::alloc::Global;
use std::sync::Wait;
use vx_gate::{Act, Gate, GateRefused, Kept, Pass};

/// Four gates, by their numbers 0 to 3.
pub struct Gates<K: Kept> {
    pub zero: Gate<K>,
    pub one: Gate<K>,
    pub two: Gate<K>,
    pub three: Gate<K>,
}

/// There was no memory for the gates. Four values come back, to whose histories no group was added.
#[derive(Drop)]
pub struct GatesRefused<K> {
    pub cores: Vec<K>,
}

/// Starts a gate round the last of the values. Where there is no memory for it, the value stays the last.
fn start_last<K: Kept>(alloc: Global, cores: &mut Vec<K>) -> Option<(Gate<K>, Pass<K>)>
    requires some { 0 < length cores.old.items }
    requires stand { All (λ core. K.stands core core []) cores.old.items }
    ensures stand { All (λ core. K.stands core core []) cores.new.items }
    ensures capacity { vec_capacity cores.new ≡ vec_capacity cores.old }
    ensures started { IfSome result (λ r. IsFirst r.1 (gate_of r.0) × (cores.old.items ≡ cores.new.items ++ first_of r.0 ∷ []) × (length cores.new.items + 1 ≡ length cores.old.items)) }
    ensures refused { result ≡ None → cores.new.items ≡ cores.old.items }
{
    let value = cores.pop().unwrap();
    match Gate::start(alloc, value) {
        Ok(started) => Some(started),
        Err(GateRefused { value }) => {
            cores.push_reserved(value);
            None
        }
    }
}

/// Ends a gate at which no turn was taken, and has its value be the last of the values.
fn end_first<K: Kept>(cores: &mut Vec<K>, gate: Gate<K>, pass: Pass<K>)
    requires first { IsFirst pass (gate_of gate) }
    requires room { vec_len cores.old < vec_capacity cores.old }
    ensures len { length cores.new.items ≡ length cores.old.items + 1 }
    ensures back { (now : K) × (cores.new.items ≡ cores.old.items ++ now ∷ []) × K.stands (first_of gate) now [] }
    ensures capacity { vec_capacity cores.new ≡ vec_capacity cores.old }
{
    let (value, _) = gate.close(pass);
    cores.push_reserved(value);
}

/// Starts gates round the last two of the values, in their order, or none.
fn start_two<K: Kept>(
    alloc: Global,
    cores: &mut Vec<K>,
) -> Option<((Gate<K>, Pass<K>), (Gate<K>, Pass<K>))>
    requires some { 2 ≤ length cores.old.items }
    requires stand { All (λ core. K.stands core core []) cores.old.items }
    ensures capacity { vec_capacity cores.new ≡ vec_capacity cores.old }
    ensures started { IfSome result (λ r. IsFirst r.0.1 (gate_of r.0.0) × IsFirst r.1.1 (gate_of r.1.0) × All (λ core. K.stands core core []) cores.new.items
        × (cores.old.items ≡ cores.new.items ++ first_of r.0.0 ∷ first_of r.1.0 ∷ []) × (length cores.new.items + 2 ≡ length cores.old.items)) }
    ensures refused { result ≡ None → ComeBack K.stands cores.old.items cores.new.items }
    ensures len { result ≡ None → length cores.new.items ≡ length cores.old.items }
{
    let (gate, pass) = start_last(alloc, cores)?;
    match start_last(alloc, cores) {
        Some(first) => Some((first, (gate, pass))),
        None => {
            end_first(cores, gate, pass);
            None
        }
    }
}

impl<K: Kept> Gates<K> {
    /// Gates round four values, in their order, each the first of a history with no group in it, and the first pass of each. Where
    /// there is no memory for them the values come back in their order, and no group was added to the history of any.
    pub fn start(alloc: Global, cores: Vec<K>) -> Result<(Gates<K>, Passes<K>), GatesRefused<K>>
        requires four { length cores.items ≡ 4 }
        requires stand { All (λ core. K.stands core core []) cores.items }
        ensures started { IfOk result (λ r. Each IsFirst (passes_shown r.1) (gates_shown r.0)) }
        ensures order { IfOk result (λ r. cores.items ≡ listed (firsts_shown r.0)) }
        ensures refused { IfErr result (λ r. ComeBack K.stands cores.items r.cores.items) }
    {
        let mut cores = cores;
        let Some(((two, pass_two), (three, pass_three))) = start_two(alloc, &mut cores) else {
            return Err(GatesRefused { cores });
        };
        match start_two(alloc, &mut cores) {
            None => {
                end_first(&mut cores, two, pass_two);
                end_first(&mut cores, three, pass_three);
                Err(GatesRefused { cores })
            }
            Some(((zero, pass_zero), (one, pass_one))) => {
                cores.destroy_empty();
                let gates = Gates {
                    zero,
                    one,
                    two,
                    three,
                };
                let passes = Passes {
                    zero: pass_zero,
                    one: pass_one,
                    two: pass_two,
                    three: pass_three,
                };
                Ok((gates, passes))
            }
        }
    }

    /// The gate of this number, 0 to 3.
    pub fn gate(&self, number: u8) -> &Gate<K>
        requires { number ≤ 3 }
        ensures gate { gate_of result.now ≡ at number (gates_shown self.now) }
        ensures first { first_of result.now ≡ at number (firsts_shown self.now) }
    {
        match number {
            0 => &self.zero,
            1 => &self.one,
            2 => &self.two,
            _ => &self.three,
        }
    }

    /// Makes second passes with one part of each of these, which have seen the same and made nothing.
    pub fn part(&self, passes: Passes<K>) -> (Passes<K>, Passes<K>)
        requires gates { Each IsOf (passes_shown passes) (gates_shown self.now) }
        requires parts { Each (λ pass gate. 2 ≤ pass.parts) (passes_shown passes) (gates_shown self.now) }
        ensures first { Each Parts (passes_shown passes) (passes_shown result.0) }
        ensures second { Each IsParted (passes_shown passes) (passes_shown result.1) }
        ensures numbers { Each (λ first second. second.number ≢ first.number) (passes_shown result.0) (passes_shown result.1) }
        ensures order { Each InOrder (passes_shown result.0) (passes_shown result.1) }
    {
        let Passes {
            zero,
            one,
            two,
            three,
        } = passes;
        let (zero, other_zero) = self.zero.part(zero);
        let (one, other_one) = self.one.part(one);
        let (two, other_two) = self.two.part(two);
        let (three, other_three) = self.three.part(three);
        let first = Passes {
            zero,
            one,
            two,
            three,
        };
        let second = Passes {
            zero: other_zero,
            one: other_one,
            two: other_two,
            three: other_three,
        };
        (first, second)
    }

    /// Lets the first passes go on with the parts of both and the longer of both seen lists, of which the other is a beginning.
    pub fn meet(&self, into: Passes<K>, other: Passes<K>) -> Passes<K>
        requires into { Each IsOf (passes_shown into) (gates_shown self.now) }
        requires other { Each IsOf (passes_shown other) (gates_shown self.now) }
        ensures { EachOf IsMet (passes_shown into) (passes_shown other) (passes_shown result) }
    {
        let zero = self.zero.meet(into.zero, other.zero);
        let one = self.one.meet(into.one, other.one);
        let two = self.two.meet(into.two, other.two);
        let three = self.three.meet(into.three, other.three);
        Passes {
            zero,
            one,
            two,
            three,
        }
    }

    /// Runs the act on the value behind the gate of this number, in the turn of the pass of it, and adds the group of the run to that
    /// gate's history. The other three passes stay as they were.
    pub fn turn<R: Wait, A: Act<K>>(
        &self,
        rt: &R,
        passes: Passes<K>,
        number: u8,
        act: &mut A,
    ) -> (Passes<K>, A::Answer)
        requires gates { Each IsOf (passes_shown passes) (gates_shown self.now) }
        requires number { number ≤ 3 }
        requires act { MayTurn (K.stands (at number (firsts_shown self.now))) K.may_add A.asks A.does A.adds (at number (passes_shown passes)) act.old }
        ensures turned { Turned (K.stands (at number (firsts_shown self.now))) K.may_add A.does A.adds (at number (passes_shown passes)) act.old result.1 act.new (at number (passes_shown result.0)) }
        ensures others { passes_shown result.0 ≡ put number (at number (passes_shown result.0)) (passes_shown passes) }
        ensures gates { Each IsOf (passes_shown result.0) (gates_shown self.now) }
    {
        let Passes {
            zero,
            one,
            two,
            three,
        } = passes.swapped(number);
        let (zero, answer) = self.gate(number).turn(rt, zero, act);
        let passes = Passes {
            zero,
            one,
            two,
            three,
        };
        (passes.swapped(number), answer)
    }
}

impl<K: Kept + Drop> Drop for Gates<K> {
    fn drop(self) {
        let Self {
            zero: _,
            one: _,
            two: _,
            three: _,
        } = self;
    }
}
