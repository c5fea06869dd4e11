ghost use Rattle.std.specs.Prelude.{◌≡◌, ℕ, ◌+◌, ◌%◌, ◌^◌, ◌<◌, ◌≤◌, List, [], ◌++◌, length, replicate, sum, IfSome};
ghost use Rattle.vx_gate.specs.Gates.{gate_of};
ghost use Rattle.vx_gate.specs.Turning.{MayTurn, Turned};
ghost use Rattle.std.specs.Thread.{IsSync};

use std::alloc::Global;
use std::sync::Wait;
use std::thread::{Threads, join};
use vx_gate::{Act, Gate, Kept, Pass, Turns};

// A sum that wraps at 2^64, kept at a gate. A group is a number that was added.
#[derive(Drop)]
struct Sum {
    value: u64,
}

impl Kept for Sum {
    type Group = u64;

    ghost stands = { λ _ kept log. kept.value ≡ sum log % 2 ^ 64 };

    ghost may_add = { λ own number. Unit {0} };
}

// Adds a number, and answers the sum before.
#[derive(Drop)]
struct Add {
    by: u64,
}

impl Act<Sum> for Add {
    type Answer = u64;

    ghost asks = { λ act kept. Unit {0} };

    ghost does = { λ act kept answer act' kept'. (act' ≡ act) × (answer ≡ kept.value) × (kept'.value ≡ (kept.value + act.by) % 2 ^ 64) };

    ghost adds = { λ act kept answer act' kept'. act.by };

    fn run(&mut self, kept: &mut Sum) -> u64 {
        let before = kept.value;
        kept.value = before.wrapping_add(self.by);
        before
    }
}

// Adds the number so many times.
fn add_often<R: Wait, T: Turns<Sum>>(
    rt: &R,
    turns: &T,
    mut pass: Pass<Sum>,
    by: u64,
    times: u64,
) -> Pass<Sum>
    requires { pass.gate ≡ T.gate turns.now }
    ensures same { (result.gate ≡ pass.gate) × (result.number ≡ pass.number) × (result.parts ≡ pass.parts) }
    ensures own { result.own ≡ pass.own ++ replicate times by }
{
    let mut act = Add { by };
    for _ in 0..times {
        let (back, _) = turns.turn(rt, pass, &mut act);
        pass = back;
    }
    pass
}

// Lets two threads add, each by a pass of its own, and meets the second pass into the first.
fn add_in_two<R: Threads + Wait + Sync>(
    rt: &R,
    gate: &Gate<Sum>,
    one: Pass<Sum>,
    two: Pass<Sum>,
    numbers: (u64, u64),
    times: u64,
) -> Pass<Sum>
    requires { (one.gate ≡ gate_of gate.now) × (two.gate ≡ gate_of gate.now) }
    ensures same { (result.gate ≡ one.gate) × (result.number ≡ one.number) × (result.parts ≡ one.parts + two.parts) }
    ensures own { result.own ≡ one.own ++ replicate times numbers.0 }
{
    let (first, second) = numbers;
    let (one, two) = join(
        rt,
        move ||
            requires { one.gate ≡ gate_of gate.now }
            ensures { (result.gate ≡ one.gate) × (result.number ≡ one.number) × (result.parts ≡ one.parts) × (result.own ≡ one.own ++ replicate times first) }
        { add_often(rt, gate, one, first, times) },
        move ||
            requires { two.gate ≡ gate_of gate.now }
            ensures { (result.gate ≡ two.gate) × (result.parts ≡ two.parts) }
        { add_often(rt, gate, two, second, times) },
    );
    gate.meet(one, two)
}

// The same in four threads.
fn add_in_four<R: Threads + Wait + Sync>(
    rt: &R,
    gate: &Gate<Sum>,
    pass: Pass<Sum>,
    times: u64,
) -> Pass<Sum>
    requires { (pass.gate ≡ gate_of gate.now) × (4 ≤ pass.parts) }
    ensures { (result.gate ≡ pass.gate) × (result.parts ≡ pass.parts) }
{
    let (a, b) = gate.part(pass);
    let (a, c) = gate.part(a);
    let (a, d) = gate.part(a);
    let (a, c) = join(
        rt,
        move ||
            requires { (a.gate ≡ gate_of gate.now) × (b.gate ≡ gate_of gate.now) × IsSync R.row }
            ensures { (result.gate ≡ a.gate) × (result.parts ≡ a.parts + b.parts) }
        { add_in_two(rt, gate, a, b, (1, 10), times) },
        move ||
            requires { (c.gate ≡ gate_of gate.now) × (d.gate ≡ gate_of gate.now) × IsSync R.row }
            ensures { (result.gate ≡ c.gate) × (result.parts ≡ c.parts + d.parts) }
        { add_in_two(rt, gate, c, d, (100, 1000), times) },
    );
    gate.meet(a, c)
}

// One turn at any gate, for any act: the trait's contract is the whole of it.
fn turn_once<K: Kept, A: Act<K>, R: Wait, T: Turns<K>>(
    rt: &R,
    turns: &T,
    pass: Pass<K>,
    act: &mut A,
) -> (Pass<K>, A::Answer)
    requires gate { pass.gate ≡ T.gate turns.now }
    requires act { MayTurn (K.stands (T.first turns.now)) K.may_add A.asks A.does A.adds pass act.old }
    ensures { Turned (K.stands (T.first turns.now)) K.may_add A.does A.adds pass act.old result.1 act.new result.0 }
{
    pass.order();
    turns.turn(rt, pass, act)
}

// Adds the number of some bytes, which it borrows, and answers whether there are any.
#[derive(Drop)]
struct AddLength<'a> {
    bytes: &'a [u8],
}

impl<'a> Act<Sum> for AddLength<'a> {
    type Answer = bool;

    ghost asks = { λ act kept. Unit {0} };

    ghost does = { λ act kept answer act' kept'. kept'.value ≡ (kept.value + length act.bytes.now) % 2 ^ 64 };

    ghost adds = { λ act kept answer act' kept'. length act.bytes.now };

    fn run(&mut self, kept: &mut Sum) -> bool {
        kept.value = kept.value.wrapping_add(self.bytes.len() as u64);
        !self.bytes.is_empty()
    }
}

// A gate round a sum of 0, and its first pass.
fn start(alloc: Global) -> Option<(Gate<Sum>, Pass<Sum>)>
    ensures { IfSome result (λ r. (r.1.gate ≡ gate_of r.0) × (r.1.parts ≡ 4294967296) × (r.1.own ≡ [])) }
{
    Gate::start(alloc, Sum { value: 0 }).ok()
}

// What two threads add, 1,000 times 1 and 1,000 times 1,000.
fn by_two<R: Threads + Wait + Sync>(rt: &R, alloc: Global) -> Option<u64> {
    let (gate, pass) = start(alloc)?;
    let (one, two) = gate.part(pass);
    let pass = add_in_two(rt, &gate, one, two, (1, 1000), 1000);
    let (sum, _pass) = gate.close(pass);
    Some(sum.value)
}

// What four threads add, 10,000 times each.
fn by_four<R: Threads + Wait + Sync>(rt: &R, alloc: Global) -> Option<u64> {
    let (gate, pass) = start(alloc)?;
    let pass = add_in_four(rt, &gate, pass, 10_000);
    let (sum, _pass) = gate.close(pass);
    Some(sum.value)
}

// What acts that borrow some bytes and none answer, and the sum.
fn by_bytes<R: Wait>(rt: &R, alloc: Global) -> Option<(bool, bool, u64)> {
    let (gate, pass) = start(alloc)?;
    let (pass, some) = gate.turn(rt, pass, &mut AddLength { bytes: b"abc" });
    let (pass, more) = turn_once(rt, &gate, pass, &mut AddLength { bytes: b"" });
    let (sum, _pass) = gate.close(pass);
    Some((some, more, sum.value))
}

// What two turns of one act answer, and the sum.
fn by_one<R: Wait>(rt: &R, alloc: Global) -> Option<(u64, u64, u64)> {
    let (gate, pass) = start(alloc)?;
    let mut act = Add { by: 5 };
    let (pass, before) = turn_once(rt, &gate, pass, &mut act);
    let (pass, between) = turn_once(rt, &gate, pass, &mut act);
    let (sum, _pass) = gate.close(pass);
    Some((before, between, sum.value))
}

#[test]
fn threads_add_by_turns(rt: HostRuntime) {
    let sums = (by_two(&rt, rt.alloc()), by_four(&rt, rt.alloc()));
    assert_eq!(rt; sums, (Some(1_001_000), Some(11_110_000)));
}

#[test]
fn a_turn_answers_what_its_act_answers(rt: HostRuntime) {
    let answers = (by_bytes(&rt, rt.alloc()), by_one(&rt, rt.alloc()));
    assert_eq!(rt; answers, (Some((true, false, 3)), Some((0, 5, 10))));
}
