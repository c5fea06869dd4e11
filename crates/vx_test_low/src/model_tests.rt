//! Steps of the gateway of one thread. What it takes, and what it refuses, are rows of `vx_measure`: traces, which the checker
//! judges by its steps.

use std::alloc::Global;
use vx_calls::{Proc, Role};
use vx_model::{EntryRef, NoMemory, Plain};

/// What a gateway says of connection 1: its role, its call and its channel.
type Shown = (Option<Role>, Option<Proc>, Option<u32>);

fn shown(plain: &Plain) -> Shown {
    (plain.role(1), plain.pending(1), plain.channel(1))
}

/// Connection 1 comes up twice: what is said of it before, whether each is a step, and what is said then.
fn come_up_twice(plain: &mut Plain) -> (Shown, [Result<bool, NoMemory>; 2], Shown) {
    let up = EntryRef::Up {
        conn: 1,
        role: Role::Core,
    };
    let before = shown(plain);
    let steps = [plain.step(&up), plain.step(&up)];
    (before, steps, shown(plain))
}

/// The same on a new gateway.
fn first_steps(alloc: Global) -> Result<(Shown, [Result<bool, NoMemory>; 2], Shown), NoMemory> {
    let mut plain = Plain::new(alloc, 9011)?;
    Ok(come_up_twice(&mut plain))
}

#[test]
fn a_connection_comes_up_once(rt: HostRuntime) {
    let wanted = (
        (None, None, None),
        [Ok(true), Ok(false)],
        (Some(Role::Core), None, None),
    );
    assert!(rt; first_steps(rt.alloc()) == Ok(wanted));
}
