//! An instrument that is pulled off a bus is dropped, once.

use crate::latch_tools::{Counter, Latch, make_latch};
use std::alloc::Global;
use std::sync::Arc;
use std::sync::atomic::{AtomicU64, Ordering};
use std::test::Fail;
use vx_488::Addr;
use vx_inst::Instrument;
use vx_sim::SimBus;

/// An instrument as a program keeps it.
type Boxed = Box<dyn Instrument + Send>;

const FIVE: Addr = Addr { p: 5, s: None };

const SIX: Addr = Addr { p: 6, s: None };

/// A latch that counts, where it is dropped.
fn make_counted(drops: &Arc<AtomicU64, Global>) -> Result<Latch, Fail> {
    let drops = Arc::try_clone(drops)?;
    Ok(make_latch(0, Some(Counter { drops })))
}

/// Pulls the instrument at 5. Answers whether one stood there, and how many were dropped so far.
fn pull<I: Instrument>(bus: &mut SimBus<I>, drops: &AtomicU64) -> (bool, u64) {
    let stood = bus.pull(FIVE).is_ok();
    (stood, drops.load(Ordering::SeqCst))
}

/// Whether two instruments were attached, how many were dropped then, and what comes of two pulls at the same address.
type Pulled = ([bool; 2], u64, [(bool, u64); 2]);

fn pull_twice<I: Instrument>(
    alloc: Global,
    first: I,
    second: I,
    drops: &AtomicU64,
) -> Result<Pulled, Fail> {
    let mut bus = SimBus::new(alloc).map_err(|_| "no memory")?;
    let attached = [
        bus.attach_box(FIVE, first).is_ok(),
        bus.attach_box(SIX, second).is_ok(),
    ];
    let early = drops.load(Ordering::SeqCst);
    let pulled = [pull(&mut bus, drops), pull(&mut bus, drops)];
    Ok((attached, early, pulled))
}

/// Does so with two latches in boxes.
fn pull_boxed(alloc: Global, drops: &Arc<AtomicU64, Global>) -> Result<Pulled, Fail> {
    let first: Boxed = Box::new(alloc, make_counted(drops)?)?;
    let second: Boxed = Box::new(alloc, make_counted(drops)?)?;
    pull_twice(alloc, first, second, drops)
}

// The box that a pull takes off the bus is dropped then, and no other. A bus that is dropped drops the rest.
#[test]
fn a_pulled_box_is_dropped_once(rt: HostRuntime) -> Result<(), Fail> {
    let drops = Arc::new(rt.alloc(), AtomicU64::new(0))?;
    let found = pull_boxed(rt.alloc(), &drops)?;
    let behind = drops.load(Ordering::SeqCst);
    assert!(rt; found == ([true; 2], 0, [(true, 1), (false, 1)]));
    assert!(rt; behind == 2);
    Ok(())
}
