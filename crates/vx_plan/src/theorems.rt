//! Laws of plans and lists. These functions do nothing: their contracts are what they are for, and a caller that cites a
//! law calls its function.
ghost use Rattle.vx_plan.specs.Laws.{WholeLaw, PartLaw, PrefixFreeLaw, GoesOnLaw, AppendsLaw, PlaceGoesOnLaw, RunLaw, BoundLaw, DataBoundLaw, PartBoundLaw, SteadyLaw, OwnStaysLaw, WantsNothingLaw, SmallPlaceLaw, ReadMovedLaw, WriteMovedLaw};

/// A list stands as whole exactly where it does the whole job.
pub fn whole_lists()
    ensures { WholeLaw }
{}

/// A list stands as a part exactly where it is a proper front of a list that does the whole job.
pub fn part_lists()
    ensures { PartLaw }
{}

/// No whole list begins another.
pub fn prefix_free()
    ensures { PrefixFreeLaw }
{}

/// A list goes on by exactly the transfers that fit what its plan wants next.
pub fn goes_on()
    ensures { GoesOnLaw }
{}

/// What is left after two lists is what is left after the second of what was left after the first.
pub fn appends()
    ensures { AppendsLaw }
{}

/// A turn that makes the transfer that its plan wants next comes to the place with this transfer.
pub fn place_goes_on()
    ensures { PlaceGoesOnLaw }
{}

/// A turn that makes a run of transfers that its plan wants comes to the place behind them.
pub fn run_goes_on()
    ensures { RunLaw }
{}

/// No list that keeps to a plan has more than [`TURN_MAX`](crate::TURN_MAX) transfers.
pub fn few_transfers()
    ensures { BoundLaw }
{}

/// With the data bytes that come in a row behind it, it has no more either.
pub fn few_with_data()
    ensures { DataBoundLaw }
{}

/// A list that is a part of its job has fewer.
pub fn part_is_shorter()
    ensures { PartBoundLaw }
{}

/// No job but that of a new own address makes an `Own` transfer.
pub fn no_other_own()
    ensures { SteadyLaw }
{}

/// No job but that of a new own address changes the gateway's own address.
pub fn own_stays()
    ensures { OwnStaysLaw }
{}

/// A list that keeps to its plan wants nothing more exactly where it is whole.
pub fn wants_nothing()
    ensures { WantsNothingLaw }
{}

/// A place counts at most 8 steps, and no more bytes than a device_write may have.
pub fn small_place()
    ensures { SmallPlaceLaw }
{}

/// A read has moved as many bytes as it got.
pub fn read_moved()
    ensures { ReadMovedLaw }
{}

/// A write has moved as many bytes as it put.
pub fn write_moved()
    ensures { WriteMovedLaw }
{}
