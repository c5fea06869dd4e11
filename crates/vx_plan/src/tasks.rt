//! Jobs, the place of a turn in one, and the next move from there.
ghost use Rattle.std.specs.Prelude.{◌≡◌, ◌≤◌, [], ◌∷◌, Some};
ghost use Rattle.vx_488.specs.declared.transfers.TheConstants.{ADDRESS_MAX};
ghost use Rattle.vx_488.specs.declared.transfers.Transfer.{Transfer};
ghost use Rattle.vx_488.specs.declared.transfers.Transfer.TheVariants.{Cmd};
ghost use Rattle.vx_plan.specs.Tasks.{IsPlainTask, IsTargetPlain, command_list, remote_list, unl, mta, tct};
ghost use Rattle.vx_plan.specs.Moves.{IsMoveAt};
ghost use Rattle.vx_plan.specs.Places.{place_of, IsReached, IsNextMove};
ghost use Rattle.vx_plan.specs.Runs.{IsDataLeft};
ghost use Rattle.vx_plan.specs.Roles.{has_role};

use crate::moves::{
    DCL, GET, GTL, MLA, MTA, SDC, SPE, Step, TCT, UNL, address_step, front_step, gets_left,
    next_get, next_put, only_move, poll_end_step, poll_tail, puts_left,
};
use vx_488::Wire;
use vx_calls::{Target, WRITE_MAX};

/// The most transfers of one turn: those of the longest device_write, behind the end of serial poll mode, unlisten, the
/// gateway's own address, and both parts of the device's. A read and a device_docmd make no more.
pub const TURN_MAX: u32 = WRITE_MAX + 5;

/// A job on the bus.
#[derive(Clone, Copy, PartialEq, Eq)]
pub enum Task {
    /// To send `len` data bytes, with END on the last one or not.
    Write {
        t: Target,
        len: u32,
        end: bool,
    },
    /// To take at most `max` bytes, up to one with END or one that equals `stop`.
    Read {
        t: Target,
        max: u32,
        stop: Option<u8>,
    },
    /// To poll a device's status byte.
    Stb {
        t: Target,
    },
    /// To clear a device, or all.
    Clear {
        t: Target,
    },
    /// To trigger a device, or whoever listens.
    Trigger {
        t: Target,
    },
    /// To put a device under remote control, or to switch REN on.
    Remote {
        t: Target,
    },
    /// To give a device its local control back, or to switch REN off.
    Local {
        t: Target,
    },
    /// To send `len` command bytes.
    Commands {
        len: u32,
    },
    /// To tell the bus's status: the selector is 1 to 8.
    Status {
        selector: u16,
    },
    /// To switch ATN.
    Atn(bool),
    /// To switch REN.
    Ren(bool),
    /// To pass control to the device at this primary address.
    Pass(u8),
    /// To make this the gateway's own address.
    Own(u8),
    /// To send interface clear.
    Ifc,
}

/// How far a turn has come in its job.
#[derive(Clone, Copy, PartialEq, Eq)]
pub struct Place {
    /// Serial poll mode was on when the turn began.
    pub polling: bool,
    /// The gateway's own address when the turn began.
    pub own: u8,
    /// How many transfers without a data byte were made.
    pub step: u8,
    /// How many data bytes were moved.
    pub moved: u32,
    /// The last byte that was got, and whether END stood on it.
    pub last: Option<(u8, bool)>,
}

/// What a job wants next.
#[derive(Clone, Copy, PartialEq, Eq)]
pub enum Next {
    /// This command byte.
    Command(u8),
    /// The next of the command bytes that it was given.
    CommandByte,
    /// The next of the data bytes that it was given, with END or not.
    Put { end: bool },
    /// A byte from the talker.
    Get,
    /// REN goes on or off.
    Ren(bool),
    /// ATN goes on or off.
    Atn(bool),
    /// Interface clear.
    Ifc,
    /// The gateway's own address is this from here on.
    Own(u8),
    /// Nothing: the job is done.
    Finished,
}

/// Where every turn begins, on this bus.
pub fn first_place(wire: &Wire) -> Place
    ensures { (task : Task) → result ≡ place_of task wire.now.polling wire.now.own [] }
{
    Place {
        polling: wire.polling,
        own: wire.own,
        step: 0,
        moved: 0,
        last: None,
    }
}

/// What a job wants next at this place, in constant time (IEEE 488.1, 2.13; VXI-11.2, device_docmd).
pub fn next_move(task: &Task, place: &Place) -> Next
    requires plain { IsPlainTask task.now }
    requires own { place.now.own ≤ ADDRESS_MAX }
    requires reached { IsReached task.now place.now }
    ensures { IsNextMove task.now place.now result }
{
    match *task {
        Task::Write { t, len, end } => next_of_write(t, len, end, place),
        Task::Read { t, max, stop } => next_of_read(t, max, stop, place),
        Task::Stb { t } => next_of_poll(t, place),
        Task::Clear { t } => next_of_command(t, SDC, Next::Command(DCL), place),
        Task::Trigger { t } => next_of_command(t, GET, Next::Command(GET), place),
        Task::Remote { t } => next_of_remote(t, place),
        Task::Local { t } => next_of_command(t, GTL, Next::Ren(false), place),
        Task::Commands { len } => next_of_commands(len, place),
        Task::Status { .. } => Next::Finished,
        Task::Atn(on) => only_move(Next::Atn(on), place.step),
        Task::Ren(on) => only_move(Next::Ren(on), place.step),
        Task::Pass(p) => next_of_pass(p, place),
        Task::Own(address) => only_move(Next::Own(address), place.step),
        Task::Ifc => only_move(Next::Ifc, place.step),
    }
}

/// How many data bytes come in a row from this place: all that a write has left to put, or as many as a read may still get.
/// It is 0 where the next move is another, or there is none.
pub fn data_left(task: &Task, place: &Place) -> u32
    requires plain { IsPlainTask task.now }
    requires own { place.now.own ≤ ADDRESS_MAX }
    requires reached { IsReached task.now place.now }
    ensures { IsDataLeft task.now place.now result }
{
    match *task {
        Task::Write { t, len, end } => {
            puts_left(len, place.moved, next_of_write(t, len, end, place))
        }
        Task::Read { t, max, stop } => {
            gets_left(max, place.moved, next_of_read(t, max, stop, place))
        }
        _ => 0,
    }
}

/// A write: the gateway talks and the device listens, and then the data.
fn next_of_write(t: Target, len: u32, end: bool, place: &Place) -> Next
    requires plain { IsTargetPlain t }
    requires own { place.now.own ≤ ADDRESS_MAX }
    ensures { IsNextMove (Task.Write t len end) place.now result }
{
    let put = next_put(len, end, place.moved);
    match t {
        Target::Interface => put,
        Target::Device { p, s } => front_step(place, &[UNL, MTA + place.own], MLA + p, s).or(put),
    }
}

/// A read: the gateway listens and the device talks, and then the bytes. A read of no bytes makes no move at all.
fn next_of_read(t: Target, max: u32, stop: Option<u8>, place: &Place) -> Next
    requires plain { IsTargetPlain t }
    requires own { place.now.own ≤ ADDRESS_MAX }
    ensures { IsNextMove (Task.Read t max stop) place.now result }
{
    if max == 0 {
        return Next::Finished;
    }
    let get = next_get(max, stop, place);
    match t {
        Target::Interface => get,
        Target::Device { p, s } => front_step(place, &[UNL, MLA + place.own], MTA + p, s).or(get),
    }
}

/// A serial poll: the gateway listens, and the device talks in serial poll mode.
fn next_of_poll(t: Target, place: &Place) -> Next
    requires plain { IsTargetPlain t }
    requires own { place.now.own ≤ ADDRESS_MAX }
    ensures { IsNextMove (Task.Stb t) place.now result }
{
    match t {
        Target::Interface => Next::Finished,
        Target::Device { p, s } => match front_step(
            place,
            &[UNL, MLA + place.own, SPE],
            MTA + p,
            s,
        ) {
            Step::Command(b) => Next::Command(b),
            Step::Behind(step) => poll_tail(place.moved, step),
        },
    }
}

/// A command to a device, which listens, or what the interface does in its place.
fn next_of_command(t: Target, device: u8, interface: Next, place: &Place) -> Next
    requires plain { IsTargetPlain t }
    ensures { (other : Transfer) → IsMoveAt (other ∷ []) 0 interface → IsMoveAt (command_list t (Cmd device) other place.now.polling) place.now.step result }
{
    match t {
        Target::Interface => only_move(interface, place.step),
        Target::Device { p, s } => match front_step(place, &[UNL], MLA + p, s) {
            Step::Command(b) => Next::Command(b),
            Step::Behind(step) => only_move(Next::Command(device), step),
        },
    }
}

/// Remote enable, and the device listens.
fn next_of_remote(t: Target, place: &Place) -> Next
    requires plain { IsTargetPlain t }
    ensures { IsMoveAt (remote_list t place.now.polling) place.now.step result }
{
    match t {
        Target::Interface => only_move(Next::Ren(true), place.step),
        Target::Device { p, s } => match poll_end_step(place) {
            Step::Command(b) => Next::Command(b),
            Step::Behind(0) => Next::Ren(true),
            Step::Behind(1) => Next::Command(UNL),
            Step::Behind(step) => address_step(MLA + p, s, step - 2).or(Next::Finished),
        },
    }
}

/// Command bytes, as they were given.
fn next_of_commands(len: u32, place: &Place) -> Next
    ensures { IsNextMove (Task.Commands len) place.now result }
{
    if place.moved < len {
        Next::CommandByte
    } else {
        Next::Finished
    }
}

/// Control goes to the device at this primary address.
fn next_of_pass(p: u8, place: &Place) -> Next
    requires { p ≤ ADDRESS_MAX }
    ensures { IsMoveAt (unl ∷ mta p ∷ tct ∷ []) place.now.step result }
{
    match place.step {
        0 => Next::Command(UNL),
        1 => Next::Command(MTA + p),
        2 => Next::Command(TCT),
        _ => Next::Finished,
    }
}

/// Whether the gateway has the role that a job needs. Every job needs it to be the controller in charge, but for
/// interface clear, remote enable and bus status; a write on the interface needs it as talker too, and a read there as
/// listener.
pub fn needs(task: &Task, wire: &Wire) -> bool
    ensures { result ≡ has_role task.now wire.now }
{
    match *task {
        Task::Status { .. } | Task::Ren(_) | Task::Ifc => true,
        Task::Write {
            t: Target::Interface,
            ..
        } => wire.incharge && wire.is_talker(),
        Task::Read {
            t: Target::Interface,
            ..
        } => wire.incharge && wire.is_listener(),
        _ => wire.incharge,
    }
}
