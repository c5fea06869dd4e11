//! The trait of a bus.
ghost use Rattle.std.specs.Prelude.{◌≡◌, ◌<◌, ◌≤◌, ◌+◌, ◌↔◌, ℕ, Bool, length, take, drop};
ghost use Rattle.vx_488.specs.declared.transfers.TheConstants.{ADDRESS_MAX};
ghost use Rattle.vx_488.specs.declared.transfers.Transfer.TheVariants.{Cmd, Put, Ifc, Own};
ghost use Rattle.vx_488.specs.Means.{Means};
ghost use Rattle.vx_488.specs.Steps.{Step, Told, Cut, move_step, get_step, line_transfer, IsStepped};
ghost use Rattle.vx_488.specs.declared.asks.Move.TheVariants.{Went};
ghost use Rattle.vx_488.specs.Walks.{Walk};
ghost use Rattle.vx_488.specs.Bursts.{puts_steps, gets_steps, StopsAt};

use crate::asks::{ASK_MAX, GetOut, Move};
use crate::bursts::{Many, ManyGot, Stop};
use crate::transfers::{Line, Transfer};
use crate::wire::Wire;

/// A bus of which the gateway is a controller. It is asked for one transfer at a time, or for a burst of data bytes; a
/// transfer that it made is appended to its list and is part of its wire from then on.
pub trait Bus {
    // Its wire, the transfers and asks since the last cut, its counts of holds and faults, and the last ask that
    // didn't go.
    ghost means: { Self → Means };

    // The levels of the lines SRQ and NDAC.
    ghost srq_level: { Self → Bool };

    ghost ndac_level: { Self → Bool };

    // How it changes by one step: by an ask with what it answers, by a moment, or by a cut.
    ghost through: { Self → Step → Self → Type 0 };

    /// Sends a command byte (IEEE 488.1, 2.13).
    fn command(&mut self, b: u8) -> Move
        requires { (means self.old).asks < ASK_MAX }
        ensures stepped { IsStepped (means self.old) (move_step (Cmd b) result) (means self.new) }
        ensures through { through self.old (move_step (Cmd b) result) self.new };

    /// Sends a data byte to the listeners, with END on it or not.
    fn put(&mut self, b: u8, end: bool) -> Move
        requires { (means self.old).asks < ASK_MAX }
        ensures stepped { IsStepped (means self.old) (move_step (Put b end) result) (means self.new) }
        ensures through { through self.old (move_step (Put b end) result) self.new };

    /// Takes a byte from the talker: in serial poll mode its status byte.
    fn get(&mut self) -> GetOut
        requires { (means self.old).asks < ASK_MAX }
        ensures stepped { IsStepped (means self.old) (get_step result) (means self.new) }
        ensures through { through self.old (get_step result) self.new };

    /// Sends data bytes as puts, one after the other, until one doesn't go, with END on the last of them or not.
    fn put_many(&mut self, bytes: &[u8], end: bool) -> Many
        requires some { 0 < length bytes.now }
        requires asks { (means self.old).asks + length bytes.now ≤ ASK_MAX }
        ensures walk { Walk means through self.old (puts_steps bytes.now end result) self.new }
        ensures within { result.moved ≤ length bytes.now }
        ensures last { (result.last ≡ Went) ↔ (result.moved ≡ length bytes.now) }
    {
        let mut moved = 0;
        while moved < bytes.len() {
            match self.put(bytes[moved], end && moved + 1 == bytes.len()) {
                Move::Went => moved += 1,
                Move::Held => return Many {
                    moved,
                    last: Move::Held,
                },
                Move::Failed => return Many {
                    moved,
                    last: Move::Failed,
                },
            }
        }
        Many {
            moved,
            last: Move::Went,
        }
    }

    /// Takes bytes from the talker into a room by gets, one after the other: until a byte has END, or is the stop byte, or
    /// fills the room, or until one doesn't go. Of these it tells the first.
    fn get_many(&mut self, room: &mut [u8], stop: Option<u8>) -> ManyGot
        requires some { 0 < length room.old }
        requires asks { (means self.old).asks + length room.old ≤ ASK_MAX }
        ensures walk { Walk means through self.old (gets_steps (take result.got room.new) result.stop) self.new }
        ensures stops { StopsAt stop (length room.old) (take result.got room.new) result.stop }
        ensures within { result.got ≤ length room.old }
        ensures rest { drop result.got room.new ≡ drop result.got room.old }
    {
        let mut got = 0;
        while got < room.len() {
            match self.get() {
                GetOut::Held => return ManyGot {
                    got,
                    stop: Stop::Held,
                },
                GetOut::Failed => return ManyGot {
                    got,
                    stop: Stop::Failed,
                },
                GetOut::Byte { b, end } => {
                    room[got] = b;
                    got += 1;
                    if end {
                        return ManyGot {
                            got,
                            stop: Stop::End,
                        };
                    }
                    if stop == Some(b) {
                        return ManyGot {
                            got,
                            stop: Stop::Char,
                        };
                    }
                }
            }
        }
        ManyGot {
            got,
            stop: Stop::Full,
        }
    }

    /// Switches a line on or off.
    fn line(&mut self, l: Line, on: bool) -> Move
        requires { (means self.old).asks < ASK_MAX }
        ensures stepped { IsStepped (means self.old) (move_step (line_transfer l on) result) (means self.new) }
        ensures through { through self.old (move_step (line_transfer l on) result) self.new };

    /// Sends interface clear (IEEE 488.1, 2.12).
    fn ifc(&mut self) -> Move
        requires { (means self.old).asks < ASK_MAX }
        ensures stepped { IsStepped (means self.old) (move_step Ifc result) (means self.new) }
        ensures through { through self.old (move_step Ifc result) self.new };

    /// Makes this the gateway's own address, 0 to 30.
    fn own(&mut self, address: u8) -> Move
        requires room { (means self.old).asks < ASK_MAX }
        requires address { address ≤ ADDRESS_MAX }
        ensures stepped { IsStepped (means self.old) (move_step (Own address) result) (means self.new) }
        ensures through { through self.old (move_step (Own address) result) self.new };

    /// The level of the service-request line: whether somebody asks for service.
    fn srq(&self) -> bool
        ensures { result ≡ srq_level self.now };

    /// The level of the line NDAC: whether a listener can't take a byte.
    fn ndac(&self) -> bool
        ensures { result ≡ ndac_level self.now };

    /// Tells the bus a moment, in milliseconds.
    fn moment(&mut self, now: u64)
        ensures stepped { means self.new ≡ means self.old }
        ensures through { through self.old (Told now) self.new };

    /// Empties the list of transfers, and begins to count asks anew.
    fn cut(&mut self)
        ensures stepped { IsStepped (means self.old) Cut (means self.new) }
        ensures through { through self.old Cut self.new };

    /// The transfers since the last cut, in order.
    fn moves(&self) -> &[Transfer]
        ensures { result.now ≡ (means self.now).moves };

    /// What the transfers so far mean for the bus.
    fn wire(&self) -> Wire
        ensures { result ≡ (means self.now).wire };
}

/// A change of what hangs on a bus, as an instrument that is attached.
pub trait Tweak<B: Bus> {
    type Answer;

    // How it changes itself and the bus: old, bus, answer, new, bus.
    ghost changes: { Self → B → Self.Answer → Self → B → Type 0 };

    /// Makes the change. No transfer is made, and none is forgotten.
    fn apply(&mut self, bus: &mut B) -> Self::Answer
        ensures means { B.means bus.new ≡ B.means bus.old }
        ensures changes { changes self.old bus.old result self.new bus.new };
}
