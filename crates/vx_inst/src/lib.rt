//! What hangs on the bus: an instrument, as the bus sees it and as every one of them behaves, and the body that instruments
//! are made of.
#![tactic(auto)]

mod body;
mod boxed;
mod done;

ghost use Rattle.std.specs.Prelude.{◌≡◌, ◌<◌, ◌≤◌, ℕ, true, false, List, [], length, take, drop};
ghost use Rattle.vx_488.specs.declared.transfers.Transfer.TheVariants.{Put};
ghost use Rattle.vx_488.specs.Bursts.{ended, gets_steps, StopsAt};
ghost use Rattle.vx_488.specs.Steps.{Path};
ghost use Rattle.vx_inst.specs.declared.done.Done.TheVariants.{Took, Gave, Polled, Cleared, Triggered, ToLocal, StatusSet, Told};
ghost use Rattle.vx_inst.specs.Behavior.{Behavior, seen, after};
ghost use Rattle.vx_inst.specs.Laws.{takes_byte, gives_byte, IsInstSound, InstTakes, InstGives, status_byte, IsInstPolled, IsCleared, IsTriggered, IsInstTold, with_status};
ghost use Rattle.vx_inst.specs.Runs.{TakesRun, GivesNext};

pub use body::Body;
pub use done::Done;
use vx_488::{ManyGot, Stop};

/// The most bytes that an instrument keeps of a message, and the most that it has to give.
pub const INST_MAX: usize = 262144;

/// An instrument, seen as a view: the bytes that it took since its last message ended, the bytes that it has to give with
/// their END marks, its status byte, whether it asks for service, and whether it is ready.
///
/// It is known by its behavior: how it is seen after each list of calls. So each call says that it is just this one, once:
/// whatever comes later, the instrument is then seen as it would have been after this call and those.
///
/// Each call also says how the view changes, and that it is sound then: at most [`INST_MAX`] bytes taken, at most that many
/// to give, and bit 6 of the status byte zero. So one look at a boxed instrument tells it of the box. No call takes memory.
pub trait Instrument: Drop {
    // How it is seen from the bus after each list of calls.
    ghost behaves: { Self → Behavior };

    // What else it is, as numbers: its model, and what that keeps inside. Empty where it doesn't say.
    ghost nature: { Self → List ℕ } = { λ _. [] };

    /// Whether it can take a byte: it is ready, and its inbox has room.
    fn can_take(&self) -> bool
        ensures can { result ≡ takes_byte (seen (behaves self.now)) }
        ensures sound { IsInstSound (seen (behaves self.now)) };

    /// Takes a byte, with END on it or not. With END its message is whole, and it may have a reply to give.
    fn take(&mut self, b: u8, end: bool)
        requires { takes_byte (seen (behaves self.old)) ≡ true }
        ensures takes { InstTakes (seen (behaves self.old)) b end (seen (behaves self.new)) }
        ensures does { behaves self.new ≡ after (Took b end) (behaves self.old) }
        ensures sound { IsInstSound (seen (behaves self.new)) };

    /// Takes bytes, one after the other, until it can't take one or there is none left, with END on the last of all or not.
    /// Answers how many it took.
    fn take_many(&mut self, bytes: &[u8], end: bool) -> usize
        ensures takes { TakesRun (take result (ended Put end bytes.now)) (behaves self.old) (behaves self.new) }
        ensures within { result ≤ length bytes.now }
        ensures stops { result < length bytes.now → takes_byte (seen (behaves self.new)) ≡ false }
    {
        let mut taken = 0;
        while taken < bytes.len() {
            if !self.can_take() {
                return taken;
            }
            self.take(bytes[taken], end && taken + 1 == bytes.len());
            taken += 1;
        }
        taken
    }

    /// Whether it can give a byte: it is ready, and has one.
    fn can_give(&self) -> bool
        ensures can { result ≡ gives_byte (seen (behaves self.now)) }
        ensures sound { IsInstSound (seen (behaves self.now)) };

    /// Gives the next byte, and whether END stands on it.
    fn give(&mut self) -> (u8, bool)
        requires { gives_byte (seen (behaves self.old)) ≡ true }
        ensures gives { InstGives (seen (behaves self.old)) (record { value = result.0; end = result.1 }) (seen (behaves self.new)) }
        ensures does { behaves self.new ≡ after Gave (behaves self.old) }
        ensures sound { IsInstSound (seen (behaves self.new)) };

    /// Gives bytes, one after the other, into a room: until one has END, or is the stop byte, or fills the room, or until it has
    /// none to give. Of these it tells the first; that one failed it never tells.
    fn give_many(&mut self, room: &mut [u8], stop: Option<u8>) -> ManyGot
        ensures gives { Path GivesNext (behaves self.old) (gets_steps (take result.got room.new) result.stop) (behaves self.new) }
        ensures stops { StopsAt stop (length room.old) (take result.got room.new) result.stop }
        ensures within { result.got ≤ length room.old }
        ensures rest { drop result.got room.new ≡ drop result.got room.old }
        ensures goes { result.stop ≡ Stop.Failed → ⊥ }
    {
        let mut got = 0;
        while got < room.len() {
            if !self.can_give() {
                return ManyGot {
                    got,
                    stop: Stop::Held,
                };
            }
            let (b, end) = self.give();
            room[got] = b;
            got += 1;
            if end {
                return ManyGot {
                    got,
                    stop: Stop::End,
                };
            }
            if stop == Some(b) {
                return ManyGot {
                    got,
                    stop: Stop::Char,
                };
            }
        }
        ManyGot {
            got,
            stop: Stop::Full,
        }
    }

    /// Gives its status byte for a serial poll, with bit 6 where it asks for service, which ends its asking
    /// (IEEE 488.1, 2.7).
    fn poll(&mut self) -> u8
        ensures status { result ≡ status_byte (seen (behaves self.old)) }
        ensures polled { IsInstPolled (seen (behaves self.old)) (seen (behaves self.new)) }
        ensures does { behaves self.new ≡ after Polled (behaves self.old) }
        ensures sound { IsInstSound (seen (behaves self.new)) };

    /// Whether it asks for service.
    fn requests(&self) -> bool
        ensures asks { result ≡ (seen (behaves self.now)).rqs }
        ensures sound { IsInstSound (seen (behaves self.now)) };

    /// Forgets what it took and what it has to give (IEEE 488.1, 2.10, device clear).
    fn clear(&mut self)
        ensures cleared { IsCleared (seen (behaves self.old)) (seen (behaves self.new)) }
        ensures does { behaves self.new ≡ after Cleared (behaves self.old) }
        ensures sound { IsInstSound (seen (behaves self.new)) };

    /// Does what its trigger does (IEEE 488.1, 2.11).
    fn trigger(&mut self)
        ensures triggered { IsTriggered (seen (behaves self.old)) (seen (behaves self.new)) }
        ensures does { behaves self.new ≡ after Triggered (behaves self.old) }
        ensures sound { IsInstSound (seen (behaves self.new)) };

    /// Goes to local control (IEEE 488.1, 2.8).
    fn local(&mut self)
        ensures same { seen (behaves self.new) ≡ seen (behaves self.old) }
        ensures does { behaves self.new ≡ after ToLocal (behaves self.old) }
        ensures sound { IsInstSound (seen (behaves self.new)) };

    /// Sets its status byte; bit 6 says whether it asks for service.
    fn set_status(&mut self, b: u8)
        ensures set { seen (behaves self.new) ≡ with_status (seen (behaves self.old)) b }
        ensures does { behaves self.new ≡ after (StatusSet b) (behaves self.old) }
        ensures sound { IsInstSound (seen (behaves self.new)) };

    /// Tells it a moment, in milliseconds.
    fn moment(&mut self, now: u64)
        ensures told { IsInstTold (seen (behaves self.old)) (seen (behaves self.new)) }
        ensures does { behaves self.new ≡ after (Told now) (behaves self.old) }
        ensures sound { IsInstSound (seen (behaves self.new)) };
}
