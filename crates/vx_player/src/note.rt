ghost use Rattle.std.specs.Prelude.{◌≡◌, None};
ghost use Rattle.vx_player.specs.declared.note.Intake.TheVariants as intake;
ghost use Rattle.vx_player.specs.Serving.{poll_made};

use vx_calls::{ErrorCode, Role};
use vx_core::Why;
use vx_exchange::PollEnd;

/// How a connection ended.
#[derive(Clone, Copy)]
pub enum Gone {
    /// By a `down` line.
    Down,
    /// By a record that is no call.
    Junk,
    /// By a record above the limit.
    Long,
}

/// What a step gave the gateway, which version 2 of the output tells. The message of a record is the last that the player keeps.
#[derive(Clone, Copy)]
pub enum Intake {
    Nothing,
    /// A connection came up.
    Up { conn: u32, role: Role },
    /// A whole record came on a connection.
    Message { conn: u32 },
    /// A dial was made, and came up or failed.
    Dialed { conn: u32, up: bool },
    /// The SRQ line was looked at.
    Sampled { level: bool },
}

/// What there is to tell of a step that was taken. A record is so many bytes at the front of the player's room.
#[derive(Clone, Copy)]
pub enum Note {
    Nothing,
    /// The record of a reply.
    Replied { conn: u32, len: usize },
    /// The connection's call isn't answered yet.
    Waiting { conn: u32, why: Why },
    /// A dial is asked for, by the connection's call.
    Dialing { conn: u32 },
    /// The record of an interrupt call that was taken.
    Interrupt { conn: u32, len: usize },
    /// No interrupt waits on the connection's channel.
    NoInterrupt { conn: u32 },
    /// The connection has no channel.
    NoChannel { conn: u32 },
    /// The connection ended.
    Ended { conn: u32, how: Gone },
}

/// What a step made: what it gave the gateway, the connection whose call was polled, where one was, what there is to tell, and the error of the answer,
/// `Ok` included, where the step answered a call that the gateway kept.
#[derive(Clone, Copy)]
pub struct StepMade {
    pub intake: Intake,
    pub polled: Option<u32>,
    pub note: Note,
    pub answered: Option<ErrorCode>,
}

impl StepMade {
    /// Nothing to tell.
    pub const QUIET: StepMade = StepMade {
        intake: Intake::Nothing,
        polled: None,
        note: Note::Nothing,
        answered: None,
    };

    /// No call was polled or answered, and this is to be told.
    pub fn of(note: Note) -> StepMade
        ensures { result ≡ record { intake = intake.Nothing; polled = None; note = note; answered = None } }
    {
        StepMade {
            intake: Intake::Nothing,
            polled: None,
            note,
            answered: None,
        }
    }

    /// The same, of a step that gave the gateway this.
    pub fn of_intake(self, intake: Intake) -> StepMade
        ensures { result ≡ record self { intake = intake } }
    {
        StepMade {
            intake,
            polled: self.polled,
            note: self.note,
            answered: self.answered,
        }
    }

    /// What a poll of the connection's call makes, that ended so.
    pub fn of_poll(conn: u32, end: PollEnd) -> StepMade
        ensures { result ≡ poll_made conn end }
    {
        match end {
            PollEnd::Replied { len, error } => StepMade {
                intake: Intake::Nothing,
                polled: Some(conn),
                note: Note::Replied { conn, len },
                answered: Some(error),
            },
            PollEnd::NotYet(why) => StepMade {
                intake: Intake::Nothing,
                polled: Some(conn),
                note: Note::Waiting { conn, why },
                answered: None,
            },
            PollEnd::Dial { .. } => StepMade {
                intake: Intake::Nothing,
                polled: Some(conn),
                note: Note::Dialing { conn },
                answered: None,
            },
        }
    }
}
