//! The player: the core over a simulated bus, and of each connection what comes in.
ghost use Rattle.std.specs.Prelude.{◌≡◌, ◌≢◌, ℕ, ◌≤◌, ◌<◌, ◌^◌, length, true, false, option_map, position, None, Some, IfOk, IfErr, IfSome, IfNone, IsSome, is_some, OnOk, map, []};
ghost use Rattle.std.specs.Str.{bytes_eq};
ghost use Rattle.vx_calls.specs.declared.calls.Role.TheVariants as role;
ghost use Rattle.vx_calls.specs.declared.limits.TheConstants.{RECORD_MAX};
ghost use Rattle.vx_script.specs.Command.{Command, Up, In, Down, At, Poll, Sample, Take, Dial, Inst, Plug, Pull, Set, Fail, step_shown};
ghost use Rattle.vx_script.specs.Plain.{IsPlainStep, IsAddress};
ghost use Rattle.vx_script.specs.Words.{is_name};
ghost use Rattle.vx_rules.specs.State.{role_at, lives_as, pending_at};
ghost use Rattle.vx_exchange.specs.declared.record.TheConstants.{REPLY_ROOM};
ghost use Rattle.vx_player.specs.declared.pieces.Incoming.{Incoming};
ghost use Rattle.vx_player.specs.declared.note.Intake.TheVariants as intake;
ghost use Rattle.vx_player.specs.declared.note.Note.TheVariants as note;
ghost use Rattle.vx_player.specs.Gateway.{gateway_of};
ghost use Rattle.vx_player.specs.Stage.{Stage, beginning};
ghost use Rattle.vx_setup.specs.Rack.{SpareShown};
ghost use Rattle.vx_setup.specs.Refusing.{cause_of};
ghost use Rattle.vx_player.specs.PlayerState.{PlayerState, incoming_at};
ghost use Rattle.vx_sim.specs.Occupants.{handed_in};
ghost use Rattle.vx_setup.specs.Spares.{spare_shown};
ghost use Rattle.vx_player.specs.Standing.{IsPlayerReady, PlayerStands, HasLineRoom, TakesTo};
ghost use Rattle.vx_player.specs.Wanting.{StopsFor};

use crate::bench;
use crate::message::Message;
use crate::note::{Gone, Intake, Note, StepMade};
use crate::pieces::{Incoming, begin, end, feed_piece};
use crate::serve::poll_call;
use std::alloc::{AllocError, Global};
use std::collections::BTreeMap;
use std::marker::Model;
use vx_488::{Addr, Transfer};
use vx_calls::{Role, Taken};
use vx_core::{Connect, Core};
use vx_exchange::{REPLY_ROOM, put_srq_record, settle};
use vx_inst::Instrument;
use vx_rack::Spare;
use vx_script::{Cause, Step};
use vx_setup::{Refusal, refused_for, spare_place, table_of};
use vx_sim::SimBus;
use vx_text::zeros;

/// The port of the abort channel that a played gateway tells.
pub const ABORT_PORT: u16 = 9011;

/// Plays steps, one after the other.
#[derive(Drop)]
pub struct Player<I: Instrument> {
    core: Core<SimBus<I>>,
    incoming: BTreeMap<u32, Incoming>,
    reply: Vec<u8>,
    message: Message,
    rack: Vec<Spare<I>>,
    // milliseconds
    moment: u64,
}

impl<I: Instrument> Model for Player<I> {
    ghost use Rattle.std.specs.Prelude.{◌≡◌, length, map};
    ghost use Rattle.vx_exchange.specs.declared.record.TheConstants.{REPLY_ROOM};
    ghost use Rattle.vx_player.specs.PlayerState.{PlayerState};
    ghost use Rattle.vx_sim.specs.Occupants.{handed_in};
    ghost use Rattle.vx_setup.specs.Spares.{spare_shown};

    ghost Value = { PlayerState };

    ghost view = { λ p. record {
      core = p.core;
      incoming = p.incoming.entries;
      reply = p.reply.items;
      message = p.message;
      rack = map (spare_shown (handed_in (λ i. I.behaves i) (λ i. I.nature i))) p.rack.items;
      moment = p.moment;
    } };

    ghost invariant = { λ p. length p.reply.items ≡ REPLY_ROOM };
}

impl<I: Instrument> Player<I> {
    /// A player of a gateway with nothing in it, over a bus with nothing on it, and with these spare instruments.
    pub fn new(alloc: Global, rack: Vec<Spare<I>>) -> Result<Player<I>, AllocError>
        ensures { IfOk result (λ p. PlayerStands p (beginning (map (spare_shown (handed_in (λ i. I.behaves i) (λ i. I.nature i))) rack.items))) }
    {
        let Ok(reply) = zeros(alloc, REPLY_ROOM) else {
            return Err(AllocError);
        };
        let message = Message::new(alloc)?;
        let Ok(bus) = SimBus::new(alloc) else {
            return Err(AllocError);
        };
        let Ok(core) = Core::start(alloc, bus, ABORT_PORT) else {
            return Err(AllocError);
        };
        Ok(Player {
            core,
            incoming: BTreeMap::new(alloc),
            reply,
            message,
            rack,
            moment: 0,
        })
    }

    /// The transfers of the last step that reached the core, in order.
    pub fn moves(&self) -> &[Transfer]
        ensures { result.now ≡ self.now.core.bus.means.moves }
    {
        self.core.moves()
    }

    /// Whether a call of the connection isn't answered yet.
    pub fn is_pending(&self, conn: u32) -> bool
        ensures { result ≡ is_some (pending_at self.now.core.interleaved.state.tables conn) }
    {
        self.core.pending(conn)
    }

    /// The room, with the record of the last reply or interrupt call at its front.
    pub fn room(&self) -> &[u8]
        ensures value { result.now ≡ self.now.reply }
        ensures len { length result.now ≡ REPLY_ROOM }
    {
        self.reply.as_slice()
    }

    /// The message of the last whole record.
    pub fn message(&self) -> &[u8]
        ensures value { result.now ≡ self.now.message }
        ensures len { length result.now ≤ RECORD_MAX }
    {
        self.message.as_slice()
    }

    /// Whether the last poll of a call began its turn.
    pub fn began(&self) -> bool
        ensures { result ≡ self.now.core.began }
    {
        self.core.began()
    }

    /// The moment of the next steps, in milliseconds.
    pub fn moment(&self) -> u64
        ensures { result ≡ self.now.moment }
    {
        self.moment
    }

    /// Takes a step, and tells what it made; or says why it isn't taken.
    pub fn step(&mut self, alloc: Global, step: &Step<'_>) -> Result<StepMade, Refusal>
        requires plain { IsPlainStep step.now }
        requires ready { IsPlayerReady self.old }
        ensures taken { IfOk result (λ made. (stage : Stage) → PlayerStands self.old stage → TakesTo stage (step_shown step.now) made self.new) }
        ensures stopped { IfErr result (λ stop. (stage : Stage) → PlayerStands self.old stage → StopsFor stage (step_shown step.now) stop) }
        ensures printable { IfOk result (HasLineRoom self.new) }
    {
        match *step {
            Step::Up { conn, role } => self.up(alloc, conn, role),
            Step::In { conn, bytes } => self.piece(conn, bytes),
            Step::Down { conn } => self.down(conn),
            Step::At(moment) => Ok(self.at(moment)),
            Step::Poll { conn } => self.poll(conn),
            Step::Sample => Ok(self.sample()),
            Step::Take { conn } => self.take(conn),
            Step::Dial { conn, up } => self.dial(conn, up),
            Step::Inst { p, s, text } => self.inst(alloc, p, s, text),
            Step::Plug { p, s, name } => self.plug(p, s, name),
            Step::Pull { p, s } => self.pull(p, s),
            Step::Set { p, s, b } => self.set(p, s, b),
            Step::Fail(n) => Ok(self.fail(n)),
        }
    }
}

// The streams of connections.
impl<I: Instrument> Player<I> {
    /// A connection comes up.
    fn up(&mut self, alloc: Global, conn: u32, role: Role) -> Result<StepMade, Refusal>
        requires ready { IsPlayerReady self.old }
        ensures taken { IfOk result (λ made. (stage : Stage) → PlayerStands self.old stage → TakesTo stage (Up conn role) made self.new) }
        ensures stopped { IfErr result (λ stop. (stage : Stage) → PlayerStands self.old stage → StopsFor stage (Up conn role) stop) }
        ensures printable { IfOk result (HasLineRoom self.new) }
    {
        if conn != self.core.next_number() {
            return Err(Refusal::Refused(Cause::Number));
        }
        match self.core.connect(alloc, role) {
            Ok(_) => {}
            Err(Connect::Full) => return Err(Refusal::Refused(Cause::Full)),
            Err(Connect::NoMemory) => return Err(Refusal::NoMemory),
        }
        begin(alloc, &mut self.incoming, conn)?;
        Ok(StepMade::QUIET.of_intake(Intake::Up { conn, role }))
    }

    /// A connection goes down.
    fn down(&mut self, conn: u32) -> Result<StepMade, Refusal>
        requires ready { IsPlayerReady self.old }
        ensures taken { IfOk result (λ made. (stage : Stage) → PlayerStands self.old stage → TakesTo stage (Down conn) made self.new) }
        ensures stopped { IfErr result (λ stop. (stage : Stage) → PlayerStands self.old stage → StopsFor stage (Down conn) stop) }
        ensures printable { IfOk result (HasLineRoom self.new) }
    {
        match self.core.role(conn) {
            None => Err(Refusal::Refused(Cause::Conn)),
            Some(_) => {
                end(&mut self.core, &mut self.incoming, conn);
                Ok(StepMade::of(Note::Ended {
                    conn,
                    how: Gone::Down,
                }))
            }
        }
    }

    /// A piece of a connection's stream comes.
    fn piece(&mut self, conn: u32, bytes: &[u8]) -> Result<StepMade, Refusal>
        requires bytes { 0 < length bytes.now }
        requires ready { IsPlayerReady self.old }
        ensures taken { IfOk result (λ made. (stage : Stage) → PlayerStands self.old stage → TakesTo stage (In conn bytes.now) made self.new) }
        ensures stopped { IfErr result (λ stop. (stage : Stage) → PlayerStands self.old stage → StopsFor stage (In conn bytes.now) stop) }
        ensures printable { IfOk result (HasLineRoom self.new) }
    {
        let Some(role) = self.core.role(conn) else {
            return Err(Refusal::Refused(Cause::Conn));
        };
        if self.core.pending(conn) {
            return Err(Refusal::Refused(Cause::Busy));
        }
        feed_piece(
            &mut self.core,
            &mut self.incoming,
            conn,
            role,
            bytes,
            self.moment,
            &mut self.message,
            &mut self.reply,
        )
    }
}

// The calls that wait, service requests, and moments.
impl<I: Instrument> Player<I> {
    /// Why a step of a core connection isn't taken, where it lives not as one.
    fn core_only(&self, conn: u32) -> Result<(), Refusal>
        ensures ok { OnOk result (lives_as self.now.core.interleaved.state.tables conn role.Core ≡ true) }
        ensures err { IfErr result (λ stop. (stop ≡ Refusal.Refused Cause.Conn) × (lives_as self.now.core.interleaved.state.tables conn role.Core ≡ false)) }
    {
        match self.core.role(conn) {
            Some(Role::Core) => Ok(()),
            _ => Err(Refusal::Refused(Cause::Conn)),
        }
    }

    /// The xid of the last call that a connection kept.
    fn xid(&self, conn: u32) -> u32
        ensures { IfSome (incoming_at self.now.incoming conn) (λ kept. result ≡ kept.xid) }
    {
        match self.incoming.get(&conn) {
            Some(kept) => kept.xid,
            None => 0,
        }
    }

    /// The moment of the next steps comes, where it is later.
    pub fn at(&mut self, moment: u64) -> StepMade
        requires ready { IsPlayerReady self.old }
        ensures taken { (stage : Stage) → PlayerStands self.old stage → TakesTo stage (At moment) result self.new }
        ensures printable { HasLineRoom self.new result }
        ensures quiet { result ≡ record { intake = intake.Nothing; polled = None; note = note.Nothing; answered = None } }
        ensures timely { self.new.moment < 2 ^ 64 }
        ensures ready { IsPlayerReady self.new }
    {
        self.moment = self.moment.max(moment);
        StepMade::QUIET
    }

    /// A connection's call is polled.
    fn poll(&mut self, conn: u32) -> Result<StepMade, Refusal>
        requires ready { IsPlayerReady self.old }
        ensures taken { IfOk result (λ made. (stage : Stage) → PlayerStands self.old stage → TakesTo stage (Poll conn) made self.new) }
        ensures stopped { IfErr result (λ stop. (stage : Stage) → PlayerStands self.old stage → StopsFor stage (Poll conn) stop) }
        ensures printable { IfOk result (HasLineRoom self.new) }
    {
        match self.core_only(conn) {
            Ok(()) => {}
            Err(stop) => return Err(stop),
        }
        if !self.is_pending(conn) {
            return Err(Refusal::Refused(Cause::Idle));
        }
        let xid = self.xid(conn);
        Ok(poll_call(&mut self.core, conn, xid, self.moment, &mut self.reply))
    }

    /// The SRQ line is looked at.
    fn sample(&mut self) -> StepMade
        requires ready { IsPlayerReady self.old }
        ensures taken { (stage : Stage) → PlayerStands self.old stage → TakesTo stage Sample result self.new }
        ensures printable { HasLineRoom self.new result }
    {
        self.core.sample(self.moment);
        StepMade::QUIET.of_intake(Intake::Sampled {
            level: self.core.level(),
        })
    }

    /// An interrupt is taken from a connection's channel.
    fn take(&mut self, conn: u32) -> Result<StepMade, Refusal>
        requires ready { IsPlayerReady self.old }
        ensures taken { IfOk result (λ made. (stage : Stage) → PlayerStands self.old stage → TakesTo stage (Take conn) made self.new) }
        ensures stopped { IfErr result (λ stop. (stage : Stage) → PlayerStands self.old stage → StopsFor stage (Take conn) stop) }
        ensures printable { IfOk result (HasLineRoom self.new) }
    {
        match self.core_only(conn) {
            Ok(()) => {}
            Err(stop) => return Err(stop),
        }
        let Some(chan) = self.core.channel(conn) else {
            return Ok(StepMade::of(Note::NoChannel { conn }));
        };
        match self.core.take_interrupt(conn, chan) {
            Taken::Srq(interrupt) => {
                let len = put_srq_record(&interrupt, &mut self.reply);
                Ok(StepMade::of(Note::Interrupt { conn, len }))
            }
            Taken::Empty => Ok(StepMade::of(Note::NoInterrupt { conn })),
            Taken::Gone => Ok(StepMade::of(Note::NoChannel { conn })),
        }
    }

    /// The dial that a connection's call asked for came up, or failed.
    fn dial(&mut self, conn: u32, up: bool) -> Result<StepMade, Refusal>
        requires ready { IsPlayerReady self.old }
        ensures taken { IfOk result (λ made. (stage : Stage) → PlayerStands self.old stage → TakesTo stage (Dial conn up) made self.new) }
        ensures stopped { IfErr result (λ stop. (stage : Stage) → PlayerStands self.old stage → StopsFor stage (Dial conn up) stop) }
        ensures printable { IfOk result (HasLineRoom self.new) }
    {
        match self.core_only(conn) {
            Ok(()) => {}
            Err(stop) => return Err(stop),
        }
        if !self.core.dialing(conn) {
            return Err(Refusal::Refused(Cause::Idle));
        }
        let xid = self.xid(conn);
        let answered = settle(&mut self.core, conn, xid, up, self.moment, &mut self.reply);
        Ok(StepMade {
            intake: Intake::Dialed { conn, up },
            polled: None,
            note: Note::Replied {
                conn,
                len: answered.len,
            },
            answered: Some(answered.error),
        })
    }
}

// What hangs on the bus.
impl<I: Instrument> Player<I> {
    /// A table instrument is made of a JSON text and attached.
    fn inst(
        &mut self,
        alloc: Global,
        p: u8,
        s: Option<u8>,
        text: &[u8],
    ) -> Result<StepMade, Refusal>
        requires address { IsAddress p s }
        requires ready { IsPlayerReady self.old }
        ensures taken { IfOk result (λ made. (stage : Stage) → PlayerStands self.old stage → TakesTo stage (Inst p s text.now) made self.new) }
        ensures stopped { IfErr result (λ stop. (stage : Stage) → PlayerStands self.old stage → StopsFor stage (Inst p s text.now) stop) }
        ensures printable { IfOk result (HasLineRoom self.new) }
    {
        let inst = table_of(alloc, text)?;
        let mut act = bench::AttachTable::new(Addr { p, s }, inst);
        match self.core.tweak(&mut act) {
            None => Ok(StepMade::QUIET),
            Some(why) => Err(refused_for(why)),
        }
    }

    /// The first spare instrument of a name is attached.
    fn plug(&mut self, p: u8, s: Option<u8>, name: &[u8]) -> Result<StepMade, Refusal>
        requires address { IsAddress p s }
        requires ready { IsPlayerReady self.old }
        ensures taken { IfOk result (λ made. (stage : Stage) → PlayerStands self.old stage → TakesTo stage (Plug p s name.now) made self.new) }
        ensures stopped { IfErr result (λ stop. (stage : Stage) → PlayerStands self.old stage → StopsFor stage (Plug p s name.now) stop) }
        ensures printable { IfOk result (HasLineRoom self.new) }
    {
        let Some(place) = spare_place(&self.rack, name) else {
            return Err(Refusal::Refused(Cause::Spare));
        };
        let spare = self.rack.remove(place);
        let mut act = bench::AttachSpare::new(Addr { p, s }, spare.inst);
        match self.core.tweak(&mut act) {
            None => Ok(StepMade::QUIET),
            Some(why) => Err(refused_for(why)),
        }
    }

    /// An instrument is taken off the bus.
    fn pull(&mut self, p: u8, s: Option<u8>) -> Result<StepMade, Refusal>
        requires address { IsAddress p s }
        requires ready { IsPlayerReady self.old }
        ensures taken { IfOk result (λ made. (stage : Stage) → PlayerStands self.old stage → TakesTo stage (Pull p s) made self.new) }
        ensures stopped { IfErr result (λ stop. (stage : Stage) → PlayerStands self.old stage → StopsFor stage (Pull p s) stop) }
        ensures printable { IfOk result (HasLineRoom self.new) }
    {
        if self.core.tweak(&mut bench::Pull::new(Addr { p, s })) {
            Ok(StepMade::QUIET)
        } else {
            Err(Refusal::Refused(Cause::Absent))
        }
    }

    /// An instrument gets a status byte.
    fn set(&mut self, p: u8, s: Option<u8>, b: u8) -> Result<StepMade, Refusal>
        requires ready { IsPlayerReady self.old }
        ensures taken { IfOk result (λ made. (stage : Stage) → PlayerStands self.old stage → TakesTo stage (Set p s b) made self.new) }
        ensures stopped { IfErr result (λ stop. (stage : Stage) → PlayerStands self.old stage → StopsFor stage (Set p s b) stop) }
        ensures printable { IfOk result (HasLineRoom self.new) }
    {
        let at = Addr { p, s };
        if self.core.tweak(&mut bench::SetStatus { at, b }) {
            Ok(StepMade::QUIET)
        } else {
            Err(Refusal::Refused(Cause::Absent))
        }
    }

    /// The moving call of the bus of this number, counted from now, fails.
    fn fail(&mut self, n: u32) -> StepMade
        requires count { 1 ≤ n }
        requires ready { IsPlayerReady self.old }
        ensures taken { (stage : Stage) → PlayerStands self.old stage → TakesTo stage (Fail n) result self.new }
        ensures printable { HasLineRoom self.new result }
    {
        self.core.tweak(&mut bench::FailAfter::new(n));
        StepMade::QUIET
    }
}
