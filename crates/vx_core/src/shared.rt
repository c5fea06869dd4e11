//! The gateway as its callers use it.
ghost use Rattle.std.specs.Prelude.{◌≡◌, ◌<◌, ◌≤◌, ◌↔◌, ◌==◌, max, [], ◌∷◌, true, false, None, Some, IsSome, is_some, IfOk, IfErr, OnOk, OnErr, IsErrOf, option_map, if◌then◌else◌};
ghost use Rattle.std.specs.List.{list_any, All};
ghost use Rattle.std.specs.Borrow.{sem};
ghost use Rattle.vx_calls.specs.Call.{call_shown};
ghost use Rattle.vx_calls.specs.Reply as reply;
ghost use Rattle.vx_calls.specs.declared.codes.ErrorCode.TheVariants as code;
ghost use Rattle.vx_calls.specs.declared.calls.Role.TheVariants as role;
ghost use Rattle.vx_488.specs.declared.transfers.TheConstants.{ADDRESS_MAX};
ghost use Rattle.vx_488.specs.Wire.{first_wire};
ghost use Rattle.vx_488.specs.Steps.{Told, Cut};
ghost use Rattle.vx_488.specs.Walks.{Walk};
ghost use Rattle.vx_rules.specs.SrqState.{channel_at};
ghost use Rattle.vx_srq.specs.Shown.{given_shown};
ghost use Rattle.vx_rules.specs.State.{connection_at, pending_at, role_at, is_idle, lives_as, has_room};
ghost use Rattle.vx_rules.specs.AtomicStep.{may_wait};
ghost use Rattle.vx_rules.specs.Calls.{IsShort};
ghost use Rattle.vx_rules.specs.Serving.{IsPlainLink};
ghost use Rattle.vx_flow.specs.Event.{Up, Down, Arrive, Answer, Abort, Sample, Take};
ghost use Rattle.vx_flow.specs.InterleavedState.{first_interleaved};
ghost use Rattle.vx_flow.specs.InterleavedStep.{interleaved_step};
ghost use Rattle.vx_flow.specs.Sound.{IsSound};
ghost use Rattle.vx_core.specs.Shown.{cut_means};

use crate::ended::{Ended, Settled};
use crate::kernel::{Kernel, Rooms};
use crate::order::poll;
use crate::polled::Polled;
use std::alloc::Global;
use std::marker::Model;
use vx_488::{Bus, Transfer, Tweak};
use vx_calls::{CallRef, ErrorCode, Role, Taken};
use vx_group::first_law;
use vx_state::{Connect, Tables};

/// Memory ran out as the core was to start; the bus comes back.
#[derive(Drop)]
pub struct StartRefused<B> {
    pub bus: B,
}

/// The state that all connections of a gateway share, and its bus. A contract sees it as a state between interleaved events,
/// with the bus beside it.
///
/// A moment is in milliseconds; one before the greatest handed in counts as that. Every call that changes the core cuts the
/// bus's list of transfers first. `start` and `connect` alone take memory.
#[derive(Drop)]
pub struct Core<B: Bus> {
    kernel: Kernel<B>,
}

impl<B: Bus> Model for Core<B> {
    ghost use Rattle.vx_core.specs.CoreState.{CoreState};
    ghost use Rattle.vx_core.specs.Shown.{core_of};
    ghost use Rattle.vx_core.specs.Keeping.{Keeps};

    ghost Value = { CoreState B };

    ghost view = { λ c. core_of B.means c.kernel };

    ghost invariant = { λ c. Keeps B.means c.kernel };
}

impl<B: Bus> Core<B> {
    ghost use Rattle.vx_core.specs.Lending.{PollFits, PollRests};
    ghost use Rattle.vx_core.specs.Standing.{Became};

    /// A gateway with nothing in it, on this bus, whose abort channel is at this TCP port (the port that create_link tells).
    pub fn start(alloc: Global, bus: B, abort_port: u16) -> Result<Core<B>, StartRefused<B>>
        requires wire { (B.means bus).wire ≡ first_wire }
        requires moves { (B.means bus).moves ≡ [] }
        requires port { 0 < abort_port }
        ensures interleaved { IfOk result (λ core. core.interleaved ≡ first_interleaved abort_port) }
        ensures bus { IfOk result (λ core. core.bus ≡ bus) }
        ensures began { IfOk result (λ core. core.began ≡ false) }
        ensures became { IfOk result (λ core. Became B.means B.through core core []) }
        ensures err { IfErr result (λ refused. refused.bus ≡ bus) }
    {
        first_law();
        let Ok(rooms) = Rooms::new(alloc) else {
            return Err(StartRefused { bus });
        };
        match Tables::new(alloc, abort_port) {
            Ok(tables) => Ok(Core {
                kernel: Kernel::new(bus, tables, rooms),
            }),
            Err(_) => Err(StartRefused { bus }),
        }
    }

    /// Takes a connection of this role, and gives its number: 1, 2, 3 and so on, none twice. A refusal changes nothing.
    pub fn connect(&mut self, alloc: Global, role: Role) -> Result<u32, Connect>
        ensures ok { IfOk result (λ conn. interleaved_step self.old.interleaved (Up conn role) ≡ Some self.new.interleaved) }
        ensures walk { OnOk result (Walk B.means B.through self.old.bus (Cut ∷ []) self.new.bus) }
        ensures began { self.new.began ≡ self.old.began }
        ensures full { IsErrOf result Connect.Full ↔ (has_room self.old.interleaved.state.tables role ≡ false) }
        ensures err { OnErr result (self.new ≡ self.old) }
    {
        let conn = self.kernel.tables.connect(alloc, role)?;
        self.kernel.cut();
        Ok(conn)
    }

    /// The role of a connection, where it lives.
    pub fn role(&self, conn: u32) -> Option<Role>
        ensures { result ≡ role_at self.now.interleaved.state.tables conn }
    {
        self.kernel.tables.role(conn)
    }

    /// Whether a call of this connection has no answer yet.
    pub fn pending(&self, conn: u32) -> bool
        ensures { result ≡ is_some (pending_at self.now.interleaved.state.tables conn) }
    {
        self.kernel.tables.pending(conn)
    }

    /// The number that comes next, up to 2^31, which is never given.
    pub fn next_number(&self) -> u32
        ensures { result ≡ self.now.interleaved.state.tables.next_connection }
    {
        self.kernel.tables.next_number()
    }

    /// The greatest moment that was handed in, in milliseconds; 0 before the first.
    pub fn moment(&self) -> u64
        ensures { result ≡ self.now.interleaved.state.moment }
    {
        self.kernel.moment
    }

    /// The connection goes, and with it its call, its links with their locks and enables, and its channel. Its turn is cut;
    /// the transfers that it made stay made.
    pub fn disconnect(&mut self, conn: u32)
        requires { IsSome (connection_at self.old.interleaved.state.tables conn) }
        ensures interleaved { interleaved_step self.old.interleaved (Down conn) ≡ Some self.new.interleaved }
        ensures walk { Walk B.means B.through self.old.bus (Cut ∷ []) self.new.bus }
        ensures began { self.new.began ≡ self.old.began }
    {
        self.kernel.cut();
        self.kernel.disconnect(conn);
    }

    /// Keeps a call that came on a connection, to be answered by `poll`.
    pub fn arrive(&mut self, conn: u32, call: &CallRef<'_>, now: u64)
        requires idle { is_idle self.old.interleaved.state.tables conn ≡ true }
        requires waits { may_wait (call_shown call.now) ≡ true }
        requires short { IsShort (call_shown call.now) }
        ensures interleaved { interleaved_step self.old.interleaved (Arrive conn (call_shown call.now) (max self.old.interleaved.state.moment now)) ≡ Some self.new.interleaved }
        ensures walk { Walk B.means B.through self.old.bus (Cut ∷ Told (max self.old.interleaved.state.moment now) ∷ []) self.new.bus }
        ensures began { self.new.began ≡ self.old.began }
    {
        self.kernel.hear(now);
        let moment = self.kernel.moment;
        self.kernel.tables.arrive(conn, call, moment);
    }

    /// Answers the call of a connection by the first line of the order of answers that holds, goes on with its turn on the
    /// bus, or says why there is no answer yet. The reply is lent until the core is used again.
    pub fn poll<'a>(&'a mut self, conn: u32, now: u64) -> Polled<'a>
        requires { IsSome (pending_at self.old.interleaved.state.tables conn) }
        ensures fits { PollFits result }
        ensures* after { sem 𝓛 (PollRests B.row B.Bus self.entry conn now result) }
    {
        match poll(&mut self.kernel, conn, now) {
            Ended::Answered { given, .. } => Polled::Answer(given.lend(self.kernel.room())),
            Ended::Waited(why) => Polled::NotYet(why),
            Ended::Dialed { host, port } => Polled::Dial { host, port },
        }
    }

    /// Whether the last poll began its call's turn on the bus; false before the first. No other call changes it.
    pub fn began(&self) -> bool
        ensures { result ≡ self.now.began }
    {
        self.kernel.began
    }

    /// Whether the last poll of the connection's pending call asked for a dial.
    pub fn dialing(&self, conn: u32) -> bool
        ensures { result ≡ list_any (λ n. n == conn) self.now.interleaved.dialed }
    {
        self.kernel.dialed.contains(&conn)
    }

    /// Answers a create_intr_chan whose dial was made: with the channel where it came up, and else with NoChannel.
    pub fn settle(&mut self, conn: u32, up: bool, now: u64) -> Settled
        requires { list_any (λ n. n == conn) self.old.interleaved.dialed ≡ true }
        ensures interleaved { interleaved_step self.old.interleaved (Answer conn (max self.old.interleaved.state.moment now) false (Some up) false (reply.Error result.error)) ≡ Some self.new.interleaved }
        ensures error { result.error ≡ (if up then code.Ok else code.NoChannel) }
        ensures chan { result.chan ≡ (if up then option_map (λ c. c.number) (channel_at self.new.interleaved.state.tables.srq_state conn) else None) }
        ensures walk { Walk B.means B.through self.old.bus (Cut ∷ Told (max self.old.interleaved.state.moment now) ∷ []) self.new.bus }
        ensures began { self.new.began ≡ self.old.began }
    {
        self.kernel.hear(now);
        self.kernel.settle(conn, up)
    }

    /// Marks each pending call that names this link, where it lives (VXI-11, device_abort): `Ok`, or `InvalidLink` where no
    /// link of this number lives.
    pub fn abort(&mut self, conn: u32, lid: u32) -> ErrorCode
        requires { lives_as self.old.interleaved.state.tables conn role.Abort ≡ true }
        ensures interleaved { interleaved_step self.old.interleaved (Abort conn lid result) ≡ Some self.new.interleaved }
        ensures walk { Walk B.means B.through self.old.bus (Cut ∷ []) self.new.bus }
        ensures began { self.new.began ≡ self.old.began }
    {
        let _ = conn;
        self.kernel.cut();
        self.kernel.tables.abort(lid)
    }

    /// A sample of the SRQ line: at a rise each enabled link gets an interrupt.
    pub fn sample(&mut self, now: u64)
        ensures interleaved { interleaved_step self.old.interleaved (Sample (max self.old.interleaved.state.moment now) (B.srq_level self.new.bus)) ≡ Some self.new.interleaved }
        ensures walk { Walk B.means B.through self.old.bus (Cut ∷ Told (max self.old.interleaved.state.moment now) ∷ []) self.new.bus }
        ensures began { self.new.began ≡ self.old.began }
    {
        self.kernel.hear(now);
        let level = self.kernel.bus.srq();
        self.kernel.tables.sample(level);
    }

    /// The level of the SRQ line at the last sample; false before the first.
    pub fn level(&self) -> bool
        ensures { result ≡ self.now.interleaved.state.tables.srq_state.level }
    {
        self.kernel.tables.level()
    }

    /// The number of the connection's interrupt channel, where it has one.
    pub fn channel(&self, conn: u32) -> Option<u32>
        ensures { result ≡ option_map (λ c. c.number) (channel_at self.now.interleaved.state.tables.srq_state conn) }
    {
        self.kernel.tables.channel(conn)
    }

    /// Takes the front of the outbox of the connection's channel of this number, as the interrupt call to make: `Gone` where
    /// it isn't the connection's channel, and `Empty` where its outbox is.
    pub fn take_interrupt(&mut self, conn: u32, chan: u32) -> Taken
        requires { IsSome (connection_at self.old.interleaved.state.tables conn) }
        ensures interleaved { interleaved_step self.old.interleaved (Take conn chan (given_shown result)) ≡ Some self.new.interleaved }
        ensures walk { Walk B.means B.through self.old.bus (Cut ∷ []) self.new.bus }
        ensures began { self.new.began ≡ self.old.began }
    {
        self.kernel.cut();
        self.kernel.tables.take(conn, chan)
    }

    /// Changes what hangs on the bus.
    pub fn tweak<A: Tweak<B>>(&mut self, act: &mut A) -> A::Answer
        ensures interleaved { self.new.interleaved ≡ self.old.interleaved }
        ensures changes { (cut : B) × Walk B.means B.through self.old.bus (Cut ∷ []) cut × A.changes act.old cut result act.new self.new.bus }
        ensures means { B.means self.new.bus ≡ cut_means (B.means self.old.bus) }
        ensures began { self.new.began ≡ self.old.began }
    {
        self.kernel.cut();
        act.apply(&mut self.kernel.bus)
    }

    /// The transfers of the last call that changed the core, in order.
    pub fn moves(&self) -> &[Transfer]
        ensures { result.now ≡ (B.means self.now.bus).moves }
    {
        self.kernel.bus.moves()
    }

    /// What holds of every core: its state's bus is the bus's, and the turn under way, where there is one, keeps to its plan;
    /// the addresses of links, and the own one as the turn began, are at most 30. It does nothing when it runs.
    pub fn sound_law(&self)
        ensures wire { self.now.interleaved.state.wire ≡ (B.means self.now.bus).wire }
        ensures sound { IsSound self.now.interleaved }
        ensures links { All IsPlainLink self.now.interleaved.state.tables.links.links }
        ensures own { self.now.interleaved.before.own ≤ ADDRESS_MAX }
    {
        self.kernel.tables.has_plain_links();
    }
}
