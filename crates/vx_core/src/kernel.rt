//! What the core keeps, and its small changes.
ghost use Rattle.std.specs.Prelude.{◌≡◌, ◌≤◌, max, false, None, Some, [], ◌∷◌, IsSome, is_some, length, vec_capacity};
ghost use Rattle.vx_calls.specs.declared.limits.TheConstants.{READ_MAX, ROLE_MAX};
ghost use Rattle.vx_plan.specs.declared.tasks.TheConstants.{TURN_MAX};
ghost use Rattle.vx_488.specs.Wire.{first_wire};
ghost use Rattle.vx_488.specs.Steps.{Told, Cut};
ghost use Rattle.vx_488.specs.Walks.{Walk};
ghost use Rattle.vx_rules.specs.State as state;
ghost use Rattle.vx_rules.specs.State.{Pending, pending_at};
ghost use Rattle.vx_rules.specs.Calls as calls;
ghost use Rattle.vx_rules.specs.Lines.{first_lines_in};
ghost use Rattle.vx_state.specs.Shown.{lines_shown};
ghost use Rattle.vx_core.specs.KernelState.{KernelState};
ghost use Rattle.vx_core.specs.Shown.{cut_means, busy_of, own_of, running_of, closed, left};

use crate::ended::Ended;
use crate::running::Running;
use std::alloc::{AllocError, Global};
use std::marker::Model;
use vx_488::{Bus, Transfer, Wire};
use vx_calls::{READ_MAX, ROLE_MAX};
use vx_plan::TURN_MAX;
use vx_state::{Admission, Tables};

/// The tables, the bus, and the turn under way. The room takes the bytes of a read, and of a reply.
#[derive(Drop)]
pub struct Kernel<B: Bus> {
    pub(crate) bus: B,
    pub(crate) tables: Tables,
    pub(crate) moment: u64,
    pub(crate) running: Option<Running>,
    /// The bus as the turn under way began.
    pub(crate) before: Wire,
    /// The transfers that it has made.
    pub(crate) made: Vec<Transfer>,
    pub(crate) room: Vec<u8>,
    /// The connections of whose calls a dial was asked for.
    pub(crate) dialed: Vec<u32>,
    pub(crate) last: Option<Ended>,
    /// Whether the last poll began its call's turn.
    pub(crate) began: bool,
}

impl<B: Bus> Model for Kernel<B> {
    ghost use Rattle.std.specs.Prelude.{◌≡◌, ◌≤◌, length, vec_capacity};
    ghost use Rattle.vx_plan.specs.declared.tasks.TheConstants.{TURN_MAX};
    ghost use Rattle.vx_calls.specs.declared.limits.TheConstants.{READ_MAX, ROLE_MAX};
    ghost use Rattle.vx_core.specs.KernelState.{KernelState};

    ghost Value = { KernelState B };

    ghost view = { λ k. record {
      bus = k.bus;
      tables = k.tables;
      moment = k.moment;
      running = k.running;
      before = k.before;
      made = k.made.items;
      room = k.room.items;
      dialed = k.dialed.items;
      last = k.last;
      began = k.began;
    } };

    ghost invariant = { λ k. (TURN_MAX ≤ vec_capacity k.made) × (length k.room.items ≡ READ_MAX) × (ROLE_MAX ≤ vec_capacity k.dialed) };
}

/// The room of a kernel, which is made once: for the transfers of a turn, the bytes of a read, and dials. What a reply to a
/// device_docmd has stands in the room of a read: `DOCMD_MAX` is no greater than `READ_MAX`.
#[derive(Drop)]
pub struct Rooms {
    made: Vec<Transfer>,
    room: Vec<u8>,
    dialed: Vec<u32>,
    ghost wide: { (TURN_MAX ≤ vec_capacity made) × (made.items ≡ []) },
    ghost long: { length room.items ≡ READ_MAX },
    ghost roomy: { (ROLE_MAX ≤ vec_capacity dialed) × (dialed.items ≡ []) },
}

impl Rooms {
    pub fn new(alloc: Global) -> Result<Rooms, AllocError> {
        Ok(Rooms {
            made: Vec::with_capacity(alloc, TURN_MAX as usize)?,
            room: vec![in alloc; 0; READ_MAX as usize]?,
            dialed: Vec::with_capacity(alloc, ROLE_MAX)?,
        })
    }
}

impl<B: Bus> Kernel<B> {
    /// A kernel with nothing in it, over tables with nothing in them.
    pub fn new(bus: B, tables: Tables, rooms: Rooms) -> Kernel<B>
        ensures { result ≡ record {
          bus = bus;
          tables = tables;
          moment = 0;
          running = None;
          before = first_wire;
          made = [];
          room = result.room;
          dialed = [];
          last = None;
          began = false;
        } }
    {
        Kernel {
            bus,
            tables,
            moment: 0,
            running: None,
            before: Wire::first(),
            made: rooms.made,
            room: rooms.room,
            dialed: rooms.dialed,
            last: None,
            began: false,
        }
    }

    /// The bus's list is empty from here on, its moment is this one or the greatest before, and the bus is told that.
    pub fn hear(&mut self, now: u64)
        ensures kept { self.new ≡ record self.old { bus = self.new.bus; moment = max self.old.moment now } }
        ensures means { B.means self.new.bus ≡ cut_means (B.means self.old.bus) }
        ensures walk { Walk B.means B.through self.old.bus (Cut ∷ Told (max self.old.moment now) ∷ []) self.new.bus }
    {
        self.bus.cut();
        self.moment = self.moment.max(now);
        self.bus.moment(self.moment);
    }

    /// The bus's list is empty from here on.
    pub fn cut(&mut self)
        ensures kept { self.new ≡ record self.old { bus = self.new.bus } }
        ensures means { B.means self.new.bus ≡ cut_means (B.means self.old.bus) }
        ensures walk { Walk B.means B.through self.old.bus (Cut ∷ []) self.new.bus }
    {
        self.bus.cut();
    }

    /// The own address of the bus that a connection's call is measured on: as its turn began, where that is under way, or
    /// as it is now.
    pub fn own_for(&self, conn: u32) -> u8
        ensures { result ≡ own_of B.means self.now conn }
    {
        match self.running {
            Some(running) if running.conn == conn => self.before.own,
            _ => self.bus.wire().own,
        }
    }

    /// The connection whose turn on the bus is under way, where one is.
    fn busy(&self) -> Option<u32>
        ensures { result ≡ busy_of self.now }
    {
        match self.running {
            Some(running) => Some(running.conn),
            None => None,
        }
    }

    /// The turn of a connection's call, where it is under way.
    pub fn own_turn(&self, conn: u32) -> Option<Running>
        ensures { result ≡ running_of self.now.running conn }
    {
        match self.running {
            Some(running) if running.conn == conn => Some(running),
            _ => None,
        }
    }

    /// The connection's call is over, and with it its turn and its dial.
    pub fn close(&mut self, conn: u32)
        ensures { self.new ≡ closed self.old conn }
    {
        self.tables.end_call(conn);
        self.leave(conn);
    }

    /// The connection's turn and its dial are over.
    pub fn leave(&mut self, conn: u32)
        ensures { self.new ≡ left self.old conn }
    {
        self.dialed.retain(|dialed| *dialed != conn);
        if self.own_turn(conn).is_some() {
            self.running = None;
        }
    }

    /// What the first lines of the order of answers say of a connection's call, on the bus that it is measured on.
    pub fn lines(&self, conn: u32) -> Admission
        requires { IsSome (pending_at self.now.tables conn) }
        ensures { (p : Pending) → pending_at self.now.tables conn ≡ Some p
            → lines_shown result ≡ first_lines_in self.now.tables (busy_of self.now) (own_of B.means self.now conn) conn false p self.now.moment }
    {
        self.tables
            .lines(conn, self.busy(), self.own_for(conn), false, self.moment)
    }

    /// Whether the pending call of a connection needs the bus.
    pub fn is_bus_call(&self, conn: u32) -> bool
        requires { IsSome (pending_at self.now.tables conn) }
        ensures { (p : Pending) → pending_at self.now.tables conn ≡ Some p → result ≡ calls.is_bus_call p.call }
    {
        self.tables.is_bus_call(conn)
    }

    /// Whether the pending call of a connection needs a dial.
    pub fn asks_dial(&self, conn: u32) -> bool
        requires { IsSome (pending_at self.now.tables conn) }
        ensures { (p : Pending) → pending_at self.now.tables conn ≡ Some p → result ≡ calls.asks_dial p.call }
    {
        self.tables.asks_dial(conn)
    }

    /// Whether a turn is under way.
    pub fn has_turn(&self) -> bool
        ensures { result ≡ is_some self.now.running }
    {
        self.running.is_some()
    }

    /// The connection goes, and with it its call, its links with their locks and enables, its channel, its turn and its dial.
    pub fn disconnect(&mut self, conn: u32)
        ensures { self.new ≡ record (left self.old conn) { tables = state.without_connection self.old.tables conn } }
    {
        self.tables.disconnect(conn);
        self.leave(conn);
    }

    /// Keeps how a poll ended, and whether it began its call's turn.
    pub fn note_end(&mut self, ended: Ended, began: bool)
        ensures { self.new ≡ record self.old { last = Some ended; began = began } }
    {
        self.last = Some(ended);
        self.began = began;
    }

    /// The room, with the bytes of the last reply at its front. It has as many as a read may get.
    pub fn room(&self) -> &[u8]
        ensures room { result.now ≡ self.now.room }
        ensures len { length result.now ≡ READ_MAX }
    {
        self.room.as_slice()
    }
}
