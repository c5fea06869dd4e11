//! The bus over memory, whose bytes, holds and faults a test chooses.

ghost use Rattle.std.specs.Prelude.{◌≡◌, ◌<◌, ◌≤◌, false, IfOk};
ghost use Rattle.vx_488.specs.declared.transfers.TheConstants.{ADDRESS_MAX};
ghost use Rattle.vx_488.specs.declared.transfers.Transfer.TheVariants.{Cmd, Put, Ifc, Own};
ghost use Rattle.vx_488.specs.Means.{first_means};
ghost use Rattle.vx_488.specs.Steps.{Went, Held, Failed, Told, Cut, move_step, get_step, line_transfer, IsStepped};
ghost use Rattle.vx_bus.specs.MemState.{next_move, byte_or_hold, next_get, gets_after, made, refused, after, Through};

use std::alloc::Global;
use std::marker::Model;
use vx_488::{ASK_MAX, Ask, Bus, GetOut, Line, Move, Transfer, Wire};

/// Memory was refused.
#[derive(Clone, Copy, Debug, PartialEq, Eq)]
pub struct NoMemory;

/// A bus that gives the bytes of a list, and of which chosen moving calls are held or fail: commands, puts, gets, lines,
/// interface clears and changes of the own address, counted together. Its SRQ and NDAC are false.
#[derive(Drop)]
pub struct MemBus {
    gets: Vec<(u8, bool)>,
    given: usize,
    hold_numbers: Vec<u64>,
    fail_numbers: Vec<u64>,
    calls: u64,
    wire: Wire,
    moves: Vec<Transfer>,
    asks: u32,
    holds: u64,
    faults: u64,
    refused: Option<Ask>,
}

impl Model for MemBus {
    ghost use Rattle.std.specs.Prelude.{◌≤◌, drop, vec_len, vec_capacity};
    ghost use Rattle.vx_488.specs.declared.asks.TheConstants.{ASK_MAX};
    ghost use Rattle.vx_bus.specs.MemState.{MemState};

    ghost Value = { MemState };

    ghost view = { λ s. record {
      means = record {
        wire = s.wire;
        moves = s.moves.items;
        asks = s.asks;
        holds = s.holds;
        faults = s.faults;
        refused = s.refused;
      };
      gets = drop s.given s.gets.items;
      holds = s.hold_numbers.items;
      fails = s.fail_numbers.items;
      calls = s.calls;
    } };

    ghost invariant = { λ s. (s.given ≤ vec_len s.gets) × (vec_len s.moves ≤ s.asks) × (ASK_MAX ≤ vec_capacity s.moves) };
}

impl MemBus {
    /// A bus that gives the bytes of `gets` in order, each with whether END stands on it, and holds a get when they are
    /// used up. The moving calls whose numbers, counted from 1 over the bus, stand in `fails` fail, and those of `holds`
    /// that don't fail are held. Its room is made here.
    pub fn new(
        alloc: Global,
        gets: Vec<(u8, bool)>,
        holds: Vec<u64>,
        fails: Vec<u64>,
    ) -> Result<MemBus, NoMemory>
        ensures means { IfOk result (λ bus. bus.means ≡ first_means) }
        ensures gets { IfOk result (λ bus. bus.gets ≡ gets.items) }
        ensures holds { IfOk result (λ bus. bus.holds ≡ holds.items) }
        ensures fails { IfOk result (λ bus. bus.fails ≡ fails.items) }
        ensures calls { IfOk result (λ bus. bus.calls ≡ 0) }
    {
        let Ok(moves) = Vec::with_capacity(alloc, ASK_MAX as usize) else {
            return Err(NoMemory);
        };
        Ok(MemBus {
            gets,
            given: 0,
            hold_numbers: holds,
            fail_numbers: fails,
            calls: 0,
            wire: Wire::first(),
            moves,
            asks: 0,
            holds: 0,
            faults: 0,
            refused: None,
        })
    }

    /// What the lists say of the next moving call.
    fn next_move(&self) -> Move
        ensures { result ≡ next_move self.now }
    {
        let number = self.calls.saturating_add(1);
        if self.fail_numbers.contains(&number) {
            Move::Failed
        } else if self.hold_numbers.contains(&number) {
            Move::Held
        } else {
            Move::Went
        }
    }

    /// What the next moving call answers where it is a get.
    fn next_get(&self) -> GetOut
        ensures { result ≡ next_get self.now }
    {
        match self.next_move() {
            Move::Went => self.byte_or_hold(),
            Move::Held => GetOut::Held,
            Move::Failed => GetOut::Failed,
        }
    }

    /// The next byte, or a hold where none is left.
    fn byte_or_hold(&self) -> GetOut
        ensures { result ≡ byte_or_hold self.now.gets }
    {
        match self.gets.get(self.given) {
            Some(&(b, end)) => GetOut::Byte { b, end },
            None => GetOut::Held,
        }
    }

    /// The transfer was made.
    fn made(&mut self, t: Transfer)
        requires { self.old.means.asks < ASK_MAX }
        ensures { self.new ≡ made self.old t }
    {
        self.calls = self.calls.saturating_add(1);
        self.asks += 1;
        self.moves.push_reserved(t);
        self.wire.apply(&t);
    }

    /// The ask didn't go, and is kept as the last that didn't.
    fn refused(&mut self, asked: Ask)
        requires { self.old.means.asks < ASK_MAX }
        ensures { self.new ≡ refused self.old asked }
    {
        self.calls = self.calls.saturating_add(1);
        self.asks += 1;
        self.refused = Some(asked);
    }

    /// The ask was held.
    fn held(&mut self, asked: Ask)
        requires { self.old.means.asks < ASK_MAX }
        ensures { self.new ≡ after self.old (Held asked) }
    {
        self.holds = self.holds.saturating_add(1);
        self.refused(asked);
    }

    /// The ask failed.
    fn failed(&mut self, asked: Ask)
        requires { self.old.means.asks < ASK_MAX }
        ensures { self.new ≡ after self.old (Failed asked) }
    {
        self.faults = self.faults.saturating_add(1);
        self.refused(asked);
    }

    /// Makes the transfer of the next moving call, which isn't a get, or keeps it as the ask that didn't go.
    fn send(&mut self, t: Transfer) -> Move
        requires room { self.old.means.asks < ASK_MAX }
        requires sent { gets_after self.old.gets t ≡ self.old.gets }
        ensures answer { result ≡ next_move self.old }
        ensures after { self.new ≡ after self.old (move_step t result) }
    {
        let answer = self.next_move();
        match answer {
            Move::Went => self.made(t),
            Move::Held => self.held(Ask::from(t)),
            Move::Failed => self.failed(Ask::from(t)),
        }
        answer
    }
}

impl Bus for MemBus {
    ghost use Rattle.std.specs.Prelude.{◌≡◌, ◌<◌, ◌≤◌, false};
    ghost use Rattle.vx_488.specs.declared.transfers.Transfer.TheVariants.{Cmd, Put, Ifc, Own};
    ghost use Rattle.vx_488.specs.Steps.{Told, Cut, move_step, get_step, line_transfer, IsStepped};
    ghost use Rattle.vx_bus.specs.MemState.{next_move, next_get, after, Through};

    ghost means = { λ s. s.means };

    ghost srq_level = { λ s. false };

    ghost ndac_level = { λ s. false };

    ghost through = { Through };

    /// Sends a command byte, unless the lists say that the call fails or is held.
    fn command(&mut self, b: u8) -> Move
        requires { self.old.means.asks < ASK_MAX }
        ensures answer { result ≡ next_move self.old }
        ensures after { self.new ≡ after self.old (move_step (Cmd b) result) }
        ensures stepped { IsStepped self.old.means (move_step (Cmd b) result) self.new.means }
        ensures through { Through self.old (move_step (Cmd b) result) self.new }
    {
        self.send(Transfer::Cmd(b))
    }

    /// Sends a data byte, unless the lists say that the call fails or is held.
    fn put(&mut self, b: u8, end: bool) -> Move
        requires { self.old.means.asks < ASK_MAX }
        ensures answer { result ≡ next_move self.old }
        ensures after { self.new ≡ after self.old (move_step (Put b end) result) }
        ensures stepped { IsStepped self.old.means (move_step (Put b end) result) self.new.means }
        ensures through { Through self.old (move_step (Put b end) result) self.new }
    {
        self.send(Transfer::Put { b, end })
    }

    /// Takes the next byte of the list, unless none is left, or the lists say that the call fails or is held.
    #[tactic(auto, using(crate::proofs::Gets::given_one))]
    fn get(&mut self) -> GetOut
        requires { self.old.means.asks < ASK_MAX }
        ensures answer { result ≡ next_get self.old }
        ensures after { self.new ≡ after self.old (get_step result) }
        ensures stepped { IsStepped self.old.means (get_step result) self.new.means }
        ensures through { Through self.old (get_step result) self.new }
    {
        let answer = self.next_get();
        match answer {
            GetOut::Byte { b, end } => {
                self.given += 1;
                self.made(Transfer::Got { b, end });
            }
            GetOut::Held => self.held(Ask::Get),
            GetOut::Failed => self.failed(Ask::Get),
        }
        answer
    }

    /// Switches a line on or off, unless the lists say that the call fails or is held.
    fn line(&mut self, l: Line, on: bool) -> Move
        requires { self.old.means.asks < ASK_MAX }
        ensures answer { result ≡ next_move self.old }
        ensures after { self.new ≡ after self.old (move_step (line_transfer l on) result) }
        ensures stepped { IsStepped self.old.means (move_step (line_transfer l on) result) self.new.means }
        ensures through { Through self.old (move_step (line_transfer l on) result) self.new }
    {
        match l {
            Line::Ren => self.send(Transfer::Ren(on)),
            Line::Atn => self.send(Transfer::Atn(on)),
        }
    }

    /// Sends interface clear, unless the lists say that the call fails or is held.
    fn ifc(&mut self) -> Move
        requires { self.old.means.asks < ASK_MAX }
        ensures answer { result ≡ next_move self.old }
        ensures after { self.new ≡ after self.old (move_step Ifc result) }
        ensures stepped { IsStepped self.old.means (move_step Ifc result) self.new.means }
        ensures through { Through self.old (move_step Ifc result) self.new }
    {
        self.send(Transfer::Ifc)
    }

    /// Makes this the gateway's own address, 0 to 30, unless the lists say that the call fails or is held.
    fn own(&mut self, address: u8) -> Move
        requires room { self.old.means.asks < ASK_MAX }
        requires address { address ≤ ADDRESS_MAX }
        ensures answer { result ≡ next_move self.old }
        ensures after { self.new ≡ after self.old (move_step (Own address) result) }
        ensures stepped { IsStepped self.old.means (move_step (Own address) result) self.new.means }
        ensures through { Through self.old (move_step (Own address) result) self.new }
    {
        self.send(Transfer::Own(address))
    }

    /// Nobody asks for service.
    fn srq(&self) -> bool
        ensures { result ≡ false }
    {
        false
    }

    /// Every listener can take a byte.
    fn ndac(&self) -> bool
        ensures { result ≡ false }
    {
        false
    }

    /// A moment changes nothing.
    fn moment(&mut self, now: u64)
        ensures after { self.new ≡ self.old }
        ensures stepped { self.new.means ≡ self.old.means }
        ensures through { Through self.old (Told now) self.new }
    {}

    /// Empties the list of transfers, and begins to count asks anew. The numbers of the calls go on.
    fn cut(&mut self)
        ensures after { self.new ≡ after self.old Cut }
        ensures stepped { IsStepped self.old.means Cut self.new.means }
        ensures through { Through self.old Cut self.new }
    {
        self.moves.clear();
        self.asks = 0;
    }

    /// The transfers since the last cut, in order.
    fn moves(&self) -> &[Transfer]
        ensures { result.now ≡ self.now.means.moves }
    {
        self.moves.as_slice()
    }

    /// What the transfers so far mean for the bus.
    fn wire(&self) -> Wire
        ensures { result ≡ self.now.means.wire }
    {
        self.wire
    }
}
