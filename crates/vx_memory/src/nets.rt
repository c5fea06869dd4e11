//! A port and a net over memory, whose links and faults a test chooses.

use std::collections::VecDeque;
use std::marker::Model;
use std::mem;
use vx_io_traits::{Accepted, Bound, DialOut, Link, Listen, Net};

/// A port that gives the links of a list, and has no faults.
#[derive(Drop)]
pub struct MemPort<L> {
    links: VecDeque<L>,
}

impl<L> Model for MemPort<L> {
    ghost use Rattle.std.specs.Prelude.{List};

    // The links that it has left to give.
    ghost Value = { List L };

    ghost view = { λ s. s.links.items };
}

impl<L: Link> Listen for MemPort<L> {
    ghost use Rattle.std.specs.Prelude.{◌≡◌, ◌≤◌, drop};
    ghost use Rattle.vx_io_traits.specs.Faults.{Rose};
    ghost use Rattle.vx_io_traits.specs.Accepts.{OnAcceptFailed};
    ghost use Rattle.vx_memory.specs.NetState.{next_link};

    type Peer = L;

    ghost faults = { λ _. 0 };

    /// Gives the list in its order, and then answers `Ended`. It never waits.
    fn accept(&mut self) -> Accepted<L>
        ensures answer { result ≡ next_link self.old }
        ensures after { self.new ≡ drop 1 self.old }
        ensures counted { 0 ≤ 0 }
        ensures failed { OnAcceptFailed result (Rose 0 0) }
    {
        match self.links.pop_front() {
            Some(link) => Accepted::Peer(link),
            None => Accepted::Ended,
        }
    }
}

/// A net of which its own port gives the links of one list and the first port that it binds those of another; chosen calls
/// fail.
#[derive(Drop)]
pub struct MemNet<L> {
    core: VecDeque<L>,
    abort: VecDeque<L>,
    fails: Vec<u64>,
    calls: u64,
    faults: u64,
    is_open: bool,
    given: u64,
    ended: u64,
}

impl<L> Model for MemNet<L> {
    ghost use Rattle.std.specs.Prelude.{◌+◌, ◌^◌, ◌<◌};
    ghost use Rattle.std.specs.VecDeque.{deque_len};
    ghost use Rattle.vx_memory.specs.NetState.{NetState};

    ghost Value = { NetState L };

    ghost view = { λ s. record {
      core = s.core.items;
      abort = s.abort.items;
      fails = s.fails.items;
      calls = s.calls;
      faults = s.faults;
      is_open = s.is_open;
      given = s.given;
      ended = s.ended;
    } };

    ghost invariant = { λ s. s.given + deque_len s.core < 2 ^ 64 };
}

impl<L> MemNet<L> {
    ghost use Rattle.std.specs.Prelude.{◌≡◌, ◌≤◌, true, false};
    ghost use Rattle.vx_io_traits.specs.Faults.{Rose, fails_next};
    ghost use Rattle.vx_memory.specs.NetState.{counted, after_fault};

    /// A net whose own port gives the links `core`; the first port that it binds gives the links `abort`, and each later
    /// one none. The calls whose numbers, counted from 1 over `open`, `accept` and `bind` together, stand in `fails`
    /// fail. The waits of a port that it bound aren't counted.
    pub fn new(core: Vec<L>, abort: Vec<L>, fails: Vec<u64>) -> MemNet<L>
        ensures core { result.core ≡ core.items }
        ensures abort { result.abort ≡ abort.items }
        ensures fails { result.fails ≡ fails.items }
        ensures calls { result.calls ≡ 0 }
        ensures faults { result.faults ≡ 0 }
        ensures is_open { result.is_open ≡ false }
        ensures given { result.given ≡ 0 }
        ensures ended { result.ended ≡ 0 }
    {
        MemNet {
            core: VecDeque::from(core),
            abort: VecDeque::from(abort),
            fails,
            calls: 0,
            faults: 0,
            is_open: false,
            given: 0,
            ended: 0,
        }
    }

    /// Counts a call, and a fault where it is one that fails, and tells whether it is.
    fn fails(&mut self) -> bool
        ensures answer { result ≡ fails_next self.old.fails self.old.calls }
        ensures failed { result ≡ true → self.new ≡ after_fault self.old }
        ensures passed { result ≡ false → self.new ≡ counted self.old }
        ensures counted { self.old.faults ≤ self.new.faults }
        ensures rose { result ≡ true → Rose self.old.faults self.new.faults }
    {
        self.calls = self.calls.saturating_add(1);
        let fails = self.fails.contains(&self.calls);
        if fails {
            self.faults = self.faults.saturating_add(1);
        }
        fails
    }
}

impl<L: Link> Net for MemNet<L> {
    ghost use Rattle.std.specs.Prelude.{◌≡◌, ◌≤◌, ◌||◌, true};
    ghost use Rattle.vx_io_traits.specs.Faults.{Rose};
    ghost use Rattle.vx_io_traits.specs.Rung.{OnDialFailed, is_up};
    ghost use Rattle.vx_io_traits.specs.Accepts.{OnAcceptFailed, OnBindFailed, given_after, ended_after};
    ghost use Rattle.vx_memory.specs.NetState.{open_answer, after_open, accept_answer, after_accept, bind_answer, after_bind};

    type Port = MemPort<L>;

    ghost is_open = { λ s. s.is_open };

    ghost faults = { λ s. s.faults };

    ghost given = { λ s. s.given };

    ghost ended = { λ s. s.ended };

    /// Answers `Up`, unless the call is one that fails.
    fn open(&mut self, _port: u16) -> DialOut
        // What it answers, and what the net is afterwards.
        ensures answer { result ≡ open_answer self.old }
        ensures after { self.new ≡ after_open self.old result }

        // What every net says.
        ensures counted { self.old.faults ≤ self.new.faults }
        ensures opened { self.new.is_open ≡ (is_up result || self.old.is_open) }
        ensures given { self.new.given ≡ self.old.given }
        ensures ended { self.new.ended ≡ self.old.ended }
        ensures failed { OnDialFailed result (Rose self.old.faults self.new.faults) }
    {
        if self.fails() {
            return DialOut::Failed;
        }
        self.is_open = true;
        DialOut::Up
    }

    /// Gives the list of its own port in its order, and then answers `Ended`, unless the call is one that fails.
    fn accept(&mut self) -> Accepted<L>
        requires { self.old.is_open ≡ true }

        // What it answers, and what the net is afterwards.
        ensures answer { result ≡ accept_answer self.old }
        ensures after { self.new ≡ after_accept self.old result }

        // What every net says.
        ensures counted { self.old.faults ≤ self.new.faults }
        ensures opened { self.new.is_open ≡ true }
        ensures given { self.new.given ≡ given_after result self.old.given }
        ensures ended { self.new.ended ≡ ended_after result self.old.ended }
        ensures failed { OnAcceptFailed result (Rose self.old.faults self.new.faults) }
    {
        if self.fails() {
            return Accepted::Failed;
        }
        match self.core.pop_front() {
            Some(link) => {
                self.given += 1;
                Accepted::Peer(link)
            }
            None => {
                self.ended = self.ended.saturating_add(1);
                Accepted::Ended
            }
        }
    }

    /// Gives a port with the links kept for it, the next time one with none, unless the call is one that fails.
    fn bind(&mut self, _port: u16) -> Bound<MemPort<L>>
        // What it answers, and what the net is afterwards.
        ensures answer { result ≡ bind_answer self.old }
        ensures after { self.new ≡ after_bind self.old result }

        // What every net says.
        ensures counted { self.old.faults ≤ self.new.faults }
        ensures opened { self.new.is_open ≡ self.old.is_open }
        ensures given { self.new.given ≡ self.old.given }
        ensures ended { self.new.ended ≡ self.old.ended }
        ensures failed { OnBindFailed result (Rose self.old.faults self.new.faults) }
    {
        if self.fails() {
            return Bound::Failed;
        }
        let empty = VecDeque::new(*self.abort.allocator());
        Bound::Port(MemPort {
            links: mem::replace(&mut self.abort, empty),
        })
    }
}
