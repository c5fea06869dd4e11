//! What an instrument is made of: what it took, what it has to give, and its status byte.

ghost use Rattle.std.specs.Prelude.{◌≡◌, ◌≤◌, ◌+◌, ◌++◌, true, length, map, IfOk};
ghost use Rattle.vx_inst.specs.declared.TheConstants.{INST_MAX};
ghost use Rattle.vx_inst.specs.Laws.{takes_byte, gives_byte, InstTakes, InstGives, status_byte, IsInstSound, with_status};
ghost use Rattle.std.specs.VecDeque.{deque_len, deque_capacity};
ghost use Rattle.vx_inst.specs.Reply.{unmarked, reply_appended};
ghost use Rattle.vx_inst.specs.Shared.{fresh, with_byte, without_message, replied, echoed, echo_after_take, after_give, after_poll, after_clear};
ghost use Rattle.vx_inst.specs.Marks.{shown};

use super::INST_MAX;
use std::alloc::{AllocError, Global};
use std::collections::VecDeque;
use std::marker::Model;

/// A byte to give, and whether END stands on it.
#[derive(Clone, Copy, Drop)]
pub(crate) struct Marked {
    pub(crate) byte: u8,
    pub(crate) end: bool,
}

/// What an instrument is made of, and what it does with it whatever its kind. It is seen as the view of an instrument that is
/// ready.
///
/// It takes memory only where it is made: room for [`INST_MAX`] bytes taken, and for as many to give.
#[derive(Drop)]
pub struct Body {
    inbox: Vec<u8>,
    out: VecDeque<Marked>,
    stb: u8,
    rqs: bool,
}

impl Model for Body {
    ghost use Rattle.vx_inst.specs.View.{View};

    ghost Value = { View };

    ghost use Rattle.std.specs.Prelude.{◌≤◌, true, map, vec_len, vec_capacity};
    ghost use Rattle.std.specs.VecDeque.{deque_len, deque_capacity};
    ghost use Rattle.vx_inst.specs.declared.TheConstants.{INST_MAX};
    ghost use Rattle.vx_inst.specs.Laws.{IsStatus};
    ghost use Rattle.vx_inst.specs.Marks.{shown};

    ghost view = { λ b. record {
      inbox = b.inbox.items;
      out = map shown b.out.items;
      stb = b.stb;
      rqs = b.rqs;
      ready = true;
    } };

    ghost invariant = { λ b. (vec_len b.inbox ≤ INST_MAX) × (INST_MAX ≤ vec_capacity b.inbox)
        × (deque_len b.out ≤ INST_MAX) × (INST_MAX ≤ deque_capacity b.out) × IsStatus b.stb };
}

impl Body {
    /// An empty one, with room for all that it may keep.
    pub fn new(alloc: Global) -> Result<Body, AllocError>
        ensures { IfOk result (λ body. body ≡ fresh) }
    {
        let inbox = Vec::with_capacity(alloc, INST_MAX)?;
        let out = VecDeque::with_capacity(alloc, INST_MAX)?;
        Ok(Body {
            inbox,
            out,
            stb: 0,
            rqs: false,
        })
    }

    /// Whether its inbox has room for a byte.
    pub fn can_take(&self) -> bool
        ensures can { result ≡ takes_byte self.now }
        ensures sound { IsInstSound self.now }
    {
        self.inbox.len() < INST_MAX
    }

    /// Whether it has a byte to give.
    pub fn can_give(&self) -> bool
        ensures can { result ≡ gives_byte self.now }
        ensures sound { IsInstSound self.now }
    {
        !self.out.is_empty()
    }

    /// Whether it asks for service.
    pub fn requests(&self) -> bool
        ensures asks { result ≡ self.now.rqs }
        ensures sound { IsInstSound self.now }
    {
        self.rqs
    }

    /// The bytes taken since the last message ended.
    pub fn message(&self) -> &[u8]
        ensures { result.now ≡ self.now.inbox }
    {
        self.inbox.as_slice()
    }

    /// Puts a byte into the inbox.
    pub fn keep(&mut self, b: u8)
        requires { takes_byte self.old ≡ true }
        ensures kept { self.new ≡ with_byte self.old b }
        ensures sound { IsInstSound self.new }
    {
        self.inbox.push_reserved(b);
    }

    /// Empties the inbox.
    pub fn forget(&mut self)
        ensures forgotten { self.new ≡ without_message self.old }
        ensures sound { IsInstSound self.new }
    {
        self.inbox.clear();
    }

    /// Appends a reply, where there is room for all of it.
    pub fn reply(&mut self, reply: &[u8])
        ensures replied { self.new ≡ replied self.old reply.now }
        ensures sound { IsInstSound self.new }
    {
        append(&mut self.out, reply);
    }

    /// Takes a byte. At END the message is the reply.
    pub fn take_echoing(&mut self, b: u8, end: bool)
        requires { takes_byte self.old ≡ true }
        ensures takes { self.new ≡ echo_after_take self.old b end }
        ensures longer { InstTakes self.old b end self.new }
        ensures sound { IsInstSound self.new }
    {
        self.keep(b);
        if end {
            self.echo();
        }
    }

    /// Ends the message, which is its own reply.
    #[inline(never)]
    fn echo(&mut self)
        ensures echoed { self.new ≡ echoed self.old }
        ensures sound { IsInstSound self.new }
    {
        append(&mut self.out, self.inbox.as_slice());
        self.inbox.clear();
    }

    /// Gives the next byte, and whether END stands on it.
    pub fn give(&mut self) -> (u8, bool)
        requires { gives_byte self.old ≡ true }
        ensures gives { InstGives self.old (record { value = result.0; end = result.1 }) self.new }
        ensures given { self.new ≡ after_give self.old }
        ensures sound { IsInstSound self.new }
    {
        match self.out.pop_front() {
            Some(marked) => (marked.byte, marked.end),
            None => (0, false),
        }
    }

    /// Gives its status byte for a serial poll, which ends its asking for service.
    pub fn poll(&mut self) -> u8
        ensures status { result ≡ status_byte self.old }
        ensures polled { self.new ≡ after_poll self.old }
        ensures sound { IsInstSound self.new }
    {
        let status = if self.rqs { self.stb + RQS } else { self.stb };
        self.rqs = false;
        status
    }

    /// Empties both lists.
    pub fn clear(&mut self)
        ensures cleared { self.new ≡ after_clear self.old }
        ensures sound { IsInstSound self.new }
    {
        self.inbox.clear();
        self.out.clear();
    }

    /// Sets its status byte; bit 6 says whether it asks for service.
    pub fn set_status(&mut self, b: u8)
        ensures set { self.new ≡ with_status self.old b }
        ensures sound { IsInstSound self.new }
    {
        self.rqs = b / RQS % 2 == 1;
        self.stb = b / (2 * RQS) * (2 * RQS) + b % RQS;
    }

    /// Changes nothing. A call that has nothing to do learns by it that its view is sound.
    pub fn stay(&self)
        ensures { IsInstSound self.now }
    {
        let _ = &self.stb;
    }
}

/// The bit of a status byte that asks for service, bit 6 (IEEE 488.1, 2.7).
const RQS: u8 = 64;

/// Appends a reply with END on its last byte, or nothing where that would bring what there is to give above its room.
fn append(out: &mut VecDeque<Marked>, reply: &[u8])
    requires room { INST_MAX ≤ deque_capacity out.old }
    requires within { deque_len out.old ≤ INST_MAX }
    ensures appended { map shown out.new.items ≡ reply_appended (map shown out.old.items) reply.now }
    ensures room { deque_capacity out.new ≡ deque_capacity out.old }
    ensures within { deque_len out.new ≤ INST_MAX }
{
    if reply.len() > INST_MAX - out.len() {
        return;
    }
    if let Some((last, front)) = reply.split_last() {
        append_unmarked(out, front);
        out.push_back_reserved(Marked {
            byte: *last,
            end: true,
        });
    }
}

/// Appends bytes without END.
fn append_unmarked(out: &mut VecDeque<Marked>, bytes: &[u8])
    requires { deque_len out.old + length bytes.now ≤ deque_capacity out.old }
    ensures appended { map shown out.new.items ≡ map shown out.old.items ++ map unmarked bytes.now }
    ensures len { deque_len out.new ≡ deque_len out.old + length bytes.now }
    ensures room { deque_capacity out.new ≡ deque_capacity out.old }
{
    for b in bytes {
        out.push_back_reserved(Marked {
            byte: *b,
            end: false,
        });
    }
}
