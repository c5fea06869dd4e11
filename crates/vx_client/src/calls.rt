//! The calls that are one exchange each.

ghost use Rattle.std.specs.Prelude.{◌≡◌, ◌≤◌, ◌<◌, length};
ghost use Rattle.vx_calls.specs.Call as call;
ghost use Rattle.vx_client.specs.Exchange.{IsCalled};
ghost use Rattle.vx_client.specs.Ending.{TellsEnd};
ghost use Rattle.vx_client.specs.Meaning.{made_of, stb_of, len_of, nothing_of, meaning};
ghost use Rattle.vx_client.specs.Calls.{generic, create, lock_call, command, channel, IsFilled};

use crate::answers::{CallOpts, ClientErr, LinkMade};
use crate::client::Client;
use arrayvec::ArrayVec;
use vx_calls::{CallRef, DEVICE_MAX, DOCMD_MAX, Generic, HANDLE_MAX, Handle};
use vx_io_traits::Link;

/// The parameters that five calls share.
fn generic_parms(lid: u32, opts: &CallOpts) -> Generic
    ensures { result ≡ generic lid opts.now }
{
    Generic {
        lid,
        flags: opts.flags,
        lock_timeout: opts.lock_timeout,
        io_timeout: opts.io_timeout,
    }
}

/// A handle of the same bytes.
fn copied(handle: &Handle) -> Handle
    ensures same { result.bytes.items ≡ handle.now.bytes.items }
    ensures fits { length result.bytes.items ≤ HANDLE_MAX }
{
    let mut bytes = ArrayVec::new();
    let _ = bytes.try_extend_from_slice(handle.bytes.as_slice());
    Handle { bytes }
}

impl<L: Link> Client<L> {
    /// create_link of this device text, of at most `DEVICE_MAX` bytes, with a lock where it is asked, for which the
    /// server may wait `lock_timeout` milliseconds. The client's identifier is sent as 0.
    ///
    /// A reply with error 0 and a maxRecvSize of 0 is a `BadReply`.
    pub fn create_link(
        &mut self,
        lock: bool,
        lock_timeout: u32,
        device: &[u8],
    ) -> Result<LinkMade, ClientErr>
        requires { length device.now ≤ DEVICE_MAX }
        ensures called { IsCalled L.stands L.left L.receive_faults L.send_faults self.old self.new (create lock lock_timeout device.now) 0 made_of result }
        ensures last { TellsEnd L.receives L.sends self.new.link result }
    {
        let call = CallRef::CreateLink {
            client: 0,
            lock,
            lock_timeout,
            device,
        };
        Ok(self.ask(&call, &mut [])?.made)
    }

    /// device_readstb: the status byte of a serial poll.
    pub fn readstb(&mut self, lid: u32, opts: &CallOpts) -> Result<u8, ClientErr>
        ensures called { IsCalled L.stands L.left L.receive_faults L.send_faults self.old self.new (call.ReadStb (generic lid opts.now)) 0 stb_of result }
        ensures last { TellsEnd L.receives L.sends self.new.link result }
    {
        let call = CallRef::ReadStb(generic_parms(lid, opts));
        Ok(self.ask(&call, &mut [])?.stb)
    }

    /// device_trigger.
    pub fn trigger(&mut self, lid: u32, opts: &CallOpts) -> Result<(), ClientErr>
        ensures called { IsCalled L.stands L.left L.receive_faults L.send_faults self.old self.new (call.Trigger (generic lid opts.now)) 0 nothing_of result }
        ensures last { TellsEnd L.receives L.sends self.new.link result }
    {
        self.order(&CallRef::Trigger(generic_parms(lid, opts)))
    }

    /// device_clear.
    pub fn clear(&mut self, lid: u32, opts: &CallOpts) -> Result<(), ClientErr>
        ensures called { IsCalled L.stands L.left L.receive_faults L.send_faults self.old self.new (call.Clear (generic lid opts.now)) 0 nothing_of result }
        ensures last { TellsEnd L.receives L.sends self.new.link result }
    {
        self.order(&CallRef::Clear(generic_parms(lid, opts)))
    }

    /// device_remote.
    pub fn remote(&mut self, lid: u32, opts: &CallOpts) -> Result<(), ClientErr>
        ensures called { IsCalled L.stands L.left L.receive_faults L.send_faults self.old self.new (call.Remote (generic lid opts.now)) 0 nothing_of result }
        ensures last { TellsEnd L.receives L.sends self.new.link result }
    {
        self.order(&CallRef::Remote(generic_parms(lid, opts)))
    }

    /// device_local.
    pub fn local(&mut self, lid: u32, opts: &CallOpts) -> Result<(), ClientErr>
        ensures called { IsCalled L.stands L.left L.receive_faults L.send_faults self.old self.new (call.Local (generic lid opts.now)) 0 nothing_of result }
        ensures last { TellsEnd L.receives L.sends self.new.link result }
    {
        self.order(&CallRef::Local(generic_parms(lid, opts)))
    }

    /// device_lock, with the flags and the lock_timeout of `opts`.
    pub fn lock(&mut self, lid: u32, opts: &CallOpts) -> Result<(), ClientErr>
        ensures called { IsCalled L.stands L.left L.receive_faults L.send_faults self.old self.new (lock_call lid opts.now) 0 nothing_of result }
        ensures last { TellsEnd L.receives L.sends self.new.link result }
    {
        self.order(&CallRef::Lock {
            lid,
            flags: opts.flags,
            lock_timeout: opts.lock_timeout,
        })
    }

    /// device_unlock.
    pub fn unlock(&mut self, lid: u32) -> Result<(), ClientErr>
        ensures called { IsCalled L.stands L.left L.receive_faults L.send_faults self.old self.new (call.Unlock lid) 0 nothing_of result }
        ensures last { TellsEnd L.receives L.sends self.new.link result }
    {
        self.order(&CallRef::Unlock { lid })
    }

    /// device_enable_srq: whether the link's interrupts are wanted, and the handle that they give back.
    pub fn enable_srq(&mut self, lid: u32, enable: bool, handle: &Handle) -> Result<(), ClientErr>
        ensures called { IsCalled L.stands L.left L.receive_faults L.send_faults self.old self.new (call.EnableSrq lid enable handle.now.bytes.items) 0 nothing_of result }
        ensures last { TellsEnd L.receives L.sends self.new.link result }
    {
        self.order(&CallRef::EnableSrq {
            lid,
            enable,
            handle: copied(handle),
        })
    }

    /// device_docmd with `bytes` as its data, of at most `DOCMD_MAX` bytes, in network order and with datasize 1. The
    /// data of the reply go to the front of `into`, and the answer is how many these are.
    ///
    /// `into` is at least as long as `bytes`, and at least 2. A reply with more bytes than `into` has is a `BadReply`.
    pub fn docmd(
        &mut self,
        lid: u32,
        opts: &CallOpts,
        cmd: u32,
        bytes: &[u8],
        into: &mut [u8],
    ) -> Result<usize, ClientErr>
        requires bytes { length bytes.now ≤ DOCMD_MAX }
        requires room { length bytes.now ≤ length into.old }
        requires two { 2 ≤ length into.old }
        ensures called { IsCalled L.stands L.left L.receive_faults L.send_faults self.old self.new (command lid opts.now cmd bytes.now) (length into.old) len_of result }
        ensures last { TellsEnd L.receives L.sends self.new.link result }
        ensures into { IsFilled (meaning self.old.next (command lid opts.now cmd bytes.now) (length into.old) self.new.last) into.old into.new result }
    {
        let call = CallRef::Docmd {
            lid,
            flags: opts.flags,
            io_timeout: opts.io_timeout,
            lock_timeout: opts.lock_timeout,
            cmd,
            big: true,
            size: 1,
            bytes,
        };
        Ok(self.ask(&call, into)?.len)
    }

    /// destroy_link.
    pub fn destroy_link(&mut self, lid: u32) -> Result<(), ClientErr>
        ensures called { IsCalled L.stands L.left L.receive_faults L.send_faults self.old self.new (call.DestroyLink lid) 0 nothing_of result }
        ensures last { TellsEnd L.receives L.sends self.new.link result }
    {
        self.order(&CallRef::DestroyLink { lid })
    }

    /// create_intr_chan: the server dials this IPv4 address and TCP port for its interrupts, as calls of this program
    /// and version. The family is sent as 0, TCP.
    pub fn create_intr_chan(
        &mut self,
        host: u32,
        port: u32,
        prog: u32,
        vers: u32,
    ) -> Result<(), ClientErr>
        ensures called { IsCalled L.stands L.left L.receive_faults L.send_faults self.old self.new (channel host port prog vers) 0 nothing_of result }
        ensures last { TellsEnd L.receives L.sends self.new.link result }
    {
        self.order(&CallRef::CreateIntr {
            host,
            port,
            prog,
            vers,
            family: 0,
        })
    }

    /// destroy_intr_chan.
    pub fn destroy_intr_chan(&mut self) -> Result<(), ClientErr>
        ensures called { IsCalled L.stands L.left L.receive_faults L.send_faults self.old self.new call.DestroyIntr 0 nothing_of result }
        ensures last { TellsEnd L.receives L.sends self.new.link result }
    {
        self.order(&CallRef::DestroyIntr)
    }
}
