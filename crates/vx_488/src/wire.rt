ghost use Rattle.std.specs.Prelude.{◌≡◌};
ghost use Rattle.vx_488.specs.Address.{primary};
ghost use Rattle.vx_488.specs.Command.{command_of};
ghost use Rattle.vx_488.specs.Wire.{first_wire, step, on_command, on_secondary, on_take_control, on_interface_clear, own_talks, own_listens};

use crate::commands::{Command, command_of};
use crate::listeners::Listeners;
use crate::transfers::{Addr, Transfer};

/// Which primary address a secondary one would belong to.
#[derive(Clone, Copy, PartialEq, Eq)]
pub enum Pending {
    Nothing,
    /// To the talker at this primary address.
    Talk(u8),
    /// To the listener at this primary address.
    Listen(u8),
}

/// What the transfers so far mean for the bus (IEEE 488.1, 2.5 to 2.13).
#[derive(Clone, Copy)]
pub struct Wire {
    pub talker: Option<Addr>,
    pub listeners: Listeners,
    pub pending: Pending,
    /// Remote enable is on.
    pub ren: bool,
    /// The gateway is the controller in charge.
    pub incharge: bool,
    /// The gateway's own bus address.
    pub own: u8,
    /// Serial poll mode is on.
    pub polling: bool,
}

impl Wire {
    /// The bus as the gateway finds it: no talker, no listener, REN off, the gateway in charge at address 0, and no
    /// serial poll mode.
    pub fn first() -> Wire
        ensures { result ≡ first_wire }
    {
        Wire {
            talker: None,
            listeners: Listeners::none(),
            pending: Pending::Nothing,
            ren: false,
            incharge: true,
            own: 0,
            polling: false,
        }
    }

    /// The bus after one more transfer.
    pub fn apply(&mut self, t: &Transfer)
        ensures { self.new ≡ step self.old t.now }
    {
        match *t {
            Transfer::Cmd(b) => self.command(command_of(b)),
            Transfer::Put { .. } | Transfer::Got { .. } | Transfer::Atn(_) => {}
            Transfer::Ren(on) => self.ren = on,
            Transfer::Ifc => self.clear_interface(),
            Transfer::Own(address) => self.own = address,
        }
    }

    /// What a command changes.
    fn command(&mut self, command: Command)
        ensures { self.new ≡ on_command self.old command }
    {
        match command {
            Command::NoMeaning => return,
            Command::Secondary(s) => return self.secondary(s),
            Command::Listen(p) => return self.listen(p),
            Command::Talk(p) => return self.talk(p),
            Command::Unlisten => self.listeners = Listeners::none(),
            Command::Untalk => self.talker = None,
            Command::PollEnable => self.polling = true,
            Command::PollDisable => self.polling = false,
            Command::TakeControl => self.take_control(),
            _ => {}
        }
        self.pending = Pending::Nothing;
    }

    /// The device at this primary address listens, and may be given a secondary address.
    fn listen(&mut self, p: u8)
        ensures { self.new ≡ on_command self.old (Command.Listen p) }
    {
        self.listeners.add(Addr { p, s: None });
        self.pending = Pending::Listen(p);
    }

    /// The device at this primary address talks, and may be given a secondary address.
    fn talk(&mut self, p: u8)
        ensures { self.new ≡ on_command self.old (Command.Talk p) }
    {
        self.talker = Some(Addr { p, s: None });
        self.pending = Pending::Talk(p);
    }

    /// A secondary address takes the place of its primary alone (IEEE 488.1, 2.5 and 2.6).
    fn secondary(&mut self, s: u8)
        ensures { self.new ≡ on_secondary self.old s self.old.pending }
    {
        match self.pending {
            Pending::Nothing => {}
            Pending::Talk(p) => self.talker = Some(Addr { p, s: Some(s) }),
            Pending::Listen(p) => {
                self.listeners.remove(Addr { p, s: None });
                self.listeners.add(Addr { p, s: Some(s) });
            }
        }
    }

    /// Control goes to a talker that isn't the gateway (IEEE 488.1, 2.12).
    fn take_control(&mut self)
        ensures { self.new ≡ on_take_control self.old }
    {
        if self.talker.is_some_and(|talker| talker.p != self.own) {
            self.incharge = false;
        }
    }

    fn own_address(&self) -> Addr
        ensures { result ≡ primary self.now.own }
    {
        Addr {
            p: self.own,
            s: None,
        }
    }

    /// Interface clear (IEEE 488.1, 2.12): nobody talks or listens, and the gateway is in charge.
    fn clear_interface(&mut self)
        ensures { self.new ≡ on_interface_clear self.old }
    {
        self.talker = None;
        self.listeners = Listeners::none();
        self.polling = false;
        self.incharge = true;
        self.pending = Pending::Nothing;
    }

    /// Whether the gateway's own address, without a secondary, is the talker.
    pub fn is_talker(&self) -> bool
        ensures { result ≡ own_talks self.now }
    {
        self.talker == Some(self.own_address())
    }

    /// Whether the gateway's own address, without a secondary, is a listener.
    pub fn is_listener(&self) -> bool
        ensures { result ≡ own_listens self.now }
    {
        self.listeners.has(self.own_address())
    }
}
