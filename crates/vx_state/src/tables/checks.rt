//! What a call is refused for by its link and its own checks, in their order.
ghost use Rattle.std.specs.Prelude.{◌≡◌, ℕ, List, if◌then◌else◌, ◌==◌, None, Some, count_by, not, ◌&&◌, map};
ghost use Rattle.vx_links.specs.Shown.{link_shown};
ghost use Rattle.vx_rules.specs.State.{link_of};
ghost use Rattle.vx_rules.specs.Checks.{OnLink, DeadLink, link_found, named_link, check, check_on, check_create, check_command, check_channel, has_channel_number, asks_channel, is_interface, NoLink, numbers_asked};
ghost use Rattle.vx_rules.specs.Docmd as docmd;
ghost use Rattle.vx_state.specs.Held.{kept_call};
ghost use Rattle.vx_state.specs.Rows.{connection_of};
ghost use Rattle.vx_state.specs.Shown.{named_shown, command_shown};
ghost use Rattle.std.specs.Option.{option_map};
ghost use Rattle.vx_calls.specs.Target.{target};

use crate::tables::Tables;
use crate::tables::docmd::{Command, command_of, takes_input};
use crate::tables::kept::Kept;
use crate::tables::rows::Row;
use vx_calls::{CONNECTION_LAST, ErrorCode, Target, WRITE_MAX, target_of};
use vx_links::LinkRow;

/// The link that a call is about: it names none, or one that isn't a live link of its connection, or this one.
#[derive(Clone, Copy)]
pub(crate) enum Named {
    Nothing,
    Dead,
    On(LinkRow),
}

impl Tables {
    /// The link that a call of this connection is about.
    pub(crate) fn named(&self, conn: u32, call: Kept) -> Named
        ensures { (text handle : List ℕ) → named_shown result ≡ named_link self.now conn (kept_call call text handle) }
    {
        match call.link() {
            Some(lid) => self.own_link(conn, lid),
            None => Named::Nothing,
        }
    }

    /// The connection's link of this number, where it lives.
    fn own_link(&self, conn: u32, lid: u32) -> Named
        ensures { named_shown result ≡ link_found (link_of self.now conn lid) }
    {
        match self.links.find(lid) {
            Some(row) => owned(row, conn),
            None => Named::Dead,
        }
    }

    /// What a call of this connection is refused for, on a gateway at this own address. A call that settles a dial counts
    /// the channel numbers as it does.
    pub(crate) fn check(
        &self,
        own: u8,
        conn: u32,
        settling: bool,
        about: Named,
        call: Kept,
        text: &[u8],
    ) -> Option<ErrorCode>
        ensures { (handle : List ℕ) → result ≡ check self.now own conn settling (named_shown about) (kept_call call text.now handle) }
    {
        match about {
            Named::Dead => Some(ErrorCode::InvalidLink),
            Named::On(link) => self.check_on(own, link, call, text),
            Named::Nothing => self.check_alone(own, conn, settling, call, text),
        }
    }

    /// What a call on a link is refused for.
    fn check_on(&self, own: u8, link: LinkRow, call: Kept, text: &[u8]) -> Option<ErrorCode>
        ensures { (handle : List ℕ) → result ≡ check_on self.now own (link_shown link) (kept_call call text.now handle) }
    {
        match call {
            Kept::Write { .. } => unless(text.len() <= WRITE_MAX as usize, ErrorCode::Parameter),
            Kept::ReadStb(_) => unless(!is_interface(link.target), ErrorCode::NotSupported),
            Kept::Unlock { .. } => unless(self.locks.holds(link.lid), ErrorCode::NotHeld),
            Kept::Docmd { cmd, big, .. } => self.check_docmd(own, link.target, cmd, big, text),
            _ => None,
        }
    }

    /// What a device_docmd on a target is refused for: it is the interface's, of a command that is one, with input that it
    /// takes.
    fn check_docmd(
        &self,
        own: u8,
        on: Target,
        cmd: u32,
        big: bool,
        text: &[u8],
    ) -> Option<ErrorCode>
        ensures { result ≡ (if is_interface on then check_command self.now own big text.now (docmd.command_of cmd) else Some ErrorCode.NotSupported) }
    {
        if !is_interface(on) {
            return Some(ErrorCode::NotSupported);
        }
        match command_of(cmd) {
            None => Some(ErrorCode::NotSupported),
            Some(command) => unless(
                takes_input(command, own, &self.links, big, text),
                ErrorCode::Parameter,
            ),
        }
    }

    /// What a call that names no link is refused for.
    fn check_alone(
        &self,
        own: u8,
        conn: u32,
        settling: bool,
        call: Kept,
        text: &[u8],
    ) -> Option<ErrorCode>
        ensures { (handle : List ℕ) → result ≡ check self.now own conn settling NoLink (kept_call call text.now handle) }
    {
        match call {
            Kept::CreateLink { .. } => self.check_create(target_of(text, own)),
            Kept::CreateIntr { port, family, .. } => {
                self.check_channel(conn, settling, family, port)
            }
            Kept::DestroyIntr => unless(self.srq.channel(conn).is_some(), ErrorCode::NoChannel),
            _ => None,
        }
    }

    /// create_link is refused by its text, and then by a full table of links.
    fn check_create(&self, named: Result<Target, ErrorCode>) -> Option<ErrorCode>
        ensures { result ≡ check_create self.now named }
    {
        match named {
            Err(error) => Some(error),
            Ok(_) => unless(!self.links.is_full(), ErrorCode::NoResources),
        }
    }

    /// What a create_intr_chan is refused for.
    fn check_channel(&self, conn: u32, settling: bool, family: u32, port: u32) -> Option<ErrorCode>
        ensures { result ≡ check_channel self.now conn settling family port }
    {
        if family != 0 {
            Some(ErrorCode::NotSupported)
        } else if port == 0 || port > 65535 {
            Some(ErrorCode::InvalidAddress)
        } else if self.srq.channel(conn).is_some() {
            Some(ErrorCode::ChannelUp)
        } else {
            unless(
                self.has_channel_number(conn, settling),
                ErrorCode::NoResources,
            )
        }
    }

    /// Whether a channel number is left: at the settling of a dial those given out count alone, and else those that pending
    /// calls of other connections ask for too.
    fn has_channel_number(&self, conn: u32, settling: bool) -> bool
        ensures { result ≡ has_channel_number self.now conn settling }
    {
        if settling {
            self.srq.has_number()
        } else {
            let next = self.srq.next_channel();
            next <= CONNECTION_LAST
                && count_asking(&self.rows, conn) <= (CONNECTION_LAST - next) as usize
        }
    }
}

/// The link, where it is the connection's.
fn owned(row: LinkRow, conn: u32) -> Named
    ensures { named_shown result ≡ (if row.conn == conn then OnLink (link_shown row) else DeadLink) }
{
    if row.conn == conn {
        Named::On(row)
    } else {
        Named::Dead
    }
}

/// The error, unless the call fits.
fn unless(fits: bool, error: ErrorCode) -> Option<ErrorCode>
    ensures { result ≡ (if fits then None else Some error) }
{
    if fits { None } else { Some(error) }
}

/// Whether a target is the interface.
fn is_interface(on: Target) -> bool
    ensures { result ≡ is_interface on }
{
    match on {
        Target::Interface => true,
        Target::Device { .. } => false,
    }
}

/// How many other connections have a create_intr_chan without an answer.
fn count_asking(rows: &[Row], conn: u32) -> usize
    ensures { result ≡ count_by (λ c. not (c.number == conn) && asks_channel c.pending) (map connection_of rows.now) }
{
    let mut count: usize = 0;
    for row in rows {
        count += usize::from(is_asking(row, conn));
    }
    count
}

/// Whether a row is another connection's, and its call is a create_intr_chan.
fn is_asking(row: &Row, conn: u32) -> bool
    ensures { result ≡ (not (row.now.number == conn) && asks_channel (connection_of row.now).pending) }
{
    row.number != conn && asks_channel(row)
}

/// Whether a row's call is a create_intr_chan.
fn asks_channel(row: &Row) -> bool
    ensures { result ≡ asks_channel (connection_of row.now).pending }
{
    match row.asked {
        Some(asked) => asked.call.needs_dial(),
        None => false,
    }
}
