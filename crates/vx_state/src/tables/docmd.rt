//! The commands of device_docmd (after VXI-11.2): their numbers, the input of each, and the job that each is.
ghost use Rattle.std.specs.Prelude.{◌≡◌, ℕ, ◌+◌, ◌*◌, ◌==◌, ◌&&◌, nat_le, not, true, length};
ghost use Rattle.std.specs.Option.{option_map};
ghost use Rattle.vx_rules.specs.Table.{Table, uses_address};
ghost use Rattle.vx_rules.specs.Docmd as docmd;
ghost use Rattle.vx_state.specs.Shown.{command_shown};

use vx_488::ADDRESS_MAX;
use vx_calls::DOCMD_MAX;
use vx_links::Links;
use vx_plan::Task;

/// A command of device_docmd on the interface.
#[derive(Clone, Copy)]
pub(crate) enum Command {
    SendCommand,
    BusStatus,
    AtnControl,
    RenControl,
    PassControl,
    BusAddress,
    IfcControl,
}

/// The command of this number.
pub(crate) fn command_of(cmd: u32) -> Option<Command>
    ensures { option_map command_shown result ≡ docmd.command_of cmd }
{
    match cmd {
        0x02_0000 => Some(Command::SendCommand),
        0x02_0001 => Some(Command::BusStatus),
        0x02_0002 => Some(Command::AtnControl),
        0x02_0003 => Some(Command::RenControl),
        0x02_0004 => Some(Command::PassControl),
        0x02_000A => Some(Command::BusAddress),
        0x02_0010 => Some(Command::IfcControl),
        _ => None,
    }
}

/// The number that two bytes are, the high one first or last.
fn word_in(big: bool, bytes: &[u8]) -> u16
    requires { length bytes.now ≡ 2 }
    ensures { result ≡ docmd.number_in big bytes.now }
{
    match bytes {
        [a, b] => {
            if big {
                u16::from(*a) * 256 + u16::from(*b)
            } else {
                u16::from(*b) * 256 + u16::from(*a)
            }
        }
        _ => unreachable!(),
    }
}

/// The number that four bytes are, the high one first or last.
fn long_in(big: bool, bytes: &[u8]) -> u32
    requires { length bytes.now ≡ 4 }
    ensures { result ≡ docmd.number_in big bytes.now }
{
    match bytes {
        [a, b, c, d] => {
            if big {
                four_bytes(*a, *b, *c, *d)
            } else {
                four_bytes(*d, *c, *b, *a)
            }
        }
        _ => unreachable!(),
    }
}

/// The number of these bytes, the high one first.
fn four_bytes(a: u8, b: u8, c: u8, d: u8) -> u32
    ensures { result ≡ 256 * (256 * (256 * a + b) + c) + d }
{
    u32::from(a) * 0x0100_0000 + u32::from(b) * 0x0001_0000 + u32::from(c) * 0x0100 + u32::from(d)
}

/// Whether the command takes this input, on a gateway at this own address with these links.
pub(crate) fn takes_input(command: Command, own: u8, links: &Links, big: bool, input: &[u8]) -> bool
    ensures { result ≡ docmd.takes_input (command_shown command) own links.now big input.now }
{
    match command {
        Command::SendCommand => input.len() <= DOCMD_MAX as usize,
        Command::BusStatus => input.len() == 2 && is_selector(word_in(big, input)),
        Command::AtnControl | Command::RenControl => input.len() == 2,
        Command::PassControl => input.len() == 4 && is_other(long_in(big, input), own),
        Command::BusAddress => input.len() == 4 && is_free(long_in(big, input), links),
        Command::IfcControl => input.len() == 0,
    }
}

/// A selector of bus status is 1 to 8.
fn is_selector(n: u16) -> bool
    ensures { result ≡ (nat_le 1 n && nat_le n 8) }
{
    1 <= n && n <= 8
}

/// An address of another than the gateway.
fn is_other(n: u32, own: u8) -> bool
    ensures { result ≡ (nat_le n ADDRESS_MAX && not (n == own)) }
{
    n <= u32::from(ADDRESS_MAX) && n != u32::from(own)
}

/// An address that is no live link's.
fn is_free(n: u32, links: &Links) -> bool
    ensures { result ≡ (nat_le n ADDRESS_MAX && not (uses_address links.now n)) }
{
    n <= u32::from(ADDRESS_MAX) && !links.uses(n as u8)
}

/// The job that a command with this input is. It takes the input.
pub(crate) fn command_task(command: Command, big: bool, input: &[u8]) -> Task
    requires takes { (own : ℕ) × (links : Table) × (docmd.takes_input (command_shown command) own links big input.now ≡ true) }
    ensures { result ≡ docmd.command_task (command_shown command) big input.now }
{
    match command {
        Command::SendCommand => Task::Commands {
            len: input.len() as u32,
        },
        Command::BusStatus => Task::Status {
            selector: word_in(big, input),
        },
        Command::AtnControl => Task::Atn(word_in(big, input) != 0),
        Command::RenControl => Task::Ren(word_in(big, input) != 0),
        Command::PassControl => Task::Pass(long_in(big, input) as u8),
        Command::BusAddress => Task::Own(long_in(big, input) as u8),
        Command::IfcControl => Task::Ifc,
    }
}
