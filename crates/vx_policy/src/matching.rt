//! Whether a rule matches a call.
ghost use Rattle.std.specs.Prelude.{◌≡◌};
ghost use Rattle.vx_policy.specs.Judging.{address, first_bits, is_peer, is_proc, is_place, matches, proc_number};

use crate::rules::{Peers, Place, Rule};
use vx_calls::{Proc, Target};

/// The address a.b.c.d, the first part in the high byte.
fn address(a: u8, b: u8, c: u8, d: u8) -> u32
    ensures { result ≡ address a b c d }
{
    ((u32::from(a) * 256 + u32::from(b)) * 256 + u32::from(c)) * 256 + u32::from(d)
}

/// The first bits of an address.
fn first_bits(bits: u8, address: u32) -> u64
    ensures { result ≡ first_bits bits address }
{
    u64::from(address) >> 32u8.saturating_sub(bits)
}

fn is_peer(peers: &Peers, peer: u32) -> bool
    ensures { result ≡ is_peer peers.now peer }
{
    match *peers {
        Peers::Any => true,
        Peers::Under { a, b, c, d, bits } => {
            first_bits(bits, peer) == first_bits(bits, address(a, b, c, d))
        }
    }
}

/// The number of a procedure in its program.
fn proc_number(proc: Proc) -> u8
    ensures { result ≡ proc_number proc }
{
    match proc {
        Proc::Null => 0,
        Proc::DeviceAbort => 1,
        Proc::CreateLink => 10,
        Proc::Write => 11,
        Proc::Read => 12,
        Proc::ReadStb => 13,
        Proc::Trigger => 14,
        Proc::Clear => 15,
        Proc::Remote => 16,
        Proc::Local => 17,
        Proc::Lock => 18,
        Proc::Unlock => 19,
        Proc::EnableSrq => 20,
        Proc::Docmd => 22,
        Proc::DestroyLink => 23,
        Proc::CreateIntr => 25,
        Proc::DestroyIntr => 26,
    }
}

fn is_proc(named: Option<Proc>, asked: Proc) -> bool
    ensures { result ≡ is_proc named asked }
{
    match named {
        None => true,
        Some(named) => proc_number(named) == proc_number(asked),
    }
}

fn is_place(place: &Place, at: Option<Target>) -> bool
    ensures { result ≡ is_place place.now at }
{
    match (*place, at) {
        (Place::Any, _) => true,
        (Place::Bus, Some(Target::Interface)) => true,
        (Place::At(p), Some(Target::Device { p: q, .. })) => p == q,
        _ => false,
    }
}

/// Whether a rule matches a call of this procedure from this peer, to this target, or to none.
pub(crate) fn matches(rule: &Rule, peer: u32, asked: Proc, at: Option<Target>) -> bool
    ensures { result ≡ matches rule.now peer asked at }
{
    is_peer(&rule.peers, peer) && is_proc(rule.proc, asked) && is_place(&rule.place, at)
}
