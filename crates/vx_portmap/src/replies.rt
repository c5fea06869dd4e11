//! Replies, as words written one behind the other.
ghost use Rattle.std.specs.Prelude.{◌≡◌, ◌+◌, ◌*◌, ◌≤◌, ◌<◌, ◌∷◌, [], length};
ghost use Rattle.vx_xdr.specs.Writing.{Writes, WritesFirst};
ghost use Rattle.vx_rpc.specs.Wording.{words};
ghost use Rattle.std.specs.List.{flat_map};
ghost use Rattle.vx_portmap.specs.declared.limits.TheConstants.{MESSAGE_MAX, PORTS_MAX};
ghost use Rattle.vx_portmap.specs.declared.replies.TheConstants.{OUTCOME_MAX};
ghost use Rattle.vx_portmap.specs.Answering.{entry, success, dump_results};
ghost use Rattle.vx_portmap.specs.Outcomes.{outcome_numbers};

use crate::limits::PORTS_MAX;
use crate::table::{Mapping, Ports};
use vx_xdr::Writer;

/// What is answered to a call of RPC version 2.
#[derive(Clone, Copy)]
pub(crate) enum Outcome {
    ProgUnavail,
    ProgMismatch,
    ProcUnavail,
    GarbageArgs,
    /// The results of the null procedure, of which there are none.
    Null,
    /// The port that was asked for, or 0.
    Port(u32),
    /// All mappings.
    Dump,
}

// Writes numbers as words.
fn put_words(w: &mut Writer, numbers: &[u32], out: &mut [u8])
    requires { w.old + 4 * length numbers.now ≤ length out.old }
    ensures { Writes (words numbers.now) w.old out.old w.new out.new }
{
    for number in numbers {
        let Ok(()) = w.u32(out, *number) else {
            unreachable!()
        };
    }
}

// Writes the entries of a list of mappings.
fn put_entries(w: &mut Writer, mappings: &[Mapping], out: &mut [u8])
    requires { w.old + 20 * length mappings.now ≤ length out.old }
    ensures { Writes (words (flat_map entry mappings.now)) w.old out.old w.new out.new }
{
    for m in mappings {
        put_words(w, &[1, m.prog, m.vers, m.prot, m.port], out);
    }
}

// Writes the list of mappings as the results of a dump.
fn put_dump(w: &mut Writer, mappings: &[Mapping], out: &mut [u8])
    requires few { length mappings.now ≤ PORTS_MAX }
    requires room { w.old + OUTCOME_MAX ≤ length out.old }
    ensures { Writes (words (success (dump_results mappings.now))) w.old out.old w.new out.new }
{
    put_words(w, &[0], out);
    put_entries(w, mappings, out);
    put_words(w, &[0], out);
}

/// The longest outcome, in bytes: that of a dump of all mappings that a table may have, each of five words, between two.
const OUTCOME_MAX: usize = 20 * PORTS_MAX + 8;

// Writes what is answered to an accepted call.
fn put_outcome(w: &mut Writer, ports: &Ports, outcome: &Outcome, out: &mut [u8])
    requires { w.old + OUTCOME_MAX ≤ length out.old }
    ensures writes { Writes (words (outcome_numbers ports.now outcome.now)) w.old out.old w.new out.new }
    ensures short { w.new ≤ w.old + OUTCOME_MAX }
{
    match *outcome {
        Outcome::ProgUnavail => put_words(w, &[1], out),
        Outcome::ProgMismatch => put_words(w, &[2, 2, 2], out),
        Outcome::ProcUnavail => put_words(w, &[3], out),
        Outcome::GarbageArgs => put_words(w, &[4], out),
        Outcome::Null => put_words(w, &[0], out),
        Outcome::Port(port) => put_words(w, &[0, port], out),
        Outcome::Dump => put_dump(w, ports.list(), out),
    }
}

/// Writes the reply to an accepted call at the front of `out`, and answers how long it is.
pub(crate) fn put_accepted(ports: &Ports, xid: u32, outcome: &Outcome, out: &mut [u8]) -> usize
    requires { MESSAGE_MAX ≤ length out.old }
    ensures text { WritesFirst (words (xid ∷ 1 ∷ 0 ∷ 0 ∷ 0 ∷ outcome_numbers ports.now outcome.now)) out.old result out.new }
    ensures within { (0 < result) × (result ≤ MESSAGE_MAX) }
{
    let mut w = Writer::new();
    put_words(&mut w, &[xid, 1, 0, 0, 0], out);
    put_outcome(&mut w, ports, outcome, out);
    w.len()
}

/// Writes the reply to a call of another version of RPC at the front of `out`, and answers how long it is.
pub(crate) fn put_mismatch(xid: u32, out: &mut [u8]) -> usize
    requires { MESSAGE_MAX ≤ length out.old }
    ensures text { WritesFirst (words (xid ∷ 1 ∷ 1 ∷ 0 ∷ 2 ∷ 2 ∷ [])) out.old result out.new }
    ensures len { result ≡ 24 }
{
    let mut w = Writer::new();
    put_words(&mut w, &[xid, 1, 1, 0, 2, 2], out);
    w.len()
}
