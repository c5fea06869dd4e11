//! The words of a rule.
ghost use Rattle.std.specs.Prelude.{◌≡◌, ◌≢◌, ◌==◌, ◌≤◌, ℕ, Bool, true, false, codes, decimal, length, option_map, position, IfSome, None, Option};
ghost use Rattle.vx_calls.specs.declared.calls.Proc.{Proc};
ghost use Rattle.vx_policy.specs.Cutting.{cut, named, parts, IsUnder};
ghost use Rattle.vx_policy.specs.Grammar.{allow_text, peers_text, proc_text, place_text, IsPeers, IsNamed, IsPlace};
ghost use Rattle.vx_policy.specs.declared.rules.Peers.{Peers};
ghost use Rattle.vx_policy.specs.declared.rules.Place.{Place};

use crate::rules::{Peers, Place};
use vx_calls::Proc;
use vx_text::number_within;

/// The greatest primary address (IEEE 488.1, 2.6).
const ADDRESS_MAX: u8 = 30;

/// How many bits an IPv4 address has.
const BITS_MAX: u8 = 32;

fn first_of(text: &[u8], mark: u8) -> Option<usize>
    ensures { result ≡ position (λ b. b == mark) text.now }
{
    text.iter().position(|b| *b == mark)
}

/// What stands in front of the first such byte, and what stands behind it.
pub(crate) fn cut(text: &[u8], mark: u8) -> Option<(&[u8], &[u8])>
    ensures { option_map (λ r. (r.0.now, r.1.now)) result ≡ cut mark text.now }
{
    let i = first_of(text, mark)?;
    Some((&text[..i], &text[i + 1..]))
}

/// The number, 0 to `most`, that a text is in decimal digits, without a leading zero.
fn number_to(text: &[u8], most: u8) -> Option<u8>
    ensures some { IfSome result (λ n. (n ≤ most) × (text.now ≡ decimal n)) }
    ensures none { result ≡ None → (n : ℕ) → n ≤ most → text.now ≢ decimal n }
{
    Some(number_within(text, 0, u64::from(most))? as u8)
}

pub(crate) fn allow_of(word: &[u8]) -> Option<bool>
    ensures some { IfSome result (λ allow. word.now ≡ allow_text allow) }
    ensures none { result ≡ None → (allow : Bool) → word.now ≢ allow_text allow }
{
    if word == b"allow".as_slice() {
        Some(true)
    } else if word == b"deny".as_slice() {
        Some(false)
    } else {
        None
    }
}

/// The parts of a.b.c.d/n.
fn parts_of(word: &[u8]) -> Option<(&[u8], &[u8], &[u8], &[u8], &[u8])>
    ensures { option_map (λ r. (r.0.now, r.1.now, r.2.now, r.3.now, r.4.now)) result ≡ parts word.now }
{
    let (a, rest) = cut(word, b'.')?;
    let (b, rest) = cut(rest, b'.')?;
    let (c, rest) = cut(rest, b'.')?;
    let (d, bits) = cut(rest, b'/')?;
    Some((a, b, c, d, bits))
}

/// The peers under the address and the number of bits that these texts are.
fn under_of(a: &[u8], b: &[u8], c: &[u8], d: &[u8], bits: &[u8]) -> Option<Peers>
    ensures some { IfSome result (IsUnder a.now b.now c.now d.now bits.now) }
    ensures none { result ≡ None → (peers : Peers) → IsUnder a.now b.now c.now d.now bits.now peers → ⊥ }
{
    Some(Peers::Under {
        a: number_to(a, u8::MAX)?,
        b: number_to(b, u8::MAX)?,
        c: number_to(c, u8::MAX)?,
        d: number_to(d, u8::MAX)?,
        bits: number_to(bits, BITS_MAX)?,
    })
}

/// Whether a word is `*`.
fn is_star(word: &[u8]) -> bool
    ensures star { result ≡ true → word.now ≡ codes "*" }
    ensures other { result ≡ false → word.now ≢ codes "*" }
{
    matches!(word, b"*")
}

pub(crate) fn peers_of(word: &[u8]) -> Option<Peers>
    ensures some { IfSome result (λ peers. IsPeers peers × (word.now ≡ peers_text peers)) }
    ensures none { result ≡ None → (peers : Peers) → IsPeers peers → word.now ≢ peers_text peers }
{
    if is_star(word) {
        return Some(Peers::Any);
    }
    let (a, b, c, d, bits) = parts_of(word)?;
    under_of(a, b, c, d, bits)
}

/// The procedures that have a word.
const NAMED: [Proc; 15] = [
    Proc::CreateLink,
    Proc::Write,
    Proc::Read,
    Proc::ReadStb,
    Proc::Trigger,
    Proc::Clear,
    Proc::Remote,
    Proc::Local,
    Proc::Lock,
    Proc::Unlock,
    Proc::EnableSrq,
    Proc::Docmd,
    Proc::DestroyLink,
    Proc::CreateIntr,
    Proc::DestroyIntr,
];

/// The word that a rule has for a procedure, of at most 7 bytes; no byte where it has none.
pub fn word_of(proc: Proc) -> &'static [u8]
    ensures word { result.now ≡ proc_text (Some proc) }
    ensures short { length result.now ≤ 7 }
{
    match proc {
        Proc::CreateLink => b"create",
        Proc::Write => b"write",
        Proc::Read => b"read",
        Proc::ReadStb => b"stb",
        Proc::Trigger => b"trigger",
        Proc::Clear => b"clear",
        Proc::Remote => b"remote",
        Proc::Local => b"local",
        Proc::Lock => b"lock",
        Proc::Unlock => b"unlock",
        Proc::EnableSrq => b"srq",
        Proc::Docmd => b"docmd",
        Proc::DestroyLink => b"destroy",
        Proc::CreateIntr => b"intr",
        Proc::DestroyIntr => b"unintr",
        Proc::Null | Proc::DeviceAbort => b"",
    }
}

/// The procedure that a word names.
fn named_of(word: &[u8]) -> Option<Proc>
    ensures { result ≡ named word.now }
{
    NAMED.iter().copied().find(|proc| word_of(*proc) == word)
}

/// The procedure that a word names, or none for `*`.
pub(crate) fn proc_of(word: &[u8]) -> Option<Option<Proc>>
    ensures some { IfSome result (λ proc. IsNamed proc × (word.now ≡ proc_text proc)) }
    ensures none { result ≡ None → (proc : Option Proc) → IsNamed proc → word.now ≢ proc_text proc }
{
    if is_star(word) {
        return Some(None);
    }
    Some(Some(named_of(word)?))
}

pub(crate) fn place_of(word: &[u8]) -> Option<Place>
    ensures some { IfSome result (λ place. IsPlace place × (word.now ≡ place_text place)) }
    ensures none { result ≡ None → (place : Place) → IsPlace place → word.now ≢ place_text place }
{
    match word {
        b"*" => Some(Place::Any),
        b"bus" => Some(Place::Bus),
        _ => Some(Place::At(number_to(word, ADDRESS_MAX)?)),
    }
}
