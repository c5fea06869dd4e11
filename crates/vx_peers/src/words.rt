//! What the words of a user ask.
ghost use Rattle.std.specs.Prelude.{◌≡◌, ◌≢◌, ◌≤◌, ℕ, map, string_bytes, decimal, IfSome, None};
ghost use Rattle.vx_peers.specs.declared.words.Ask.{Ask};
ghost use Rattle.vx_peers.specs.Asked.{spelled, IsPeerInRange};

use vx_text::number_within;

/// What is asked.
#[derive(Clone, Copy)]
pub struct Ask {
    /// The port to serve at, 1 to 65,535.
    pub port: u16,
    /// How many peers are served, 1 to 1,000,000.
    pub number: u32,
}

/// The most peers of a run.
pub const PEERS_MAX: u32 = 1_000_000;

/// The port that a text writes, 1 to 65,535, in decimal digits without a leading zero.
pub fn port_of(text: &str) -> Option<u16>
    ensures some { IfSome result (λ n. (1 ≤ n) × (n ≤ 65535) × (text.now ≡ decimal n)) }
    ensures none { result ≡ None → (n : ℕ) → 1 ≤ n → n ≤ 65535 → text.now ≢ decimal n }
{
    Some(number_within(text.as_bytes(), 1, 65535)? as u16)
}

/// The number of peers, or of whatever is served, that a text writes, 1 to 1,000,000, in decimal digits without a leading zero.
pub fn number_of(text: &str) -> Option<u32>
    ensures some { IfSome result (λ n. (1 ≤ n) × (n ≤ PEERS_MAX) × (text.now ≡ decimal n)) }
    ensures none { result ≡ None → (n : ℕ) → 1 ≤ n → n ≤ PEERS_MAX → text.now ≢ decimal n }
{
    Some(number_within(text.as_bytes(), 1, u64::from(PEERS_MAX))? as u32)
}

/// What words ask: `PORT N`, with a port 1 to 65,535 and N 1 to 1,000,000, in decimal digits without a leading zero. It is none where
/// they have another form.
pub fn ask_of(words: &[String]) -> Option<Ask>
    ensures some { IfSome result (λ ask. IsPeerInRange ask × (map string_bytes words.now ≡ spelled ask)) }
    ensures none { result ≡ None → (ask : Ask) → IsPeerInRange ask → map string_bytes words.now ≢ spelled ask }
{
    let [port, number] = words else {
        return None;
    };
    let port = port_of(port.as_str())?;
    let number = number_of(number.as_str())?;
    Some(Ask { port, number })
}
