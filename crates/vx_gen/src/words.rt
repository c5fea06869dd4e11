//! What the words of a user ask of the generator.
ghost use Rattle.std.specs.Prelude.{◌≡◌, ◌≢◌, ◌≤◌, ℕ, map, string_bytes, codes, decimal, true, false, IfSome, None};
ghost use Rattle.vx_gen.specs.declared.words.Ask.{Ask};
ghost use Rattle.vx_gen.specs.Asked.{IsInRange, spelled};

use vx_text::number_within;

/// The number that a run is made from, 0 to 2147483647, and how many steps are drawn, 1 to 1,000,000.
#[derive(Clone, Copy, PartialEq, Eq)]
pub struct Ask {
    pub seed: u32,
    pub steps: u32,
}

/// The greatest number that a run is made from.
const SEED_LAST: u32 = 2_147_483_647;

/// The most steps that are drawn.
const STEPS_MAX: u32 = 1_000_000;

/// A number of so many, `least` to `most`, in decimal digits without a leading zero.
fn word_within(text: &str, least: u32, most: u32) -> Option<u32>
    ensures some { IfSome result (λ n. (least ≤ n) × (n ≤ most) × (text.now ≡ decimal n)) }
    ensures none { result ≡ None → (n : ℕ) → least ≤ n → n ≤ most → text.now ≢ decimal n }
{
    Some(number_within(text.as_bytes(), u64::from(least), u64::from(most))? as u32)
}

/// Whether a word is that of the command.
fn is_gen(word: &[u8]) -> bool
    ensures right { result ≡ true → word.now ≡ codes "gen" }
    ensures wrong { result ≡ false → word.now ≢ codes "gen" }
{
    word == b"gen".as_slice()
}

/// What words ask: `gen SEED N`, with SEED 0 to 2147483647 and N 1 to 1,000,000, both in decimal digits without a leading
/// zero. It is none where they have another form.
pub fn ask_of(words: &[String]) -> Option<Ask>
    ensures some { IfSome result (λ ask. IsInRange ask × (map string_bytes words.now ≡ spelled ask)) }
    ensures none { result ≡ None → (ask : Ask) → IsInRange ask → map string_bytes words.now ≢ spelled ask }
{
    let [command, seed, steps] = words else {
        return None;
    };
    if !is_gen(command.as_bytes()) {
        return None;
    }
    let seed = word_within(seed.as_str(), 0, SEED_LAST)?;
    let steps = word_within(steps.as_str(), 1, STEPS_MAX)?;
    Some(Ask { seed, steps })
}
