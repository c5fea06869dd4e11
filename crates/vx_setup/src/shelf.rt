//! Spare instruments, and why an instrument isn't attached.
ghost use Rattle.std.specs.Prelude.{◌≡◌, Some, option_map, position};
ghost use Rattle.std.specs.Str.{bytes_eq};
ghost use Rattle.vx_setup.specs.Refusing.{cause_of};

use crate::stops::Refusal;
use vx_inst::Instrument;
use vx_rack::Spare;
use vx_script::Cause;
use vx_sim::Attach;

/// Why an instrument isn't attached, as a step is refused.
pub fn refused_for(why: Attach) -> Refusal
    ensures { Some result ≡ option_map (λ cause. Refusal.Refused cause) (cause_of (Some why)) }
{
    Refusal::Refused(match why {
        Attach::OwnAddress => Cause::Own,
        Attach::Taken { .. } => Cause::Taken,
        Attach::Full => Cause::Bench,
    })
}

/// Where the first spare of a name stands.
pub fn spare_place<I: Instrument>(rack: &[Spare<I>], name: &[u8]) -> Option<usize>
    ensures { result ≡ position (λ spare. bytes_eq spare.name.bytes name.now) rack.now }
{
    rack.iter()
        .position(|spare| spare.name.as_str().as_bytes() == name)
}
