use vx_script::Cause;

/// Why a step isn't taken.
#[derive(Clone, Copy)]
pub enum Refusal {
    Refused(Cause),
    NoMemory,
}
