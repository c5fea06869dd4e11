//! Whether a job is one that the calls of a turn take: tests of what they require.
ghost use Rattle.std.specs.Prelude.{◌↔◌, IsTrue};
ghost use Rattle.vx_plan.specs.Tasks.{HasBytes, IsPlainTask, IsTargetPlain};

use crate::tasks::Task;
use vx_488::ADDRESS_MAX;
use vx_calls::Target;

/// Whether both parts of a target's address are at most 30.
fn is_target_plain(t: Target) -> bool
    ensures { IsTrue result ↔ IsTargetPlain t }
{
    match t {
        Target::Interface => true,
        Target::Device { p, s: None } => p <= ADDRESS_MAX,
        Target::Device { p, s: Some(s) } => p <= ADDRESS_MAX && s <= ADDRESS_MAX,
    }
}

impl Task {
    /// Whether its addresses are at most 30, and a serial poll is of a device.
    pub fn is_plain(&self) -> bool
        ensures { IsTrue result ↔ IsPlainTask self.now }
    {
        match *self {
            Task::Stb { t } => t != Target::Interface && is_target_plain(t),
            Task::Write { t, .. }
            | Task::Read { t, .. }
            | Task::Clear { t }
            | Task::Trigger { t }
            | Task::Remote { t }
            | Task::Local { t } => is_target_plain(t),
            Task::Pass(p) | Task::Own(p) => p <= ADDRESS_MAX,
            Task::Commands { .. } | Task::Status { .. } | Task::Atn(_) | Task::Ren(_) | Task::Ifc =>
                true,
        }
    }

    /// Whether these are as many bytes as it sends. A job that sends none takes any.
    pub fn has_bytes(&self, bytes: &[u8]) -> bool
        ensures { IsTrue result ↔ HasBytes self.now bytes.now }
    {
        match *self {
            Task::Write { len, .. } | Task::Commands { len } => bytes.len() == len as usize,
            _ => true,
        }
    }
}
