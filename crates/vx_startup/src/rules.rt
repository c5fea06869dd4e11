//! The access rules of a server.
use vx_policy::Policy;

/// What has the access rules of a server.
pub trait Rules {
    /// The rules, where there are some. They are given away: another time there are none.
    fn rules(&mut self) -> Option<Policy>;
}
