use vx_ctrl::Turn;

/// The turn of a connection's call, which is under way.
#[derive(Clone, Copy)]
pub struct Running {
    pub conn: u32,
    pub turn: Turn,
}
