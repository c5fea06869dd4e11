//! The draws that choose the steps of a run.
ghost use Rattle.std.specs.Prelude.{◌≡◌, ◌≤◌, ◌<◌, ◌^◌};
ghost use Rattle.vx_gen.specs.Drawing.{next, connection, kind};

/// The draw behind this one: a linear congruential step modulo 2^31.
pub fn next_draw(draw: u32) -> u32
    ensures value { result ≡ next draw }
    ensures range { result < 2 ^ 31 }
{
    ((u64::from(draw) * 1_103_515_245 + 12_345) % 2_147_483_648) as u32
}

/// The connection that a draw chooses: 1 to 4.
pub fn connection_of(draw: u32) -> u32
    ensures value { result ≡ connection draw }
    ensures range { (1 ≤ result) × (result ≤ 4) }
{
    1 + draw / 65_536 / 8 % 4
}

/// The kind of step that a draw chooses: 0 to 7.
pub(crate) fn kind_of(draw: u32) -> u32
    ensures value { result ≡ kind draw }
    ensures range { result < 8 }
{
    draw / 65_536 % 8
}
