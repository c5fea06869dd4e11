//! The passes of four gates.
ghost use Rattle.std.specs.Prelude.{◌≡◌, ◌≤◌};
ghost use Rattle.vx_desks.specs.Four.{swapped};
ghost use Rattle.vx_desks.specs.Passing.{passes_shown};

use vx_gate::{Kept, Pass};

/// A pass of each of four gates, in their order.
#[derive(Drop)]
pub struct Passes<K: Kept> {
    pub zero: Pass<K>,
    pub one: Pass<K>,
    pub two: Pass<K>,
    pub three: Pass<K>,
}

impl<K: Kept> Passes<K> {
    /// The passes with the one of this number, 0 to 3, in the first place, and the first one in its: so twice the same leaves them as
    /// they were.
    pub fn swapped(self, number: u8) -> Passes<K>
        requires { number ≤ 3 }
        ensures { passes_shown result ≡ swapped number (passes_shown self) }
    {
        let Passes {
            zero,
            one,
            two,
            three,
        } = self;
        match number {
            0 => Passes {
                zero,
                one,
                two,
                three,
            },
            1 => Passes {
                zero: one,
                one: zero,
                two,
                three,
            },
            2 => Passes {
                zero: two,
                one,
                two: zero,
                three,
            },
            _ => Passes {
                zero: three,
                one,
                two,
                three: zero,
            },
        }
    }
}
