//! How many buses a fleet serves.
ghost use Rattle.std.specs.Prelude.{◌≡◌};
ghost use Rattle.vx_desks.specs.Counts.{count_number, serves_bus};

/// How many buses a fleet serves, those of the lowest numbers: `gpib0` alone, or up to `gpib3`.
#[derive(Clone, Copy)]
pub enum Count {
    One,
    Two,
    Three,
    Four,
}

impl Count {
    /// The number, 1 to 4.
    pub fn number(self) -> u8
        ensures { result ≡ count_number self }
    {
        match self {
            Count::One => 1,
            Count::Two => 2,
            Count::Three => 3,
            Count::Four => 4,
        }
    }

    /// Whether the bus of this number is served.
    pub fn serves(self, bus: u8) -> bool
        ensures { result ≡ serves_bus self bus }
    {
        bus < self.number()
    }
}
