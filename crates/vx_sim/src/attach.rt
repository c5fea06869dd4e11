use vx_488::Addr;

/// Why an instrument isn't attached.
#[derive(Clone, Copy, PartialEq, Eq)]
pub enum Attach {
    /// The gateway itself is at this primary address.
    OwnAddress,
    /// An instrument at `holder` is in the way: it has the same address, or the same primary address where one of the
    /// two has no secondary one.
    Taken { holder: Addr },
    /// There are as many instruments as a bus takes.
    Full,
}

/// No instrument stands at that address.
#[derive(Clone, Copy, Debug, PartialEq, Eq)]
pub struct Absent;

/// An instrument that wasn't attached, and why.
#[derive(Drop)]
pub struct Refused<I> {
    pub why: Attach,
    pub inst: I,
}
