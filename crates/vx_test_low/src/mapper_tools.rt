//! The table of mappings that the tests ask.

use vx_portmap::{Mapping, Ports};

/// The core program, at port 9010.
pub(crate) const CORE: Mapping = Mapping {
    prog: 0x0607AF,
    vers: 1,
    prot: 6,
    port: 9010,
};

/// The abort program, at port 9011.
pub(crate) const ABORT: Mapping = Mapping {
    prog: 0x0607B0,
    vers: 1,
    prot: 6,
    port: 9011,
};

/// A table of both.
pub(crate) fn both() -> Ports {
    let mut ports = Ports::new();
    let _ = ports.add(CORE);
    let _ = ports.add(ABORT);
    ports
}
