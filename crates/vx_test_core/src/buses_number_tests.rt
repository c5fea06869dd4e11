//! The numbers of links over all buses.

use vx_desks::{global, local};

#[test]
fn numbers_go_out_and_come_back(rt: HostRuntime) {
    let out = [
        global(0, 1),
        global(2, 1),
        global(2, 2),
        global(3, 0x3FFF_FFFF),
    ];
    assert_eq!(rt; out, [1, 3, 7, 0xFFFF_FFFC]);
    let back = [local(0), local(1), local(7), local(0xFFFF_FFFC)];
    assert_eq!(rt;
        back,
        [None, Some((0, 1)), Some((2, 2)), Some((3, 0x3FFF_FFFF))]
    );
}
