//! The top four bits of a tile slot's addresses.
use std::test::*;
use strict_lists::crosses;

// A slot has 512 KiB.
#[test]
fn slots_across_256_mib(rt: HostRuntime) {
    assert!(rt; !crosses(0x0FF8_0000));
    assert!(rt; crosses(0x0FF8_1000));
    assert!(rt; crosses(0x0FFF_F000));
    assert!(rt; !crosses(0x1000_0000));
}
