//! Memories of the most buffers.
use buffer_table::{Buffer, Kind, Regions, Table};
use field_words::Stop;
use std::alloc::{AllocError, Global};
use std::process::Abort;
use std::test::*;

/// The regions of the smallest job: a page for lists, and one tile slot.
const REGIONS: Regions = Regions {
    lists_place: 0,
    lists_size: 0x1000,
    tile_place: 0x1000,
    tile_slots: 1,
};

const BUFFER: Buffer = Buffer {
    place: 0x81000,
    size: 0x1000,
    client: 1,
    kind: Kind::Plain,
    content: 0,
};

fn at(place: u32) -> Buffer {
    Buffer { place, ..BUFFER }
}

/// 1,024 buffers of a page each behind the regions, and then the last one where and as long as given.
fn many_fault(
    rt: &impl Abort,
    alloc: Global,
    place: u32,
    size: u32,
) -> Result<Option<(u8, u32)>, AllocError> {
    let mut buffers = Vec::new(alloc);
    for k in 0..1023u32 {
        buffers.push(at(0x81000 + 0x1000 * k))?;
    }
    buffers.push(Buffer { size, ..at(place) })?;
    assert!(rt; buffers.len() == 1024);
    Ok(match Table::make(alloc, 0x4000000, REGIONS, &buffers) {
        Err(Stop::Fault(fault)) => Some((fault.number, fault.item)),
        _ => None,
    })
}

#[test]
fn the_most_buffers(rt: HostRuntime) -> Result<(), Fail> {
    let alloc = rt.alloc();
    for (place, size, want) in [
        (0x480000, 0x1000, None),
        (0x480000, 0x3b80000, None),
        (0x480000, 0x3b81000, Some((3, 1026))),
        (0x47f000, 0x1000, Some((4, 1026))),
        (0x47f000, 0x3b81000, Some((4, 1026))),
        (0x81000, 0x1000, Some((4, 1026))),
        (0x80000, 0x1000, Some((4, 1026))),
    ] {
        assert_eq!(rt; many_fault(&rt, alloc, place, size)?, want);
    }
    Ok(())
}
