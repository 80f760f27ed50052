//! Worked examples of the rules of textures and of where their levels lie.
use texture_layouts::{
    Texture, Tiling, direct_fits, level_size, microtile_height, microtile_place, microtile_width,
    pixel_place, surface_size, texture_fits, tiling_of,
};

/// The number of the rule that is broken, and 0 where none is.
fn number(answer: Result<(), u8>) -> u8 {
    match answer {
        Ok(()) => 0,
        Err(number) => number,
    }
}

// base, bound, bytes of the buffer, the rule that is broken
const DIRECT: [(u32, u32, u32, u8); 5] = [
    (4092, 0, 4096, 0),
    (4092, 1, 4096, 3),
    (4093, 0, 4096, 2),
    (0xfffffffe, 0, 4096, 2),
    (4, 0xfffffffc, 4096, 3),
];

#[test]
fn u2_u3_direct_reads(rt: HostRuntime) {
    for (base, bound, size, rule) in DIRECT {
        assert_eq!(rt; number(direct_fits(base, bound, size)), rule);
    }
}

// 64 bytes at the last place below 2^32 that a base can have, and 16 MiB there
const HIGH: [([u32; 4], u32, u8); 3] = [
    ([0xfffff000, 0x00400400, 0, 0], 0xfffff040, 0),
    ([0xfffff000, 0x00400400, 0, 0], 0xfffff03f, 7),
    ([0xfffff000, 0, 0, 0], 0xffffffff, 7),
];

#[test]
fn high_textures(rt: HostRuntime) {
    for (words, size, rule) in HIGH {
        assert_eq!(rt; number(texture_fits(words, size)), rule);
    }
}

// A texture of 2,048x2,048 pixels with its 11 levels below it: type, the base's bytes, and the
// bytes of the levels in whole pages. The sums are 5,592,512 for 4 bytes a pixel (5,592,432 in
// raster), 2,796,352, 1,398,272, and 699,264 for ETC1.
const LARGEST: [(u32, u32, u32); 13] = [
    (0, 16777216, 5595136),
    (1, 16777216, 5595136),
    (2, 8388608, 2797568),
    (3, 8388608, 2797568),
    (4, 8388608, 2797568),
    (5, 4194304, 1400832),
    (6, 4194304, 1400832),
    (7, 8388608, 2797568),
    (8, 2097152, 700416),
    (9, 8388608, 2797568),
    (10, 4194304, 1400832),
    (11, 8388608, 2797568),
    (16, 16777216, 5595136),
];

#[test]
fn largest_of_each_type(rt: HostRuntime) {
    for (kind, size, below) in LARGEST {
        let first = below | kind % 16 << 4 | 11;
        let second = kind / 16 << 31;
        let end = below.wrapping_add(size);
        assert_eq!(rt; number(texture_fits([first, second, 0, 0], end)), 0);
        assert_eq!(rt;
            number(texture_fits([first, second, 0, 0], end.wrapping_sub(1))),
            7
        );
        let lower = first.wrapping_sub(4096);
        assert_eq!(rt; number(texture_fits([lower, second, 0, 0], end)), 8);
    }
}

#[test]
fn places_of_levels(rt: HostRuntime) {
    let texture = Texture::of(&[0x1201, 0x02002000, 0x40001000, 0]);
    assert_eq!(rt; texture.faces(), 6);
    assert_eq!(rt; texture.levels(), 1);
    assert_eq!(rt; texture.is_unlisted(), false);
    assert_eq!(rt; texture.pixel_bytes(), 4);
    assert_eq!(rt; texture.level_width(1), 16);
    assert_eq!(rt; texture.level_height(1), 16);
    assert_eq!(rt; texture.level_tiling(1), Tiling::Lt);
    assert_eq!(rt; texture.level_size(1), 1024);
    assert_eq!(rt; texture.level_place(0, 1), Some(0xc00));
    assert_eq!(rt; texture.level_place(1, 1), Some(0x1c00));
    assert_eq!(rt; texture.level_place(5, 0), Some(0x6000));
    assert_eq!(rt; texture.fetch_place(1, 1, 4, 5), Some(0x1c00 + 64 * 5));
    assert_eq!(rt; texture.fetch_size(1), 64);
    assert_eq!(rt; texture.size_below(1), 1024);
    let low = Texture::of(&[0x1, 0x02002000, 0, 0]);
    assert_eq!(rt; low.is_unlisted(), false);
    assert_eq!(rt; low.levels(), 1);
    assert_eq!(rt; low.level_place(0, 1), None);
    assert_eq!(rt; low.fetch_place(0, 1, 0, 0), None);
}

// The levels of a 33x33 texture of 4 bytes, of a raster one, and of 33 blocks of ETC1.
#[test]
fn sizes_of_levels(rt: HostRuntime) {
    assert_eq!(rt; level_size(false, 33, 33, 4, 0), 16384);
    assert_eq!(rt; level_size(false, 33, 33, 4, 1), 4096);
    assert_eq!(rt; level_size(false, 33, 33, 4, 2), 1024);
    assert_eq!(rt; level_size(true, 33, 33, 4, 0), 36 * 33 * 4);
    assert_eq!(rt; level_size(true, 33, 33, 4, 6), 16);
    assert_eq!(rt; level_size(false, 33, 33, 8, 2), 2048);
}

// Level 2 of the 33x33 texture above has 16x16 pixels in Lt, four of them in a row of a microtile;
// a tile of T is 32 pixels wide at 4 bytes, and raster rows are aligned to a microtile's width.
#[test]
fn places_of_pixels(rt: HostRuntime) {
    assert_eq!(rt; pixel_place(Tiling::Lt, 16, 4, 3, 0), 12);
    assert_eq!(rt; pixel_place(Tiling::Lt, 16, 4, 4, 0), 64);
    assert_eq!(rt; pixel_place(Tiling::Lt, 16, 4, 0, 4), 256);
    assert_eq!(rt;
        pixel_place(Tiling::T, 33, 4, 33, 34),
        3 * 4096 + 2 * 16 + 4
    );
    assert_eq!(rt; pixel_place(Tiling::T, 33, 1, 8, 0), 64);
    assert_eq!(rt; pixel_place(Tiling::Raster, 33, 4, 1, 2), 4 * (2 * 36 + 1));
    assert_eq!(rt; microtile_place(Tiling::T, 33, 4, 8, 1), 4096 + 64 * 8);
    assert_eq!(rt; microtile_place(Tiling::Lt, 10, 8, 4, 1), 64 * 9);
    assert_eq!(rt; microtile_width(8), 2);
    assert_eq!(rt; microtile_height(8), 4);
}

// Levels of a 33x33 texture, a frame of 1920x1080, and one row of raster pixels over a microtile.
#[test]
fn sizes(rt: HostRuntime) {
    assert_eq!(rt; tiling_of(33, 33, 4), Tiling::T);
    assert_eq!(rt; surface_size(Tiling::T, 33, 33, 4), 16384);
    assert_eq!(rt; tiling_of(32, 32, 4), Tiling::T);
    assert_eq!(rt; surface_size(Tiling::T, 32, 32, 4), 4096);
    assert_eq!(rt; tiling_of(16, 16, 4), Tiling::Lt);
    assert_eq!(rt; surface_size(Tiling::Lt, 16, 16, 4), 1024);
    assert_eq!(rt; surface_size(Tiling::T, 1920, 1080, 4), 8355840);
    assert_eq!(rt; surface_size(Tiling::Raster, 5, 1, 4), 32);
}
