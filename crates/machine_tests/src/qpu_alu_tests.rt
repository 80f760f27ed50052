//! Each operation of both units, worked by hand.
use qpu_alu::{add_result, mul_result};

// operation, operands, result
const ADD: [(u8, u32, u32, u32); 28] = [
    (0, 7, 9, 0),
    (12, 0xffffffff, 2, 1),
    (13, 1, 2, 0xffffffff),
    (14, 0x80000000, 33, 0x40000000),
    (15, 0x80000000, 4, 0xf8000000),
    (15, 0x40000000, 36, 0x04000000),
    (15, 0xffffffff, 31, 0xffffffff),
    (16, 0x12345678, 8, 0x78123456),
    (16, 0x12345678, 32, 0x12345678),
    (17, 0x12345678, 8, 0x34567800),
    (17, 0x12345678, 32, 0x12345678),
    (18, 0xffffffff, 1, 0xffffffff),
    (18, 0x80000000, 0x7fffffff, 0x80000000),
    (18, 5, 3, 3),
    (19, 0xffffffff, 0, 0),
    (19, 0xfffffffe, 0xffffffff, 0xffffffff),
    (19, 5, 3, 5),
    (20, 0xff00ff00, 0x0ff00ff0, 0x0f000f00),
    (21, 0xff00ff00, 0x0ff00ff0, 0xfff0fff0),
    (22, 0xff00ff00, 0x0ff00ff0, 0xf0f0f0f0),
    (23, 0x0000ffff, 5, 0xffff0000),
    (24, 0, 5, 32),
    (24, 1, 5, 31),
    (24, 0x80000000, 5, 0),
    (30, 0x01ff80fe, 0x02018001, 0x03ffffff),
    (30, 0x00000001, 0x00000002, 0x00000003),
    (31, 0x01ff80fe, 0x02018001, 0x00fe00fd),
    (31, 0x05060708, 0x04040404, 0x01020304),
];

#[test]
fn add_unit(rt: HostRuntime) {
    for (op, a, b, result) in ADD {
        assert!(rt; op < 32);
        assert_eq!(rt; add_result(op, a, b), Some(result));
    }
}

const MUL: [(u8, u32, u32, u32); 8] = [
    (0, 7, 9, 0),
    (2, 0xff000003, 0x01000005, 15),
    (2, 0x00ffffff, 0x00ffffff, 0xfe000001),
    (4, 0x01ff80fe, 0x02018001, 0x01018001),
    (5, 0x01ff80fe, 0x02018001, 0x02ff80fe),
    (6, 0x01ff80fe, 0x02018001, 0x03ffffff),
    (7, 0x01ff80fe, 0x02018001, 0x00fe00fd),
    (7, 0, 0xffffffff, 0),
];

#[test]
fn multiply_unit(rt: HostRuntime) {
    for (op, a, b, result) in MUL {
        assert!(rt; op < 8);
        assert_eq!(rt; mul_result(op, a, b), Some(result));
    }
}

#[test]
fn free_results(rt: HostRuntime) {
    for op in [1, 2, 3, 4, 5, 6, 7, 8, 9, 10, 11, 25, 26, 27, 28, 29] {
        assert!(rt; op < 32);
        assert_eq!(rt; add_result(op, 1, 1), None);
    }
    assert_eq!(rt; mul_result(1, 1, 1), None);
    assert_eq!(rt; mul_result(3, 1, 1), None);
}
