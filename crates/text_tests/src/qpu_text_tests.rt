//! The familiar texts of instructions.
use qpu_text::put_familiar;
use std::test::*;

#[test]
fn each_kind_of_instruction_has_its_text(rt: HostRuntime) -> Result<(), Fail> {
    let rows: [(u64, &str); 9] = [
        (0x1000_09e7_009e_7000, "nop"),
        (0x1002_1e27_0c82_7380, "add tmu0_s, r1, uniform"),
        (0xd002_0827_0480_0dc0, "fmax r0, uniform, 0"),
        (0x1002_58b4_812e_7376, "fadd r2, r1, r5; mov recip, ra11"),
        (0x1142_5846_889c_36ff, "itof r1, r3; mov ra6.8a, rb3"),
        (0xf018_09e7_0000_0040, "branch all zero clear, +64"),
        (0xf0f8_09e7_ffff_ffd8, "branch always, -40"),
        (0xe002_4c67_0040_1a00, "load vpm_read_setup, 0x00401a00"),
        (0x3000_09e7_0082_7000, "nop; reads uniform; program end"),
    ];
    for (word, text) in rows {
        let mut out = Vec::new(rt.alloc());
        put_familiar(&mut out, word)?;
        assert_eq!(rt; out.as_slice(), text.as_bytes());
    }
    Ok(())
}
