//! Shaders with their answers, worked out by hand.
ghost use Rattle.std.specs.Prelude.{◌≤◌, length};
ghost use Rattle.field_words.specs.Sizes.{most_words};

use field_words::NoMemory;
use job_bound::find_wait;
use shader_flow::flow;
use std::alloc::Global;
use std::test::Fail;

// `nop`
const NOP: u64 = 0x100009e7009e7000;
// `alu sig=3`: program end
const END: u64 = 0x300009e7009e7000;
// `alu sig=10`: load from TMU 0
const LOAD: u64 = 0xa00009e7009e7000;
// `alu sig=11`: load from TMU 1
const LOAD_1: u64 = 0xb00009e7009e7000;
// `alu ca=1 wa=56`: S of TMU 0 = r0
const SEND: u64 = 0x10020e27009e7000;
// `alu ca=1 wa=57`: T of TMU 0 = r0
const SETUP: u64 = 0x10020e67009e7000;
// `alu sig=2`: switch
const SWITCH: u64 = 0x200009e7009e7000;
// `br imm=8`: to the fifth instruction after it
const BRANCH: u64 = 0xf00809e700000008;

fn wait_of(alloc: Global, code: &[u64]) -> Result<Option<u64>, NoMemory>
    requires few { length code.now ≤ most_words }
{
    let flow = flow(alloc, code)?;
    Ok(find_wait(code, &flow, 0))
}

#[test]
fn served(rt: HostRuntime) -> Result<(), Fail> {
    assert_eq!(rt;
        wait_of(rt.alloc(), &[SEND, NOP, LOAD, END, NOP, NOP])?,
        None
    );
    let four = [
        SEND, SEND, SEND, SEND, LOAD, SEND, LOAD, LOAD, LOAD, LOAD, END, NOP, NOP,
    ];
    assert_eq!(rt; wait_of(rt.alloc(), &four)?, None);
    let beside = [BRANCH, NOP, NOP, NOP, NOP, SEND, LOAD, END, NOP, NOP];
    assert_eq!(rt; wait_of(rt.alloc(), &beside)?, None);
    Ok(())
}

#[test]
fn waits(rt: HostRuntime) -> Result<(), Fail> {
    assert_eq!(rt; wait_of(rt.alloc(), &[LOAD, END, NOP, NOP])?, Some(0));
    assert_eq!(rt;
        wait_of(rt.alloc(), &[SEND, LOAD_1, END, NOP, NOP])?,
        Some(8)
    );
    let five = [
        SEND, SEND, SEND, SEND, SEND, LOAD, LOAD, LOAD, LOAD, LOAD, END, NOP, NOP,
    ];
    assert_eq!(rt; wait_of(rt.alloc(), &five)?, Some(32));
    let nine_words = [
        SETUP, SETUP, SETUP, SEND, SETUP, SETUP, SETUP, SEND, SEND, LOAD, LOAD, LOAD, END, NOP, NOP,
    ];
    assert_eq!(rt; wait_of(rt.alloc(), &nine_words)?, Some(64));
    let threaded = [
        SEND, SEND, SEND, SWITCH, NOP, NOP, LOAD, LOAD, LOAD, END, NOP, NOP,
    ];
    assert_eq!(rt; wait_of(rt.alloc(), &threaded)?, Some(16));
    assert_eq!(rt; wait_of(rt.alloc(), &[SEND, END, NOP, NOP])?, Some(8));
    assert_eq!(rt; wait_of(rt.alloc(), &[SETUP, END, NOP, NOP])?, Some(8));
    let over = [BRANCH, NOP, NOP, NOP, SEND, LOAD, END, NOP, NOP];
    assert_eq!(rt; wait_of(rt.alloc(), &over)?, Some(40));
    Ok(())
}
