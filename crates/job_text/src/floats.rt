//! Numbers with a fraction.
ghost use Rattle.std.specs.Prelude.{◌≡◌, ◌<◌, ◌++◌, ◌+◌, ◌^◌, drop, decimal, OnOk};
ghost use Rattle.job_text.specs.Floats.{exponent_of, significand_of, millionths_of, millionths_text, size_text, float_text, sixteenths_text};

use crate::numbers::put_number;
use itoa::Buffer;
use qpu_text::named;
use std::alloc::AllocError;

/// The fractions of a number of sixteenths.
pub(crate) const SIXTEENTHS: [&str; 16] = [
    ".0", ".0625", ".125", ".1875", ".25", ".3125", ".375", ".4375", ".5", ".5625", ".625",
    ".6875", ".75", ".8125", ".875", ".9375",
];

#[tactic(auto, unfolding(crate::specs::Floats::exponent_of))]
fn exponent(bits: u32) -> u32
    ensures value { result ≡ exponent_of bits }
    ensures small { result < 256 }
{
    bits / (1 << 23) % 256
}

#[tactic(auto, unfolding(crate::specs::Floats::significand_of))]
fn significand(bits: u32) -> u128
    ensures value { result ≡ significand_of bits }
    ensures small { result < 16777216 }
{
    let low = u128::from(bits % (1 << 23));
    if exponent(bits) == 0 {
        low
    } else {
        (1 << 23) + low
    }
}

#[tactic(auto, unfolding(crate::specs::Floats::millionths_of))]
fn millionths(bits: u32) -> u128
    requires { exponent_of bits < 169 }
    ensures value { result ≡ millionths_of bits }
    ensures small { result < 2 ^ 64 }
{
    let exponent = exponent(bits);
    let size = significand(bits) * 1_000_000;
    if exponent < 90 {
        0
    } else if exponent < 150 {
        (size + (1 << (149 - exponent))) / (1 << (150 - exponent))
    } else {
        size * (1 << (exponent - 150))
    }
}

fn put_six(out: &mut Vec<u8>, count: usize) -> Result<(), AllocError>
    requires { count < 1000000 }
    ensures { OnOk result (out.new.items ≡ out.old.items ++ drop 1 (decimal (1000000 + count))) }
{
    let mut buffer = Buffer::new();
    match buffer.format(1_000_000 + count).as_bytes().split_first() {
        None => Ok(()),
        Some((_, digits)) => out.extend_from_slice(digits),
    }
}

#[tactic(auto, unfolding(crate::specs::Floats::millionths_text))]
fn put_millionths(out: &mut Vec<u8>, count: usize) -> Result<(), AllocError>
    ensures { OnOk result (out.new.items ≡ out.old.items ++ millionths_text count) }
{
    put_number(out, count / 1_000_000)?;
    out.extend_from_slice(b".")?;
    put_six(out, count % 1_000_000)
}

#[tactic(auto, unfolding(crate::specs::Floats::size_text))]
fn put_size(out: &mut Vec<u8>, bits: u32) -> Result<(), AllocError>
    ensures { OnOk result (out.new.items ≡ out.old.items ++ size_text bits) }
{
    if exponent(bits) == 255 {
        if bits % (1 << 23) == 0 {
            out.extend_from_slice(b"infinite")
        } else {
            out.extend_from_slice(b"not a number")
        }
    } else if exponent(bits) > 168 {
        out.extend_from_slice(b"over 4398046511103")
    } else {
        put_millionths(out, millionths(bits) as usize)
    }
}

/// Appends the value of a float in brackets, with six digits behind the point.
#[tactic(auto, unfolding(crate::specs::Floats::float_text))]
pub(crate) fn put_float(out: &mut Vec<u8>, bits: u32) -> Result<(), AllocError>
    ensures { OnOk result (out.new.items ≡ out.old.items ++ float_text bits) }
{
    if bits < 1 << 31 {
        out.extend_from_slice(b" (")?;
    } else {
        out.extend_from_slice(b" (-")?;
    }
    put_size(out, bits)?;
    out.extend_from_slice(b")")
}

/// Appends in brackets the value of a signed number that counts sixteenths.
#[tactic(auto, unfolding(crate::specs::Floats::sixteenths_text))]
pub(crate) fn put_sixteenths(out: &mut Vec<u8>, count: u16) -> Result<(), AllocError>
    ensures { OnOk result (out.new.items ≡ out.old.items ++ sixteenths_text count) }
{
    let size = if count < 32768 {
        u32::from(count)
    } else {
        65536 - u32::from(count)
    };
    if count < 32768 {
        out.extend_from_slice(b" (")?;
    } else {
        out.extend_from_slice(b" (-")?;
    }
    put_number(out, (size / 16) as usize)?;
    out.extend_from_slice(named(&SIXTEENTHS, (size % 16) as u8).as_bytes())?;
    out.extend_from_slice(b")")
}
