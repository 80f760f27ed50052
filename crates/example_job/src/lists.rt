//! The binner list and the shader records of an example.
ghost use Rattle.std.specs.Prelude.{◌≡◌, ◌≤◌, ◌++◌, ◌∷◌, [], IfOk, OnOk};
ghost use Rattle.example_job.specs.Lists.{config, state, triangle, bin_of, records_of};

use std::alloc::{AllocError, Global};

// The binning mode, and binning starts.
fn put_head(list: &mut Vec<u8>, across: u8, down: u8) -> Result<(), AllocError>
    ensures { OnOk result (list.new.items ≡ list.old.items ++ (config across down ++ 6 ∷ [])) }
{
    list.extend_from_slice(&[112, 0, 0, 0, 0, 0, 0, 0, 0, 0, 0, 0, 0, across, down, 0, 6])?;
    Ok(())
}

// A shader state, and the triangle of number j.
fn put_state(list: &mut Vec<u8>, j: u32) -> Result<(), AllocError>
    ensures { OnOk result (list.new.items ≡ list.old.items ++ (state ++ triangle j)) }
{
    let [j0, j1, j2, j3] = j.to_le_bytes();
    list.extend_from_slice(&[64, 1, 0, 0, 0, 33, 4, 3, 0, 0, 0, j0, j1, j2, j3])?;
    Ok(())
}

/// The binner list of a frame of this many tiles, with this many triangles.
#[tactic(auto, unfolding(crate::specs::Lists::bin_of), using(crate::proofs::Texts::states_more, crate::proofs::Texts::states_end))]
pub(crate) fn bin_list(
    alloc: Global,
    across: u8,
    down: u8,
    count: u32,
) -> Result<Vec<u8>, AllocError>
    requires { count ≤ 4000 }
    ensures { IfOk result (λ list. list.items ≡ bin_of across down count) }
{
    let mut list = Vec::with_capacity(alloc, 15 * count as usize + 19)?;
    put_head(&mut list, across, down)?;
    for j in 0..count {
        put_state(&mut list, j)?;
    }
    list.extend_from_slice(&[7, 4])?;
    Ok(list)
}

// A shader record: flag byte 1 and an attribute of 16 bytes.
const RECORD: [u8; 60] = [
    0, 0, 0, 0, 0, 0, 0, 0, 0, 0, 0, 0, 1, 0, 0, 0, 1, 0, 0, 0, 0, 0, 0, 0, 0, 0, 0, 0, 0, 0, 0, 0,
    0, 0, 0, 0, 0, 0, 0, 0, 0, 0, 0, 0, 0, 0, 0, 0, 0, 0, 0, 0, 0, 0, 0, 0, 15, 16, 0, 0,
];

/// So many shader records.
#[tactic(auto, unfolding(crate::specs::Lists::records_of), using(crate::proofs::Texts::records_more, crate::proofs::Texts::records_end))]
pub(crate) fn records(alloc: Global, count: u32) -> Result<Vec<u8>, AllocError>
    requires { count ≤ 4000 }
    ensures { IfOk result (λ bytes. bytes.items ≡ records_of count) }
{
    let mut bytes = Vec::with_capacity(alloc, 60 * count as usize)?;
    for _ in 0..count {
        bytes.extend_from_slice(&RECORD)?;
    }
    Ok(bytes)
}
