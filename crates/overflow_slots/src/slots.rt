//! Who holds the slots: for each slot 0, or its job's number and one.
ghost use Rattle.std.specs.Prelude.{◌≡◌, ◌≤◌, ◌<◌, ◌==◌, IfSome, length, slice_index};
ghost use Rattle.overflow_slots.specs.Search.{first_where, count_where};
ghost use Rattle.overflow_slots.specs.Desk.{AreFreed};

/// The least free slot.
pub fn least_free(owners: &[u8; 32], slots: u32) -> Option<u32>
    requires { slots ≤ 32 }
    ensures first { result ≡ first_where (λ slot. slice_index owners.now slot == 0) 0 slots }
    ensures inside { IfSome result (λ slot. slot < slots) }
{
    for slot in 0..slots {
        if owners[slot as usize] == 0 {
            return Some(slot);
        }
    }
    None
}

/// How many slots are free.
pub fn free_count(owners: &[u8; 32], slots: u32) -> u32
    requires { slots ≤ 32 }
    ensures { result ≡ count_where (λ slot. slice_index owners.now slot == 0) slots }
{
    let mut count = 0;
    for slot in 0..slots {
        if owners[slot as usize] == 0 {
            count += 1;
        }
    }
    count
}

/// Frees what this one holds.
pub fn free_all(owners: &mut [u8; 32], owner: u8)
    ensures freed { AreFreed owner owners.old owners.new }
    ensures sized { length owners.new ≡ 32 }
{
    for slot in 0..32 {
        if owners[slot] == owner {
            owners[slot] = 0;
        }
    }
}
