//! Who holds each page, and runs of free pages.
ghost use Rattle.std.specs.Prelude.{◌≡◌, ◌≤◌, ◌+◌, length, IfOk, IfSome};
ghost use Rattle.field_words.specs.Writes.{zeros};
ghost use Rattle.session_pages.specs.Map.{is_free, held_by};
ghost use Rattle.session_pages.specs.Runs.{page_count, first_run as lowest_run};

use crate::pages::PAGE_COUNT;
use field_words::NoMemory;
use std::alloc::Global;

/// The lowest run of so many free pages.
pub fn first_run(owners: &[u16], pages: u32) -> Option<u32>
    requires some { 1 ≤ pages }
    requires sized { length owners.now ≡ page_count }
    ensures first { result ≡ lowest_run (is_free owners.now) pages }
    ensures inside { IfSome result (λ first. first + pages ≤ page_count) }
{
    let mut first = 0;
    for page in 0..PAGE_COUNT {
        if owners[page as usize] != 0 {
            first = page + 1;
        } else if page + 1 - first == pages {
            return Some(first);
        }
    }
    None
}

/// The pages from one on are held by this owner.
pub fn hold(owners: &mut Vec<u16>, first: u32, pages: u32, owner: u16)
    requires inside { first + pages ≤ page_count }
    requires sized { length owners.old.items ≡ page_count }
    ensures { owners.new.items ≡ held_by owners.old.items first pages owner }
{
    owners[first as usize..(first + pages) as usize].fill(owner);
}

/// So many pages, all free.
#[tactic(auto, unfolding(field_words::specs::Writes::zeros))]
pub fn all_free(alloc: Global, count: usize) -> Result<Vec<u16>, NoMemory>
    ensures { IfOk result (λ owners. owners.items ≡ zeros count) }
{
    Ok(vec![in alloc; 0u16; count]?)
}
