//! The memory and its pages.
ghost use Rattle.std.specs.Prelude.{◌≡◌, ◌≤◌, ◌<◌, ◌+◌, ◌^◌, length, IfOk, IfSome};
ghost use Rattle.field_words.specs.Writes.{with_bytes, zeros};
ghost use Rattle.phys_mem.specs.Window.{window_of};
ghost use Rattle.session_pages.specs.Map.{all_free as all_free_map, free_run, with_run, without_run, with_part, place_of, memory_size};
ghost use Rattle.session_pages.specs.Runs.{page_count};

use crate::owners::{all_free, first_run, hold};
use field_words::{NoMemory, PAGE_SIZE};
use std::alloc::Global;
use std::marker::Model;

/// How many pages there are.
pub const PAGE_COUNT: u32 = 4096;

/// Where they begin.
pub const FIRST_PLACE: u32 = 4_718_592;

/// The bytes of the memory.
pub const MEMORY_SIZE: u32 = 21_495_808;

/// The memory, and for each page who holds it: 0 for a free page, else its owner's number.
#[derive(Drop)]
pub struct Pages {
    memory: Vec<u8>,
    owners: Vec<u16>,
}

impl Model for Pages {
    ghost use Rattle.session_pages.specs.Map.{PageMap, IsWhole};

    ghost Value = { PageMap };

    ghost view = { λ p. record { memory = p.memory.items; owners = p.owners.items } };

    ghost invariant = { λ p. IsWhole p.memory.items p.owners.items };
}

fn place_of_page(page: u32) -> u32
    requires { page ≤ page_count }
    ensures { result ≡ place_of page }
{
    FIRST_PLACE + PAGE_SIZE * page
}

// So many zero bytes.
#[tactic(auto, unfolding(field_words::specs::Writes::zeros))]
fn zero_bytes(alloc: Global, count: usize) -> Result<Vec<u8>, NoMemory>
    ensures { IfOk result (λ bytes. bytes.items ≡ zeros count) }
{
    Ok(vec![in alloc; 0u8; count]?)
}

// Zeros over the `len` bytes from `place` on.
#[tactic(auto, unfolding(field_words::specs::Writes::zeros))]
fn clear(memory: &mut Vec<u8>, place: u32, len: u32)
    requires inside { place + len ≤ length memory.old.items }
    requires small { place + len < 2 ^ 32 }
    ensures { memory.new.items ≡ with_bytes memory.old.items place (zeros len) }
{
    memory[place as usize..(place + len) as usize].fill(0);
}

impl Pages {
    /// A memory of zero bytes, all pages free. It may run out of memory.
    pub fn new(alloc: Global) -> Result<Pages, NoMemory>
        ensures { IfOk result (λ pages. pages ≡ all_free_map) }
    {
        let memory = zero_bytes(alloc, MEMORY_SIZE as usize)?;
        let owners = all_free(alloc, PAGE_COUNT as usize)?;
        Ok(Pages { memory, owners })
    }

    /// The bytes of the memory. There are always as many.
    pub fn size(&self) -> u32
        ensures value { result ≡ memory_size }
        ensures sized { length self.now.memory ≡ memory_size }
    {
        self.memory.len() as u32
    }

    /// Takes the lowest run of so many free pages, and gives its first page. `None` comes exactly where there is no such run, and
    /// changes nothing. The pages' bytes stay as they are. It takes no memory.
    pub fn take(&mut self, pages: u32, owner: u16) -> Option<u32>
        requires { 1 ≤ pages }
        ensures first { result ≡ free_run self.old pages }
        ensures inside { IfSome result (λ first. first + pages ≤ page_count) }
        ensures taken { self.new ≡ with_run self.old pages owner result }
    {
        let first = first_run(&self.owners, pages)?;
        hold(&mut self.owners, first, pages, owner);
        Some(first)
    }

    /// Gives so many pages back, from one on: they are free, and all their bytes zero. It takes no memory.
    pub fn give_back(&mut self, first: u32, pages: u32)
        requires { first + pages ≤ page_count }
        ensures { self.new ≡ without_run self.old first pages }
    {
        let place = place_of_page(first);
        clear(&mut self.memory, place, PAGE_SIZE * pages);
        hold(&mut self.owners, first, pages, 0);
    }

    /// Puts these bytes into the memory, from a page's byte `at` on. It takes no memory.
    pub fn write(&mut self, first: u32, at: u32, part: &[u8])
        requires page { first ≤ page_count }
        requires inside { place_of first + at + length part.now ≤ memory_size }
        ensures { self.new ≡ with_part self.old first at part.now }
    {
        let place = (place_of_page(first) + at) as usize;
        self.memory[place..place + part.len()].copy_from_slice(part);
    }

    /// The `len` bytes from a page's byte `at` on. It may run out of memory.
    pub fn read(&self, alloc: Global, first: u32, at: u32, len: u32) -> Result<Vec<u8>, NoMemory>
        requires page { first ≤ page_count }
        requires inside { place_of first + at + len ≤ memory_size }
        ensures { IfOk result (λ bytes. bytes.items
            ≡ window_of self.now.memory (place_of first + at) len) }
    {
        let place = (place_of_page(first) + at) as usize;
        Ok(Vec::from_slice(alloc, &self.memory[place..place + len as usize])?)
    }
}
