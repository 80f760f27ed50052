//! The table of facts.
ghost use Rattle.std.specs.Prelude.{◌≡◌, ◌<◌, ◌≤◌, ◌+◌};
ghost use Rattle.field_words.specs.Sizes.{most_words};
ghost use Rattle.qpu_isa.specs.Report.{IsRegister};
ghost use Rattle.clamp_facts.specs.Table.{Table, entry_of, with_entry, fact_seen, blank_table, without_accumulators};
ghost use Rattle.clamp_facts.specs.Facts.{is_delayed};

use crate::fact::{Entry, Fact};
use field_words::Steps;
use qpu_isa::Reg;
use qpu_isa::writes::is_accumulator;
use std::marker::Model;
use std::sync::ledger::Ledger;

// The entry of a register of which nothing is known.
const NO_ENTRY: Entry = Entry {
    fact: Fact::Nothing,
    place: 0,
};

/// An entry for each register that a unit can write: A0 to A31, B0 to B31 and r0 to r3.
#[derive(Drop)]
pub struct FactTable {
    a: [Entry; 32],
    b: [Entry; 32],
    acc: [Entry; 4],
}

impl Model for FactTable {
    ghost Value = { Table };

    ghost view = { λ t. record { a = t.a; b = t.b; acc = t.acc } };
}

// A file register can't be read yet in the instruction after its write.
#[tactic(auto, unfolding(crate::specs::Facts::is_delayed))]
fn is_delayed(place: u32, at: u32, reg: Reg) -> bool
    ensures { result ≡ is_delayed place at reg }
{
    !is_accumulator(reg) && place < at && at - place == 1
}

// What an entry says at `at`.
#[tactic(auto, unfolding(crate::specs::Table::fact_seen))]
fn seen(entry: Entry, at: u32, reg: Reg) -> Fact
    ensures { result ≡ fact_seen entry at reg }
{
    if is_delayed(entry.place, at, reg) {
        return Fact::Nothing;
    }
    entry.fact
}

impl FactTable {
    /// Nothing is known of any register.
    pub fn new() -> FactTable
        ensures { result ≡ blank_table }
    {
        FactTable {
            a: [NO_ENTRY; 32],
            b: [NO_ENTRY; 32],
            acc: [NO_ENTRY; 4],
        }
    }

    /// What is known of the register in the instruction at `at`: of a file register whose entry was put in the instruction
    /// before, nothing yet.
    pub fn get<L: Ledger>(&self, reg: Reg, at: u32, steps: &mut Steps<L>) -> Fact
        requires register { IsRegister reg }
        requires place { at ≤ most_words }
        ensures fact { result ≡ fact_seen (entry_of self.now reg) at reg }
        ensures steps { steps.new ≡ steps.old + 1 }
    {
        steps.tick();
        match reg {
            Reg::A(number) => seen(self.a[number as usize], at, reg),
            Reg::B(number) => seen(self.b[number as usize], at, reg),
            Reg::Acc(number) => seen(self.acc[number as usize], at, reg),
        }
    }

    /// The instruction at `at` makes this fact of the register. All other entries stay.
    pub fn put<L: Ledger>(&mut self, reg: Reg, fact: Fact, at: u32, steps: &mut Steps<L>)
        requires register { IsRegister reg }
        requires place { at ≤ most_words }
        ensures entry { self.new ≡ with_entry self.old reg (record { fact = fact; place = at }) }
        ensures steps { steps.new ≡ steps.old + 1 }
    {
        steps.tick();
        let entry = Entry { fact, place: at };
        match reg {
            Reg::A(number) => self.a[number as usize] = entry,
            Reg::B(number) => self.b[number as usize] = entry,
            Reg::Acc(number) => self.acc[number as usize] = entry,
        }
    }

    /// Nothing is known of any register any more.
    pub fn forget_all<L: Ledger>(&mut self, steps: &mut Steps<L>)
        ensures entries { self.new ≡ blank_table }
        ensures steps { steps.new ≡ steps.old + 1 }
    {
        steps.tick();
        self.a = [NO_ENTRY; 32];
        self.b = [NO_ENTRY; 32];
        self.acc = [NO_ENTRY; 4];
    }

    /// Nothing is known of r0 to r3 any more. All other entries stay.
    pub fn forget_accumulators<L: Ledger>(&mut self, steps: &mut Steps<L>)
        ensures entries { self.new ≡ without_accumulators self.old }
        ensures steps { steps.new ≡ steps.old + 1 }
    {
        steps.tick();
        self.acc = [NO_ENTRY; 4];
    }
}
