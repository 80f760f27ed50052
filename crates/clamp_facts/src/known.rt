//! What is known at an instruction.
ghost use Rattle.std.specs.Prelude.{◌≡◌, ◌+◌};
ghost use Rattle.qpu_isa.specs.Report.{IsRegister};
ghost use Rattle.shader_flow.specs.Flow.{word};
ghost use Rattle.clamp_facts.specs.Facts.{fact_at};

use crate::fact::Fact;
use crate::table::FactTable;
use field_words::Steps;
use qpu_isa::Reg;
use std::marker::Model;
use std::sync::ledger::Ledger;

/// The instruction at an index of a shader, how many uniforms are taken before it, and the table kept up to it.
#[derive(Drop)]
pub struct Known<'a> {
    pub code: &'a [u64],
    pub at: u32,
    pub count: u32,
    pub table: &'a FactTable,
}

impl<'a> Model for Known<'a> {
    ghost use Rattle.shader_flow.specs.Site.{SiteModel};
    ghost use Rattle.clamp_facts.specs.Upkeep.{IsKnownAt};

    ghost Value = { SiteModel };

    ghost view = { λ k. record { code = k.code.now; at = k.at } };

    ghost invariant = { λ k. IsKnownAt k.code.now k.at k.count k.table.now };
}

impl<'a> Known<'a> {
    /// Its word.
    #[inline]
    pub fn word(&self) -> u64
        ensures { result ≡ word self.now.code self.now.at }
    {
        self.code[self.at as usize]
    }

    /// What is known of the register here. One step.
    pub fn look<L: Ledger>(&self, reg: Reg, steps: &mut Steps<L>) -> Fact
        requires register { IsRegister reg }
        ensures value { result ≡ fact_at self.now.code self.now.at reg }
        ensures steps { steps.new ≡ steps.old + 1 }
    {
        self.table.get(reg, self.at, steps)
    }
}
