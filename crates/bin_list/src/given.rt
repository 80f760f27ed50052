//! What a binner list is checked against.
ghost use Rattle.buffer_table.specs.Handles.{AreNumbersOf};

use buffer_table::{Handles, Table};
use std::marker::Model;

/// The length of the list in bytes, the number of shader states that its job declares, and the job's buffers and handles.
#[derive(Drop)]
pub(crate) struct Given<'a> {
    pub(crate) size: usize,
    pub(crate) declared: u32,
    pub(crate) table: &'a Table<'a>,
    pub(crate) handles: &'a Handles<'a>,
}

impl<'a> Model for Given<'a> {
    ghost use Rattle.bin_list.specs.Rules.{GivenModel};
    ghost use Rattle.buffer_table.specs.Handles.{AreNumbersOf};

    ghost Value = { GivenModel };

    ghost view = { λ g. record { size = g.size; declared = g.declared; table = g.table.now; handles = g.handles.now } };

    ghost invariant = { λ g. AreNumbersOf g.table.now g.handles.now };
}
