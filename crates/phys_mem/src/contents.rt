//! The bytes that lie in a block, as something that can be owned, lent and given away.
ghost use Rattle.std.specs.Prelude.{ℕ, List, length};
ghost use Rattle.std.specs.Borrow.{full_share, Array, u8};
ghost use Rattle.std.specs.Ptr.{lies_at};
ghost use denote.RawPtr.{Ptr};
ghost use denote.Struct.Lending.{lent_at};

use std::marker::Model;

/// The bytes that lie at `at`. It takes no space: pointer and length stand beside it.
pub(crate) struct Contents {
    ghost at: { Ptr },
    ghost bytes: { List ℕ },
}

impl Model for Contents {
    ghost also_owns = { λ c. lies_at (Array u8 (length c.bytes)) full_share c.at c.bytes };

    ghost also_shares = { λ c _ κ. lent_at (Array u8 (length c.bytes)) c.at c.bytes κ };
}
