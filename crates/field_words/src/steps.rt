//! A counter of steps that exists in proofs alone.
ghost use Rattle.std.specs.Prelude.{◌≡◌, ◌<◌, ◌+◌, ℕ};

use std::marker::Model;
use std::sync::ledger::{Blank, Book, Ledger, Share};

/// How many steps were taken since it was made. It has no bytes at run time; contracts see it as a number, which only
/// `tick` changes. A function that is to be bounded takes `&mut Steps<L>` and calls `tick` where it does what is counted.
#[derive(Drop)]
pub struct Steps<L: Ledger> {
    book: Book<L>,
    share: Share<L>,
}

impl<L: Ledger> Model for Steps<L> {
    ghost Value = { ℕ };

    ghost view = { λ s. s.book.total };

    ghost invariant = { λ s. 0 < s.share.parts };
}

impl<L: Ledger> Steps<L> {
    /// A counter at 0, over a ledger that nothing else counts in. The caller of the function that takes the `blank` hands it
    /// in as `f::<Brand>(.., Blank::new(1))` and picks the ledger in its Invariants.antt:
    /// `ghosts-f a = record { name = a.blank.name; parts = a.blank.parts }` (with `g a` in place of `a` in `main` and in tests).
    pub fn new(blank: Blank) -> Steps<L>
        requires name { blank.name ≡ L.name }
        requires parts { blank.parts ≡ L.parts }
        requires some { 0 < blank.parts }
        ensures { result ≡ 0 }
    {
        let (book, share) = blank.open::<L>();
        Steps { book, share }
    }

    /// Counts one step.
    pub fn tick(&mut self)
        ensures { self.new ≡ self.old + 1 }
    {
        self.book.add(&mut self.share, 1);
    }
}
