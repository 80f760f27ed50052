//! Scripts, and their answers line by line.
ghost use Rattle.std.specs.Prelude.{◌≡◌, ◌<◌, ◌^◌, ◌+◌, ℕ, List, Bool, length, IfOk, OnOk, IfErr, None};
ghost use Rattle.script.specs.Lines.{first_malformed as malformed};
ghost use Rattle.script.specs.Replies.{Adds, KeepsAtFault, replies, IsScriptFault};

use super::lines::next_line;
use field_words::Stop;
use std::alloc::{AllocError, Global};

/// Whoever answers the lines of a script, one after the other.
pub trait Clerk {
    /// What lines did, in the words of a definition.
    ghost Past: { Type 0 };

    /// It stands for this past, which so many lines made.
    ghost Stands: { ℕ → Past → Self → Type 0 };

    /// The line is well formed.
    ghost formed: { List ℕ → Bool };

    /// What a line is answered after a past.
    ghost reply: { Past → List ℕ → List ℕ };

    /// The past that it leaves.
    ghost after: { Past → List ℕ → Past };

    /// Whether the line is well formed.
    fn is_formed(line: &[u8]) -> bool
        ensures { result ≡ formed line.now };

    /// Puts the answer to one more line.
    fn put_reply(&mut self, alloc: Global, out: &mut String, line: &[u8]) -> Result<(), AllocError>
        requires { (lines : ℕ) × (past : Past) × (lines < 2 ^ 32) × Stands lines past self.old }
        ensures line { (n : ℕ) (past : Past) → Stands n past self.old
            → OnOk result (Adds out.old out.new (reply past line.now)) }
        ensures kept { (n : ℕ) (past : Past) → Stands n past self.old
            → OnOk result (Stands (n + 1) (after past line.now) self.new) };
}

// The number of the first line that isn't well formed.
fn first_malformed<C: Clerk>(text: &[u8]) -> Option<u32>
    requires { length text.now < 2 ^ 32 }
    ensures { result ≡ malformed C.formed text.now }
{
    let mut rest = text;
    let mut line: u64 = 1;
    while !rest.is_empty() {
        let cut = next_line(rest);
        if !C::is_formed(cut.first) {
            return Some(line as u32);
        }
        line += 1;
        rest = cut.rest;
    }
    None
}

/// Answers a script: the answers to its lines, one after the other. The fault is the number, from 1, of the first line that isn't
/// well formed; no line is answered then. An empty script is answered by nothing.
///
/// A script's lines end at line feeds, and the last one may lack it.
pub fn answer<C: Clerk>(alloc: Global, clerk: &mut C, text: &[u8]) -> Result<Vec<u8>, Stop<u32>>
    requires begins { (past : C.Past) × C.Stands 0 past clerk.old }
    requires length { length text.now < 2 ^ 32 }
    ensures formed { OnOk result (malformed C.formed text.now ≡ None) }
    ensures answers { (past : C.Past) → C.Stands 0 past clerk.old
        → IfOk result (λ out. out.items ≡ replies C.reply C.after past text.now) }
    ensures fault { IfErr result (IsScriptFault (malformed C.formed text.now)) }
    ensures same { IfErr result (KeepsAtFault clerk.old clerk.new) }
{
    if let Some(line) = first_malformed::<C>(text) {
        return Err(Stop::Fault(line));
    }
    let mut out = String::new(alloc);
    let mut rest = text;
    while !rest.is_empty() {
        let cut = next_line(rest);
        clerk.put_reply(alloc, &mut out, cut.first)?;
        rest = cut.rest;
    }
    Ok(out.into_bytes())
}
