//! The rules on the whole shader.
ghost use Rattle.std.specs.Prelude.{◌≡◌, ◌<◌, ◌||◌};
ghost use Rattle.field_words.specs.Questions.{first_of};
ghost use Rattle.shader_flow.specs.Flow.{word, IsFlow};
ghost use Rattle.shader_check.specs.Rules.{uses_upper, s2, s26, whole_questions};

use qpu_isa::writes::{names_upper, reads_upper};
use shader_flow::{Flow, ShaderRule, checked};

/// The number of the rule that the shader has no whole words, for whoever cuts a buffer into words.
pub const S1_NO_WORDS: u8 = 1;

// The instruction uses a file register 16 to 31.
#[tactic(auto, unfolding(crate::specs::Rules::uses_upper))]
fn uses_upper(word: u64) -> bool
    ensures { result ≡ uses_upper word }
{
    reads_upper(word) || names_upper(word)
}

// A thread that shares its processor uses the other's registers.
#[tactic(auto, unfolding(crate::specs::Rules::s26))]
fn breaks_s26(code: &[u64], flow: &Flow) -> bool
    requires { IsFlow code.now flow.now }
    ensures { result ≡ s26 code.now }
{
    if !flow.threaded {
        return false;
    }
    for at in 0..checked(code, flow.end) {
        if uses_upper(code[at]) {
            return true;
        }
    }
    false
}

// The program end, or one of its two further instructions, is missing.
#[tactic(auto, unfolding(crate::specs::Rules::s2))]
fn breaks_s2(code: &[u64], flow: &Flow) -> bool
    requires { IsFlow code.now flow.now }
    ensures { result ≡ s2 code.now }
{
    code.len() <= flow.end as usize + 2
}

/// The number of the first of the rules on the whole shader that is broken.
#[tactic(auto, unfolding(crate::specs::Rules::whole_questions, crate::specs::Rules::s1))]
pub(crate) fn whole_fault(code: &[u64], flow: &Flow) -> Option<u8>
    requires { IsFlow code.now flow.now }
    ensures { result ≡ first_of (whole_questions code.now) }
{
    if code.is_empty() {
        return Some(ShaderRule::NoWords.number());
    }
    if breaks_s2(code, flow) {
        return Some(ShaderRule::NoEnd.number());
    }
    if breaks_s26(code, flow) {
        return Some(ShaderRule::UpperRegisters.number());
    }
    None
}
