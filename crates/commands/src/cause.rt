//! Why a command refuses, as a line for a person; and the notes of a shader.
ghost use Rattle.std.specs.Prelude.{◌≡◌, Some};
ghost use Rattle.commands.specs.Cause.{cause_text, is_bare, report_text, text_hint, kind_of, shader_rule, strict_rule, level_rule, size_line, named_text};

use super::scripts::Script;
use super::word_fault::WordFault;
use job_format::Stage;
use job_make::MakeFault;
use qpu_asm::{AsmFault, FaultPlace, Opcode, Wanted};
use refusal_facts::Line;
use rule_words::{Family, RuleName};
use shader_check::ShaderFault;
use shader_notes::Notes;
use std::fmt;
use strict_rules::StrictFault;
use tile_convert::LevelFault;

/// Why a command refused its input, or the program its words; or the notes of a shader that it accepted. It is printed as one line without a
/// line feed, and notes as a line each, and takes no memory, also to print.
#[derive(Clone, Copy, Debug)]
pub enum Cause {
    /// A job file breaks a rule.
    Rule(Line),
    /// The first fault of an assembler's text, and where on its line it stands.
    Kind(AsmFault, FaultPlace),
    /// The first fault of a text of bytes.
    Mistake(MakeFault),
    /// A shader breaks a rule at the instruction of this index.
    Shader(RuleName, u32),
    /// A shader that no rule refuses gets these notes.
    Notes(Notes),
    /// A shader's text has so many instructions, which are too many.
    Long(u64),
    /// The first line of a script of such calls that is none.
    Call(Script, u32),
    /// The input has so many bytes, which are no whole words.
    Part(u64),
    /// The input has so many bytes, and so many are wanted.
    Size(u64, u64),
    /// No such level of a texture can be taken, by this rule.
    Level(RuleName),
    /// The words ask for nothing that the program does.
    Words(WordFault),
}

// The kind's name, as `kind 3`.
fn kind_of(fault: &AsmFault) -> RuleName
    ensures { result ≡ kind_of fault.now }
{
    RuleName::new(Family::Kind, fault.kind)
}

/// The rule's name, as `S24`.
pub(crate) fn shader_rule(fault: &ShaderFault) -> RuleName
    ensures { result ≡ shader_rule fault.now }
{
    RuleName::new(Family::Check(Stage::S), fault.number)
}

/// The name of a strict rule, as `E3`.
pub(crate) fn strict_rule(fault: &StrictFault) -> RuleName
    ensures { result ≡ strict_rule fault.now }
{
    RuleName::new(Family::Check(Stage::E), fault.rule.number())
}

// How text is read, where bytes are no whole words.
#[tactic(auto, unfolding(crate::specs::Cause::text_hint))]
fn text_hint(name: RuleName) -> &'static str
    ensures { result.now ≡ text_hint name }
{
    match (name.family, name.number) {
        (Family::Check(Stage::S), 1) => "; shader text is read with --asm",
        _ => "",
    }
}

/// The name of the rule that refuses a level, as `U7` or `V2`.
#[tactic(auto, unfolding(crate::specs::Cause::level_rule))]
pub fn level_rule(fault: &LevelFault) -> RuleName
    ensures { result ≡ level_rule fault.now }
{
    match fault {
        LevelFault::Texture(number) => RuleName::new(Family::Check(Stage::U), *number),
        LevelFault::Face => RuleName::new(Family::V, 1),
        LevelFault::Level => RuleName::new(Family::V, 2),
    }
}

// Whether an item was expected of the one instruction that has none.
#[tactic(auto, unfolding(crate::specs::Cause::is_bare))]
fn is_bare(wanted: Wanted) -> bool
    ensures { result ≡ is_bare wanted }
{
    match wanted {
        Wanted::Item(Opcode::Nop) => true,
        _ => false,
    }
}

/// What was expected where a fault of the assembler stands.
#[derive(Clone, Copy)]
struct Report {
    wanted: Wanted,
}

impl fmt::Display for Report {
    ghost output = { λ report. Some (report_text report.wanted) };

    #[tactic(auto, unfolding(crate::specs::Cause::report_text))]
    fn fmt<W: fmt::Write>(&self, f: &mut fmt::Formatter<W>) -> fmt::Result {
        if is_bare(self.wanted) {
            f.write_str("nop has no items")
        } else {
            write!(f, "{}", self.wanted)
        }
    }
}

/// How many bytes the input has, and how many are wanted.
#[derive(Clone, Copy)]
struct Sizes {
    length: u64,
    wanted: u64,
}

impl fmt::Display for Sizes {
    ghost output = { λ sizes. Some (size_line sizes.length sizes.wanted) };

    #[tactic(auto, unfolding(crate::specs::Cause::size_line))]
    fn fmt<W: fmt::Write>(&self, f: &mut fmt::Formatter<W>) -> fmt::Result {
        write!(
            f,
            "vc4check: the input has {} bytes, and the picture takes {}",
            self.length, self.wanted
        )
    }
}

/// A rule by its name, and its sentence.
#[derive(Clone, Copy)]
struct Named {
    name: RuleName,
}

impl fmt::Display for Named {
    ghost output = { λ named. Some (named_text named.name) };

    #[tactic(auto, unfolding(crate::specs::Cause::named_text))]
    fn fmt<W: fmt::Write>(&self, f: &mut fmt::Formatter<W>) -> fmt::Result {
        let sentence = self.name.sentence();
        write!(f, "{}: {}", self.name, sentence)
    }
}

impl fmt::Display for Cause {
    ghost output = { λ cause. Some (cause_text cause) };

    #[tactic(auto, unfolding(crate::specs::Cause::cause_text, crate::specs::Cause::kind_line, crate::specs::Cause::mistake_line, crate::specs::Cause::shader_line, crate::specs::Cause::long_line, crate::specs::Cause::call_line, crate::specs::Cause::part_line, crate::specs::Cause::level_line))]
    fn fmt<W: fmt::Write>(&self, f: &mut fmt::Formatter<W>) -> fmt::Result {
        match self {
            Cause::Rule(line) => write!(f, "{}", line),
            Cause::Kind(fault, place) => {
                let name = kind_of(fault);
                let report = Report {
                    wanted: place.wanted,
                };
                write!(
                    f,
                    "vc4check: line {}, column {}: {}; see vc4check explain {}",
                    fault.line, place.column, report, name
                )
            }
            Cause::Mistake(fault) => {
                let sentence = fault.mistake.sentence();
                write!(
                    f,
                    "vc4check: line {}, column {}: {}",
                    fault.line, fault.column, sentence
                )
            }
            Cause::Shader(name, index) => {
                let sentence = name.sentence();
                let hint = text_hint(*name);
                write!(
                    f,
                    "vc4check: {}: {} (instruction {}); see vc4check explain {}{}",
                    name, sentence, index, name, hint
                )
            }
            Cause::Long(count) => write!(
                f,
                "vc4check: the shader has {} instructions, of which it may have 8192",
                count
            ),
            Cause::Call(script, line) => {
                let calls = script.calls();
                write!(
                    f,
                    "vc4check: line {}: this is no call, which is {}",
                    line, calls
                )
            }
            Cause::Part(length) => write!(
                f,
                "vc4check: the input has {} bytes, which are no whole words of 8",
                length
            ),
            Cause::Size(length, wanted) => {
                let size = Sizes {
                    length: *length,
                    wanted: *wanted,
                };
                write!(f, "{}", size)
            }
            Cause::Level(name) => {
                let named = Named { name: *name };
                write!(f, "vc4check: {}; see vc4check explain {}", named, name)
            }
            Cause::Notes(notes) => write!(f, "{}", notes),
            Cause::Words(fault) => write!(f, "{}", fault),
        }
    }
}
