//! The rules of one record.
ghost use Rattle.std.specs.Prelude.{◌≡◌, not, nat_lt, ◌==◌, ◌&&◌, ◌+◌, ◌*◌, ◌/◌, ◌<◌, ◌≤◌, ◌^◌, length, IfNone};
ghost use Rattle.field_words.specs.Questions.{first_of, each};
ghost use Rattle.emitted_facts.specs.Records.{attribute_size, attribute_stride, is_single};
ghost use Rattle.packets.specs.StateWord.{attribute_count, is_extended};
ghost use Rattle.shader_records.specs.Inputs.{Fits};
ghost use Rattle.shader_records.specs.Sources.{handles_size, source_size, record_word, HasStrides};
ghost use Rattle.shader_records.specs.Faults.{record_fault as fault_of};
ghost use Rattle.shader_records.specs.Rules.{cut_questions, code_questions, handle_questions, fixed_questions, attribute_questions, names_questions, body_questions, record_questions, disagrees, whole_questions};

use crate::fault::RecordFault;
use crate::inputs::Inputs;
use crate::rule::RecordRule;
use crate::sizes::{handles_size, source_size};
use job_format::Stage;
use packets::{attribute_count, is_extended};

/// The source of a record: where it begins in the job's records, the state's word, and the greatest
/// index that the state's primitives draw.
#[derive(Clone, Copy)]
pub(crate) struct Source {
    pub(crate) at: usize,
    pub(crate) state: u32,
    pub(crate) max_index: u32,
}

fn fault(rule: RecordRule, at: usize) -> RecordFault
    requires { at < 2 ^ 32 }
    ensures { result ≡ fault_of rule at }
{
    RecordFault {
        stage: Stage::A,
        number: rule.number(),
        in_uniforms: false,
        at: at as u32,
    }
}

/// A1 and A2: the source is cut off.
#[tactic(auto, unfolding(crate::specs::Rules::cut_questions))]
fn cut_fault(inputs: &Inputs, source: Source) -> Option<RecordFault>
    requires fits { Fits inputs.now }
    requires from { source.at ≤ length inputs.now.records }
    ensures first { result ≡ first_of (cut_questions inputs.now source.at source.state) }
    ensures inside { IfNone result (source.at + source_size source.state
        ≤ length inputs.now.records) }
{
    let record_at = source.at + handles_size(source.state);
    if inputs.records.len() < record_at {
        return Some(fault(RecordRule::HandlesCutOff, source.at));
    }
    if inputs.records.len() < source.at + source_size(source.state) {
        return Some(fault(RecordRule::RecordCutOff, record_at));
    }
    None
}

/// A3 and A6 at the handle of a shader's code.
#[tactic(auto, unfolding(crate::specs::Rules::code_questions))]
fn code_fault(inputs: &Inputs, at: usize, s: usize) -> Option<RecordFault>
    requires fits { Fits inputs.now }
    requires inside { at + 4 * s + 4 ≤ length inputs.now.records }
    ensures { result ≡ first_of (code_questions inputs.now at s) }
{
    if inputs.code_number(at, s).is_none() {
        return Some(fault(RecordRule::NoCode, at + 4 * s));
    }
    if s != 0 && inputs.is_threaded(at, s) {
        return Some(fault(RecordRule::ThreadedVertex, at + 4 * s));
    }
    None
}

#[tactic(auto, using(field_words::proofs::Questions::each_on, field_words::proofs::Questions::each_stop, field_words::proofs::Questions::each_end))]
fn codes_fault(inputs: &Inputs, at: usize) -> Option<RecordFault>
    requires fits { Fits inputs.now }
    requires inside { at + 12 ≤ length inputs.now.records }
    ensures { result ≡ first_of (each (code_questions inputs.now at) 0 3) }
{
    for s in 0..3usize {
        if let Some(fault) = code_fault(inputs, at, s) {
            return Some(fault);
        }
    }
    None
}

/// A4 at the handle of an attribute.
#[tactic(auto, unfolding(crate::specs::Rules::handle_questions))]
fn handle_fault(inputs: &Inputs, at: usize, t: usize) -> Option<RecordFault>
    requires fits { Fits inputs.now }
    requires inside { at + (12 + 4 * t) + 4 ≤ length inputs.now.records }
    ensures { result ≡ first_of (handle_questions inputs.now at t) }
{
    if inputs.attribute_number(at, t).is_none() {
        return Some(fault(RecordRule::NoData, at + (12 + 4 * t)));
    }
    None
}

#[tactic(auto, using(field_words::proofs::Questions::each_on, field_words::proofs::Questions::each_stop, field_words::proofs::Questions::each_end))]
fn handles_fault(inputs: &Inputs, at: usize, count: usize) -> Option<RecordFault>
    requires fits { Fits inputs.now }
    requires count { count ≤ 8 }
    requires inside { at + 12 + 4 * count ≤ length inputs.now.records }
    ensures { result ≡ first_of (each (handle_questions inputs.now at) 0 count) }
{
    for t in 0..count {
        if let Some(fault) = handle_fault(inputs, at, t) {
            return Some(fault);
        }
    }
    None
}

/// The rules at the handles.
#[tactic(auto, unfolding(crate::specs::Rules::names_questions, crate::specs::Sources::handles_size), using(field_words::proofs::Questions::passes, field_words::proofs::Questions::stops))]
fn names_fault(inputs: &Inputs, source: Source) -> Option<RecordFault>
    requires fits { Fits inputs.now }
    requires inside { source.at + handles_size source.state ≤ length inputs.now.records }
    ensures { result ≡ first_of (names_questions inputs.now source.at source.state) }
{
    match codes_fault(inputs, source.at) {
        Some(fault) => Some(fault),
        None => handles_fault(inputs, source.at, attribute_count(source.state) as usize),
    }
}

/// A5 and A7: the flags, and the words for code addresses.
#[tactic(auto, unfolding(crate::specs::Rules::fixed_questions, crate::specs::Rules::disagrees, emitted_facts::specs::Records::is_single))]
fn fixed_fault(inputs: &Inputs, source: Source) -> Option<RecordFault>
    requires fits { Fits inputs.now }
    requires handles { source.at + 12 ≤ length inputs.now.records }
    requires inside { source.at + handles_size source.state + 36 ≤ length inputs.now.records }
    ensures { result ≡ first_of (fixed_questions inputs.now source.at source.state) }
{
    let record_at = source.at + handles_size(source.state);
    let single = inputs.record_word(source.at, source.state, 0) % 2 == 1;
    if single == inputs.is_threaded(source.at, 0) {
        return Some(fault(RecordRule::ThreadsDisagree, record_at));
    }
    if inputs.record_word(source.at, source.state, 1) != 0 {
        return Some(fault(RecordRule::CodeWordSet, record_at + 4));
    }
    if inputs.record_word(source.at, source.state, 4) != 0 {
        return Some(fault(RecordRule::CodeWordSet, record_at + 16));
    }
    if inputs.record_word(source.at, source.state, 7) != 0 {
        return Some(fault(RecordRule::CodeWordSet, record_at + 28));
    }
    None
}

/// The bytes that a vertex has in an attribute's data.
#[tactic(auto, unfolding(emitted_facts::specs::Records::attribute_size))]
fn attribute_size(inputs: &Inputs, source: Source, t: usize) -> u32
    requires fits { Fits inputs.now }
    requires inside { source.at + handles_size source.state + 4 * (10 + 2 * t) + 4
        ≤ length inputs.now.records }
    ensures value { result ≡ attribute_size (record_word inputs.now source.at source.state) t }
    ensures limit { result ≤ 256 }
{
    inputs.record_word(source.at, source.state, 10 + 2 * t) % 256 + 1
}

/// From a vertex's data to the next vertex's.
#[tactic(auto, unfolding(emitted_facts::specs::Records::attribute_stride))]
fn attribute_stride(inputs: &Inputs, source: Source, t: usize) -> u32
    requires fits { Fits inputs.now }
    requires inside { source.at + handles_size source.state + 4 * (10 + 2 * t) + 4
        ≤ length inputs.now.records }
    requires extension { HasStrides inputs.now source.at source.state (t + 1) }
    ensures { result ≡ attribute_stride source.state
        (record_word inputs.now source.at source.state) t }
{
    let low = inputs.record_word(source.at, source.state, 10 + 2 * t) / 256 % 256;
    if is_extended(source.state) {
        low + 256 * (inputs.record_word(source.at, source.state, 25 + t) / 256)
    } else {
        low
    }
}

/// Whether the vertex of the greatest index ends past a buffer with so many bytes behind the first. Nothing is divided.
#[tactic(auto, using(crate::proofs::Vertices::past_by_product))]
fn is_past(rest: u64, stride: u64, max_index: u32) -> bool
    requires { stride < 2 ^ 32 }
    ensures { result ≡ (not (stride == 0) && nat_lt (rest / stride) max_index) }
{
    rest < u64::from(max_index) * stride
}

/// A9 and A10 at an attribute.
#[tactic(auto, unfolding(crate::specs::Rules::attribute_questions, crate::specs::Rules::is_attribute_past, crate::specs::Rules::has_vertex_past))]
fn attribute_fault(inputs: &Inputs, source: Source, t: usize) -> Option<RecordFault>
    requires fits { Fits inputs.now }
    requires count { t < 8 }
    requires handle { source.at + (12 + 4 * t) + 4 ≤ length inputs.now.records }
    requires inside { source.at + handles_size source.state + 4 * (10 + 2 * t) + 4
        ≤ length inputs.now.records }
    requires extension { HasStrides inputs.now source.at source.state (t + 1) }
    ensures { result ≡ first_of (attribute_questions inputs.now source.at source.state
        source.max_index t) }
{
    let at = source.at + handles_size(source.state) + (36 + 8 * t);
    let size = u64::from(inputs.size_of(inputs.attribute_number(source.at, t)));
    let address = u64::from(inputs.record_word(source.at, source.state, 9 + 2 * t));
    let bytes = u64::from(attribute_size(inputs, source, t));
    if size < address + bytes {
        return Some(fault(RecordRule::AttributeOutside, at));
    }
    let stride = u64::from(attribute_stride(inputs, source, t));
    if is_past(size - address - bytes, stride, source.max_index) {
        return Some(fault(RecordRule::VertexOutside, at));
    }
    None
}

#[tactic(auto, using(field_words::proofs::Questions::each_on, field_words::proofs::Questions::each_stop, field_words::proofs::Questions::each_end))]
fn attributes_fault(inputs: &Inputs, source: Source, count: usize) -> Option<RecordFault>
    requires fits { Fits inputs.now }
    requires count { count ≤ 8 }
    requires handles { source.at + 12 + 4 * count ≤ length inputs.now.records }
    requires inside { source.at + handles_size source.state + 36 + 8 * count
        ≤ length inputs.now.records }
    requires extension { HasStrides inputs.now source.at source.state count }
    ensures { result ≡ first_of (each (attribute_questions inputs.now source.at source.state
        source.max_index) 0 count) }
{
    for t in 0..count {
        if let Some(fault) = attribute_fault(inputs, source, t) {
            return Some(fault);
        }
    }
    None
}

/// The rules in the record itself.
#[tactic(auto, unfolding(crate::specs::Rules::body_questions, crate::specs::Sources::handles_size, crate::specs::Sources::source_size, packets::specs::StateWord::record_size), using(field_words::proofs::Questions::passes, field_words::proofs::Questions::stops))]
fn body_fault(inputs: &Inputs, source: Source) -> Option<RecordFault>
    requires fits { Fits inputs.now }
    requires inside { source.at + source_size source.state ≤ length inputs.now.records }
    ensures { result ≡ first_of (body_questions inputs.now source.at source.state
        source.max_index) }
{
    match fixed_fault(inputs, source) {
        Some(fault) => Some(fault),
        None => attributes_fault(inputs, source, attribute_count(source.state) as usize),
    }
}

/// The rules at the handles and then those in the record.
#[tactic(auto, unfolding(crate::specs::Sources::source_size), using(field_words::proofs::Questions::passes, field_words::proofs::Questions::stops))]
fn whole_fault(inputs: &Inputs, source: Source) -> Option<RecordFault>
    requires fits { Fits inputs.now }
    requires inside { source.at + source_size source.state ≤ length inputs.now.records }
    ensures { result ≡ first_of (whole_questions inputs.now source.at source.state
        source.max_index) }
{
    match names_fault(inputs, source) {
        Some(fault) => Some(fault),
        None => body_fault(inputs, source),
    }
}

/// The first rule that a record breaks, by place and number.
#[tactic(auto, unfolding(crate::specs::Rules::record_questions), using(field_words::proofs::Questions::passes, field_words::proofs::Questions::stops))]
pub(crate) fn record_fault(inputs: &Inputs, source: Source) -> Option<RecordFault>
    requires fits { Fits inputs.now }
    requires from { source.at ≤ length inputs.now.records }
    ensures first { result ≡ first_of (record_questions inputs.now source.at source.state
        source.max_index) }
    ensures inside { IfNone result (source.at + source_size source.state
        ≤ length inputs.now.records) }
{
    match cut_fault(inputs, source) {
        Some(fault) => Some(fault),
        None => whole_fault(inputs, source),
    }
}
