//! What the check is given.
ghost use Rattle.std.specs.Prelude.{◌≡◌, ◌+◌, ◌*◌, ◌^◌, ◌<◌, ◌≤◌, length, slice_index_or, IfSome, MatchOption, Some, None};
ghost use Rattle.field_words.specs.Words.{u32_at};
ghost use Rattle.field_words.specs.WordBytes.{word_bytes};
ghost use Rattle.field_words.specs.Writes.{with_bytes};
ghost use Rattle.buffer_table.specs.Table.{most_place};
ghost use Rattle.qpu_isa.specs.Shader.{shader_view};
ghost use Rattle.shader_records.specs.Inputs.{shaders_view, shader_in, Fits, IsShaped};
ghost use Rattle.shader_records.specs.Sources.{no_state, state_at, handles_size, code_number, attribute_number, sample_number, shader_behind, shader_used, is_threaded, record_word, word_from, place_in};
ghost use Rattle.buffer_table.specs.Handles.{size_in};

use crate::copies::copy_words;
use crate::sizes::handles_size;
use bin_list::State;
use buffer_table::{Handles, Table, use_code, use_data};
use field_words::word_at;
use qpu_isa::ShaderInfo;
use std::marker::Model;

/// The states, the parts of the job file that hold their records and uniforms, and what these name: the
/// buffers of the job's handles, and, for each buffer of the table, what is known of the shader in it where it is a Code buffer.
#[derive(Drop)]
pub struct Inputs<'a> {
    pub states: &'a [State],
    pub records: &'a [u8],
    pub uniforms: &'a [u8],
    pub table: &'a Table<'a>,
    pub handles: &'a Handles<'a>,
    pub shaders: &'a [Option<ShaderInfo>],
}

impl<'a> Model for Inputs<'a> {
    ghost use Rattle.shader_records.specs.Inputs.{InputModel, AreShapedInputs, input_of};

    ghost Value = { InputModel };

    ghost view = { λ g. input_of g.states.now g.records.now g.uniforms.now g.table.now g.handles.now g.shaders.now };

    ghost invariant = { λ g. AreShapedInputs
        (input_of g.states.now g.records.now g.uniforms.now g.table.now g.handles.now g.shaders.now) };
}

/// A word moved by its buffer's place.
pub(crate) fn relocated(word: u32, place: u32) -> u32
    requires { word + place < 2 ^ 32 }
    ensures { result ≡ word + place }
{
    word + place
}

/// The state of a number.
fn state_of(states: &[State], k: usize) -> State
    requires { k < length states.now }
    ensures { result ≡ slice_index_or states.now k no_state }
{
    states[k]
}

/// What is known of the shader in a buffer.
#[tactic(auto, using(crate::proofs::Shaders::known_none, crate::proofs::Shaders::known_some))]
fn known(shaders: &[Option<ShaderInfo>], number: usize) -> Option<&ShaderInfo>
    requires { number < length shaders.now }
    ensures { let shader = shader_in (shaders_view shaders.now) number in
        MatchOption result (shader ≡ None) (λ info. shader ≡ Some (shader_view info.now)) }
{
    match &shaders[number] {
        Some(info) => Some(info),
        None => None,
    }
}

impl<'a> Inputs<'a> {
    /// The state of a number.
    pub(crate) fn state(&self, k: usize) -> State
        requires { k < length self.now.states }
        ensures { result ≡ state_at self.now k }
    {
        state_of(self.states, k)
    }

    /// How many states there are.
    pub(crate) fn count(&self) -> usize
        ensures { result ≡ length self.now.states }
    {
        self.states.len()
    }

    pub(crate) fn record_at(&self, at: usize) -> u32
        requires { at + 4 ≤ length self.now.records }
        ensures { result ≡ u32_at self.now.records at }
    {
        word_at(self.records, at)
    }

    pub(crate) fn uniform_at(&self, at: usize) -> u32
        requires { at + 4 ≤ length self.now.uniforms }
        ensures { result ≡ u32_at self.now.uniforms at }
    {
        word_at(self.uniforms, at)
    }

    /// Puts `count` words of the records, from the place `from` on, at a place of the window.
    pub(crate) fn copy_records(&self, from: usize, count: usize, out: &mut [u8], at: usize)
        requires fits { Fits self.now }
        requires inside { from + 4 * count ≤ length self.now.records }
        requires room { at + 4 * count ≤ length out.old }
        ensures { out.new ≡ with_bytes out.old at
            (word_bytes (word_from self.now.records from) count) }
    {
        copy_words(self.records, from, count, out, at);
    }

    /// Puts `count` words of the uniforms, from the place `from` on, at a place of the window.
    pub(crate) fn copy_uniforms(&self, from: usize, count: usize, out: &mut [u8], at: usize)
        requires fits { Fits self.now }
        requires inside { from + 4 * count ≤ length self.now.uniforms }
        requires room { at + 4 * count ≤ length out.old }
        ensures { out.new ≡ with_bytes out.old at
            (word_bytes (word_from self.now.uniforms from) count) }
    {
        copy_words(self.uniforms, from, count, out, at);
    }

    /// The buffer of shader `s`'s code, for the record whose source begins at `at`.
    #[tactic(auto, unfolding(crate::specs::Sources::code_number))]
    pub(crate) fn code_number(&self, at: usize, s: usize) -> Option<usize>
        requires fits { Fits self.now }
        requires inside { at + 4 * s + 4 ≤ length self.now.records }
        ensures value { result ≡ code_number self.now at s }
        ensures below { IfSome result (λ number. number < length self.now.table.buffers) }
    {
        use_code(self.table, self.handles, self.record_at(at + 4 * s))
    }

    /// The buffer of attribute `t`'s data.
    #[tactic(auto, unfolding(crate::specs::Sources::attribute_number))]
    pub(crate) fn attribute_number(&self, at: usize, t: usize) -> Option<usize>
        requires fits { Fits self.now }
        requires inside { at + (12 + 4 * t) + 4 ≤ length self.now.records }
        ensures value { result ≡ attribute_number self.now at t }
        ensures below { IfSome result (λ number. number < length self.now.table.buffers) }
    {
        use_data(self.table, self.handles, self.record_at(at + (12 + 4 * t)))
    }

    /// The buffer of sample `i`, for a shader whose uniforms begin at `from`.
    #[tactic(auto, unfolding(crate::specs::Sources::sample_number))]
    pub(crate) fn sample_number(&self, from: usize, i: usize) -> Option<usize>
        requires fits { Fits self.now }
        requires inside { from + 4 * i + 4 ≤ length self.now.uniforms }
        ensures value { result ≡ sample_number self.now from i }
        ensures below { IfSome result (λ number. number < length self.now.table.buffers) }
    {
        use_data(self.table, self.handles, self.uniform_at(from + 4 * i))
    }

    /// Word `i` of the record whose source begins at `at`.
    #[tactic(auto, unfolding(crate::specs::Sources::record_word))]
    pub(crate) fn record_word(&self, at: usize, state: u32, i: usize) -> u32
        requires fits { Fits self.now }
        requires inside { at + handles_size state + 4 * i + 4 ≤ length self.now.records }
        ensures { result ≡ record_word self.now at state i }
    {
        self.record_at(at + handles_size(state) + 4 * i)
    }

    /// What is known of the shader that a record starts, `None` where the handle names none.
    #[tactic(auto, unfolding(crate::specs::Sources::shader_used))]
    pub(crate) fn shader_used(&self, at: usize, s: usize) -> Option<&ShaderInfo>
        requires fits { Fits self.now }
        requires inside { at + 4 * s + 4 ≤ length self.now.records }
        ensures value { let used = shader_used self.now at s in
            MatchOption result (used ≡ None) (λ info. used ≡ Some (shader_view info.now)) }
        ensures shaped { IfSome result (λ info. IsShaped (shader_view info.now)) }
    {
        match self.code_number(at, s) {
            Some(number) => known(self.shaders, number),
            None => None,
        }
    }

    /// What is known of the shader in a buffer of this number; `None` also of no number.
    pub(crate) fn shader_in(&self, number: Option<usize>) -> Option<&ShaderInfo>
        requires fits { Fits self.now }
        requires below { IfSome number (λ number. number < length self.now.table.buffers) }
        ensures { let used = shader_behind self.now.shaders number in
            MatchOption result (used ≡ None) (λ info. used ≡ Some (shader_view info.now)) }
    {
        match number {
            Some(number) => known(self.shaders, number),
            None => None,
        }
    }

    /// Whether that shader switches threads.
    pub(crate) fn is_threaded(&self, at: usize, s: usize) -> bool
        requires fits { Fits self.now }
        requires inside { at + 4 * s + 4 ≤ length self.now.records }
        ensures { result ≡ is_threaded (shader_used self.now at s) }
    {
        match self.shader_used(at, s) {
            Some(info) => info.threaded,
            None => false,
        }
    }

    /// The size of a buffer, and its place; 0 of none.
    pub(crate) fn size_of(&self, number: Option<usize>) -> u32
        requires { IfSome number (λ number. number < length self.now.table.buffers) }
        ensures value { result ≡ size_in self.now.table number }
    {
        match number {
            Some(number) => self.table.buffer(number).size,
            None => 0,
        }
    }

    pub(crate) fn place_of(&self, number: Option<usize>) -> u32
        requires { IfSome number (λ number. number < length self.now.table.buffers) }
        ensures value { result ≡ place_in self.now.table number }
        ensures limit { result + size_in self.now.table number ≤ most_place }
    {
        match number {
            Some(number) => self.table.buffer(number).place,
            None => 0,
        }
    }
}
