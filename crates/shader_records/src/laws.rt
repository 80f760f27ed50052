//! What was emitted is what whoever runs it counts on.
ghost use Rattle.std.specs.Prelude.{◌≡◌, ℕ, ◌+◌, ◌*◌, ◌^◌, ◌<◌, List, length, Some, None};
ghost use Rattle.field_words.specs.Questions.{first_of};
ghost use Rattle.field_words.specs.Words.{u32_at};
ghost use Rattle.qpu_isa.specs.Shader.{ShaderModel, IsSoundShader};
ghost use Rattle.emitted_facts.specs.Facts.{IsStream, IsRecord};
ghost use Rattle.shader_records.specs.Inputs.{InputModel, AreInputs};
ghost use Rattle.shader_records.specs.Named.{IsDataIn, IsCodeIn, AreInMemory, IsEmittedIn};
ghost use Rattle.shader_records.specs.Sources.{state_at, record_offset};
ghost use Rattle.shader_records.specs.Rules.{use_questions, all_questions};
ghost use Rattle.shader_records.specs.Emission.{stream_word_of};

/// A stream that was emitted without a fault, for a shader whose uniforms begin at `from`: its address
/// words are its own place, and its samples lie in data that the job's handles name.
pub fn streams_are_facts()
    ensures { (input : InputModel) (from : ℕ) (shader : ShaderModel) (stream : ℕ) → IsSoundShader shader
        → first_of (use_questions input from (Some shader)) ≡ None
        → IsStream (IsDataIn input.table input.handles) shader stream (stream_word_of input from shader stream) }
{}

/// A memory that has what was emitted without a fault, the records from one place on and the streams from
/// another, has a record for each state: it starts shaders in Code buffers that the job's handles name, each
/// with a stream that was made for just it, its flags agree with them, and its attributes lie in data that
/// the handles name, up to the state's greatest index.
pub fn records_are_facts()
    ensures { (input : InputModel) (records first : ℕ) (memory : List ℕ) (k : ℕ)
        → AreInputs input → AreInMemory input → first_of (all_questions input) ≡ None
        → k < length input.states → first + length input.uniforms < 2 ^ 32
        → IsEmittedIn input records first memory
        → IsRecord (IsDataIn input.table input.handles) (IsCodeIn input)
        (state_at input k).word (state_at input k).max_index
        (λ i. u32_at memory (records + record_offset input k + 4 * i)) (u32_at memory) }
{}
