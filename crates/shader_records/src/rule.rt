//! The rules of shader records and of the uniforms that their shaders take.
ghost use Rattle.std.specs.Prelude.{◌≡◌};
ghost use Rattle.shader_records.specs.Faults.{number_of};

/// A rule of shader records, A1 to A10 in this order, or the first rule of samples, U1. The other rules of samples are
/// those of textures.
#[derive(Clone, Copy, Debug, PartialEq, Eq)]
pub enum RecordRule {
    /// The handles before a record are cut off.
    HandlesCutOff,
    /// The record is cut off.
    RecordCutOff,
    /// The handle of a shader's code names no Code buffer.
    NoCode,
    /// The handle of an attribute names no data buffer.
    NoData,
    /// The fragment shader switches threads and the flags say that it doesn't, or the other way round.
    ThreadsDisagree,
    /// The vertex or the coordinate shader switches threads.
    ThreadedVertex,
    /// A word for a code address isn't 0.
    CodeWordSet,
    /// Fewer bytes of uniforms are left than a shader takes.
    UniformsCutOff,
    /// An attribute of the first vertex ends past its buffer.
    AttributeOutside,
    /// An attribute of the vertex with the greatest index does.
    VertexOutside,
    /// The handle of a sample names no data buffer.
    NoTexture,
}

impl RecordRule {
    /// The number behind the letter A, or U.
    pub fn number(self) -> u8
        ensures { result ≡ number_of self }
    {
        match self {
            RecordRule::HandlesCutOff => 1,
            RecordRule::RecordCutOff => 2,
            RecordRule::NoCode => 3,
            RecordRule::NoData => 4,
            RecordRule::ThreadsDisagree => 5,
            RecordRule::ThreadedVertex => 6,
            RecordRule::CodeWordSet => 7,
            RecordRule::UniformsCutOff => 8,
            RecordRule::AttributeOutside => 9,
            RecordRule::VertexOutside => 10,
            RecordRule::NoTexture => 1,
        }
    }
}
