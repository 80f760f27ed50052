//! How a vertex of a primitive is fetched.
#![tactic(auto, unfolding(crate::proofs::Opened::fetch))]

ghost use Rattle.std.specs.Prelude.{◌≡◌, ◌≤◌, ◌<◌, ◌+◌, ◌*◌, ◌^◌, true, length, Some};
ghost use Rattle.arrayvec.specs.ArrayVec.{array_vec_len};
ghost use Rattle.packets.specs.StateWord.{attribute_count, is_extended};
ghost use Rattle.machine_plan.specs.Turn.{CarriesOver};
ghost use Rattle.list_machine.specs.Fetch.{index_size, index_in, index_plan, draws_nothing, record_place, attribute_place, extension_place, stride_of, data_place, data_plan, extended_plan, attribute_plan, all_attributes_plan, indexed_plan, fetch_plan};

use crate::reads::{read_listed, read_word};
use crate::state::Primitive;
use byteorder::{ByteOrder, LittleEndian};
use field_words::Way;
use machine_plan::{Accesses, Reader, list_access};

/// A vertex that is fetched: the state word, and its index.
#[derive(Clone, Copy, Debug, PartialEq, Eq)]
struct Vertex {
    word: u32,
    index: u32,
}

// The bytes of an index.
fn index_size(primitive: &Primitive) -> u32
    ensures value { result ≡ index_size primitive.now }
    ensures few { result ≤ 2 }
{
    if primitive.wide { 2 } else { 1 }
}

// The index that was read.
fn index_in(primitive: &Primitive, bytes: &[u8]) -> u32
    requires { length bytes.now ≡ index_size primitive.now }
    ensures { result ≡ index_in primitive.now bytes.now }
{
    if primitive.wide {
        LittleEndian::read_u16(bytes) as u32
    } else {
        bytes[0] as u32
    }
}

// The index of an indexed primitive's vertex `k`, which is read.
fn read_index(primitive: &Primitive, k: u32, reader: &Reader, accesses: &mut Accesses) -> u32
    requires indexed { primitive.now.indexed ≡ true }
    requires room { array_vec_len accesses.old < 240 }
    ensures shows { CarriesOver reader.now.who (index_plan primitive.now k) reader.now.memory.now
        accesses.old accesses.new (Some result) }
    ensures len { array_vec_len accesses.new ≡ array_vec_len accesses.old + 1 }
{
    let size = index_size(primitive);
    let place = primitive.address as u64 + k as u64 * size as u64;
    let bytes = read_listed(place, size, reader, accesses);
    index_in(primitive, &bytes)
}

// The index of vertex `k`.
fn index_of(primitive: &Primitive, k: u32, reader: &Reader, accesses: &mut Accesses) -> u32
    requires { array_vec_len accesses.old < 240 }
    ensures shows { CarriesOver reader.now.who (index_plan primitive.now k) reader.now.memory.now
        accesses.old accesses.new (Some result) }
    ensures len { array_vec_len accesses.new ≤ array_vec_len accesses.old + 1 }
{
    if primitive.indexed {
        read_index(primitive, k, reader, accesses)
    } else {
        primitive.address.wrapping_add(k)
    }
}

// Whether a vertex of this index draws nothing.
fn draws_nothing(primitive: &Primitive, index: u32) -> bool
    ensures { result ≡ draws_nothing primitive.now index }
{
    primitive.indexed && primitive.most < index
}

/// Where the record of a state word begins.
pub(crate) fn record_place(word: u32) -> u64
    ensures value { result ≡ record_place word }
    ensures near { result < 2 ^ 32 }
{
    (word - word % 16) as u64
}

// How many attributes a state word names.
fn attribute_count(word: u32) -> u32
    ensures value { result ≡ attribute_count word }
    ensures few { result ≤ 8 }
{
    if word % 8 == 0 { 8 } else { word % 8 }
}

// Whether a state word's record is extended.
fn is_extended(word: u32) -> bool
    ensures { result ≡ is_extended word }
{
    word / 8 % 2 == 1
}

// Where attribute `t` of a record stands.
fn attribute_place(word: u32, t: u32) -> u64
    requires { t < 8 }
    ensures value { result ≡ attribute_place word t }
    ensures near { result < 2 ^ 33 }
{
    record_place(word) + 36 + 8 * t as u64
}

// Where the word stands that extends its stride.
fn extension_place(word: u32, t: u32) -> u64
    requires { t < 8 }
    ensures value { result ≡ extension_place word t }
    ensures near { result < 2 ^ 33 }
{
    record_place(word) + 100 + 4 * t as u64
}

// How far the data of two vertices lie apart.
fn stride_of(attribute: &[u8], extension: u32) -> u64
    requires { length attribute.now ≡ 8 }
    ensures value { result ≡ stride_of attribute.now extension }
    ensures limit { result < 2 ^ 32 }
{
    attribute[5] as u64 + 256 * (extension / 256) as u64
}

// Where a vertex's data lie.
#[tactic(auto, using(crate::proofs::Fetching::data_limit), unfolding(crate::specs::Fetch::data_place, field_words::specs::Words::u32_at))]
fn data_place(attribute: &[u8], extension: u32, index: u32) -> u64
    requires { length attribute.now ≡ 8 }
    ensures { result ≡ data_place attribute.now extension index }
{
    LittleEndian::read_u32(attribute) as u64 + index as u64 * stride_of(attribute, extension)
}

// Fetches a vertex's data; what they are makes no difference.
fn fetch_data(
    attribute: &[u8],
    extension: u32,
    index: u32,
    reader: &Reader,
    accesses: &mut Accesses,
)
    requires length { length attribute.now ≡ 8 }
    requires room { array_vec_len accesses.old < 272 }
    ensures shows { CarriesOver reader.now.who (data_plan attribute.now extension index)
        reader.now.memory.now accesses.old accesses.new (Some index) }
    ensures len { array_vec_len accesses.new ≡ array_vec_len accesses.old + 1 }
{
    let place = data_place(attribute, extension, index);
    let size = attribute[4] as u32 + 1;
    list_access(reader.who, Way::Read, place, size, accesses);
}

// Fetches a vertex's data, with the word that extends the stride where the record is extended.
fn fetch_extended(
    vertex: Vertex,
    t: u32,
    attribute: &[u8],
    reader: &Reader,
    accesses: &mut Accesses,
)
    requires number { t < 8 }
    requires length { length attribute.now ≡ 8 }
    requires room { array_vec_len accesses.old ≤ 270 }
    ensures shows { CarriesOver reader.now.who
        (extended_plan vertex.word vertex.index t attribute.now) reader.now.memory.now accesses.old
        accesses.new (Some vertex.index) }
    ensures len { array_vec_len accesses.new ≤ array_vec_len accesses.old + 2 }
{
    if is_extended(vertex.word) {
        let extension = read_word(extension_place(vertex.word, t), reader, accesses);
        fetch_data(attribute, extension, vertex.index, reader, accesses);
    } else {
        fetch_data(attribute, 0, vertex.index, reader, accesses);
    }
}

// Fetches attribute `t` of a vertex.
fn fetch_attribute(vertex: Vertex, t: u32, reader: &Reader, accesses: &mut Accesses)
    requires number { t < 8 }
    requires room { array_vec_len accesses.old < 269 }
    ensures shows { CarriesOver reader.now.who (attribute_plan vertex.word vertex.index t)
        reader.now.memory.now accesses.old accesses.new (Some vertex.index) }
    ensures len { array_vec_len accesses.new ≤ array_vec_len accesses.old + 3 }
{
    let attribute = read_listed(attribute_place(vertex.word, t), 8, reader, accesses);
    fetch_extended(vertex, t, &attribute, reader, accesses);
}

// Fetches all attributes of a vertex.
#[tactic(auto, using(crate::proofs::Fetching::attributes_begin, crate::proofs::Fetching::attributes_more, crate::proofs::Fetching::attributes_end))]
fn fetch_attributes(vertex: Vertex, reader: &Reader, accesses: &mut Accesses)
    requires { array_vec_len accesses.old < 241 }
    ensures shows { CarriesOver reader.now.who (all_attributes_plan vertex.word vertex.index)
        reader.now.memory.now accesses.old accesses.new (Some vertex.index) }
    ensures len { array_vec_len accesses.new ≤ array_vec_len accesses.old + 24 }
{
    for t in 0..attribute_count(vertex.word) {
        fetch_attribute(vertex, t, reader, accesses);
    }
}

// Fetches the vertex of this index.
fn fetch_indexed(primitive: &Primitive, vertex: Vertex, reader: &Reader, accesses: &mut Accesses)
    requires { array_vec_len accesses.old < 241 }
    ensures shows { CarriesOver reader.now.who (indexed_plan primitive.now vertex.word vertex.index)
        reader.now.memory.now accesses.old accesses.new (Some vertex.index) }
    ensures len { array_vec_len accesses.new ≤ array_vec_len accesses.old + 24 }
{
    if !draws_nothing(primitive, vertex.index) {
        fetch_attributes(vertex, reader, accesses);
    }
}

/// Fetches vertex `k` of a primitive with this state word: its index where it is indexed, and then, for
/// each attribute, the attribute's eight bytes, the word that extends its stride where the record is
/// extended, and the vertex's data. An index above the greatest one ends it. It comes to the index.
pub(crate) fn fetch_vertex(
    primitive: &Primitive,
    word: u32,
    k: u32,
    reader: &Reader,
    accesses: &mut Accesses,
) -> u32
    requires { array_vec_len accesses.old < 240 }
    ensures shows { CarriesOver reader.now.who (fetch_plan primitive.now word k)
        reader.now.memory.now accesses.old accesses.new (Some result) }
    ensures len { array_vec_len accesses.new ≤ array_vec_len accesses.old + 25 }
{
    let index = index_of(primitive, k, reader, accesses);
    fetch_indexed(primitive, Vertex { word, index }, reader, accesses);
    index
}
