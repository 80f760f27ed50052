//! The calls of a script.
ghost use Rattle.std.specs.Prelude.{◌≡◌, ◌<◌, ◌↔◌, IfSome, IsTrue};
ghost use Rattle.std.specs.List.{AllPass};
ghost use Rattle.hex.specs.Hex.{is_hex_digit as digit_test};
ghost use Rattle.job_session.specs.Calls.{number_in, is_hex as hex_test, is_code as code_test, code_of, write_of, read_of, submit_of};
ghost use Rattle.job_session.specs.Calls.{command_named};
ghost use Rattle.job_session.specs.Calls.{call_of, command_asked, call_made, Fits, LineFits};

use field_words::MOST_CODE;
use script::{cut_at, read_number};

/// What a client asks for. Hex is kept as it stands on the line.
#[derive(Clone, Copy)]
pub enum Request<'a> {
    /// `create <client> <pages>`
    Create { pages: u32 },
    /// `code <client> <hex>`
    Code { hex: &'a [u8] },
    /// `write <client> <id> <at> <hex>`
    Write { id: u32, at: u32, hex: &'a [u8] },
    /// `read <client> <id> <at> <len>`
    Read { id: u32, at: u32, len: u32 },
    /// `free <client> <id>`
    Free { id: u32 },
    /// `submit <client> <hex>`
    Submit { hex: &'a [u8] },
}

/// A call by a client.
#[derive(Clone, Copy)]
pub struct Line<'a> {
    pub client: u8,
    pub request: Request<'a>,
}

const LAST_CLIENT: u64 = 7;

const LAST_NUMBER: u64 = 4_294_967_295;

#[tactic(auto, unfolding(crate::specs::Calls::number_in))]
fn number(word: &[u8]) -> Option<u32>
    ensures { result ≡ number_in word.now }
{
    Some(read_number(word, LAST_NUMBER)? as u32)
}

fn is_digit(byte: u8) -> bool
    ensures { result ≡ digit_test byte }
{
    matches!(byte, b'0'..=b'9' | b'a'..=b'f' | b'A'..=b'F')
}

fn are_digits(word: &[u8]) -> bool
    ensures { IsTrue result ↔ AllPass digit_test word.now }
{
    word.iter().all(|byte| is_digit(*byte))
}

// Whether it is hex of one byte or more.
#[tactic(auto, using(crate::proofs::Digits::no_digits, crate::proofs::Digits::odd_digits, crate::proofs::Digits::all_digits))]
fn is_hex(word: &[u8]) -> bool
    ensures { result ≡ hex_test word.now }
{
    if word.is_empty() {
        return false;
    }
    if word.len() % 2 != 0 {
        return false;
    }
    are_digits(word)
}

// Whether it is hex of as many bytes as a shader may have.
#[tactic(auto, using(crate::proofs::Digits::code_long, crate::proofs::Digits::code_short))]
fn is_code(word: &[u8]) -> bool
    ensures { result ≡ code_test word.now }
{
    if word.len() > 2 * MOST_CODE as usize {
        return false;
    }
    is_hex(word)
}

#[tactic(auto, unfolding(crate::specs::Calls::code_of), using(crate::proofs::Digits::code_fits))]
fn read_code(word: &[u8]) -> Option<Request<'_>>
    ensures request { command_asked result ≡ code_of word.now }
    ensures fits { IfSome result Fits }
{
    if is_code(word) {
        Some(Request::Code { hex: word })
    } else {
        None
    }
}

#[tactic(auto, unfolding(crate::specs::Calls::write_of))]
fn read_write(words: &[u8]) -> Option<Request<'_>>
    ensures request { command_asked result ≡ write_of words.now }
    ensures fits { IfSome result Fits }
{
    let first = cut_at(words, b' ');
    let second = cut_at(first.rest, b' ');
    let id = number(first.first)?;
    let at = number(second.first)?;
    if is_hex(second.rest) {
        Some(Request::Write {
            id,
            at,
            hex: second.rest,
        })
    } else {
        None
    }
}

#[tactic(auto, unfolding(crate::specs::Calls::read_of))]
fn read_read(words: &[u8]) -> Option<Request<'_>>
    ensures request { command_asked result ≡ read_of words.now }
    ensures fits { IfSome result Fits }
{
    let first = cut_at(words, b' ');
    let second = cut_at(first.rest, b' ');
    let id = number(first.first)?;
    let at = number(second.first)?;
    let len = number(second.rest)?;
    Some(Request::Read { id, at, len })
}

#[tactic(auto, unfolding(crate::specs::Calls::submit_of))]
fn read_submit(word: &[u8]) -> Option<Request<'_>>
    ensures request { command_asked result ≡ submit_of word.now }
    ensures fits { IfSome result Fits }
{
    if is_hex(word) {
        Some(Request::Submit { hex: word })
    } else {
        None
    }
}

// The request of this name, where these are the words behind its client.
fn read_request<'a>(name: &[u8], words: &'a [u8]) -> Option<Request<'a>>
    ensures request { command_asked result ≡ command_named name.now words.now }
    ensures fits { IfSome result Fits }
{
    if name == b"create".as_slice() {
        let pages = number(words)?;
        return Some(Request::Create { pages });
    }
    if name == b"code".as_slice() {
        return read_code(words);
    }
    if name == b"write".as_slice() {
        return read_write(words);
    }
    if name == b"read".as_slice() {
        return read_read(words);
    }
    if name == b"free".as_slice() {
        let id = number(words)?;
        return Some(Request::Free { id });
    }
    if name == b"submit".as_slice() {
        return read_submit(words);
    }
    None
}

/// The call that a line is, or `None` exactly where it is none.
#[tactic(auto, unfolding(crate::specs::Calls::call_of))]
pub fn read_line(line: &[u8]) -> Option<Line<'_>>
    ensures call { call_made result ≡ call_of line.now }
    ensures fits { IfSome result LineFits }
{
    let name = cut_at(line, b' ');
    let client = cut_at(name.rest, b' ');
    let number = read_number(client.first, LAST_CLIENT)?;
    let request = read_request(name.first, client.rest)?;
    Some(Line {
        client: number as u8,
        request,
    })
}
