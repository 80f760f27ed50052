//! The rows of a part of a memory.
ghost use Rattle.std.specs.Prelude.{◌≡◌, ◌≤◌, ◌<◌, ◌^◌, ◌+◌, ◌*◌, ◌++◌, ◌-◌, [], length, take, if◌then◌else◌};
ghost use Rattle.field_words.specs.Writes.{with_bytes};
ghost use Rattle.hex.specs.Hex.{encode_lower};
ghost use Rattle.dumper.specs.Text.{place_text, row_size, row_line, is_blank, rows_text};
ghost use Rattle.dumper.specs.Parts.{part_at, part_rows, part_end, alone, row_in};

/// The length of a row's line: eight digits of its place, a blank, two for each byte and a line feed.
const ROW_LINE: usize = 42;

/// How many bytes of rows are made at once.
pub const PIECE: usize = 65536;

/// Writes two digits for each of these bytes from `at` on.
#[tactic(auto, using(crate::proofs::Digits::digits_long))]
fn put_digits(line: &mut [u8], at: usize, bytes: &[u8])
    requires { at + 2 * length bytes.now ≤ length line.old }
    ensures { line.new ≡ with_bytes line.old at (encode_lower bytes.now) }
{
    let end = at + 2 * bytes.len();
    hex::encode_to_slice(bytes, &mut line[at..end]).unwrap();
}

/// The eight digits of a place.
#[tactic(auto, using(crate::proofs::Digits::place_put))]
pub(crate) fn place_digits(place: u32) -> [u8; 8]
    ensures { result ≡ place_text place }
{
    let mut digits = *b"........";
    put_digits(&mut digits, 0, &place.to_be_bytes());
    digits
}

/// The line of a row: its place, a blank, its bytes and a line feed.
fn row_line(place: u32, row: &[u8; 16]) -> [u8; ROW_LINE]
    ensures { result ≡ row_line place row.now }
{
    let mut line = *b"........ ................................\n";
    put_digits(&mut line, 0, &place.to_be_bytes());
    put_digits(&mut line, 9, row);
    line
}

/// Whether all bytes of a row are zero.
#[tactic(auto, unfolding(crate::specs::Text::is_blank))]
fn is_blank(row: &[u8; 16]) -> bool
    ensures { result ≡ is_blank row.now }
{
    row.iter().all(|byte| *byte == 0)
}

/// The sixteen bytes from an offset on, with zeros behind the last one.
#[tactic(auto, using(crate::proofs::Alone::filled_is))]
fn row_in(bytes: &[u8], from: usize) -> [u8; 16]
    requires { from ≤ length bytes.now }
    ensures { result ≡ row_in bytes.now from }
{
    let mut row = [0; 16];
    let len = (bytes.len() - from).min(16);
    row[..len].copy_from_slice(&bytes[from..from + len]);
    row
}

/// Puts the line of a row into a piece, or nothing where it is all zero, and says where it ends.
#[tactic(auto, using(crate::proofs::Rows::put_front))]
fn put_row(piece: &mut [u8], at: usize, place: u32, row: &[u8; 16]) -> usize
    requires { at + row_size ≤ length piece.old }
    ensures text { take result piece.new ≡ take at piece.old
        ++ (if is_blank row.now then [] else row_line place row.now) }
    ensures end { result ≤ at + row_size }
    ensures long { length piece.new ≡ length piece.old }
{
    if is_blank(row) {
        return at;
    }
    piece[at..at + ROW_LINE].copy_from_slice(&row_line(place, row));
    at + ROW_LINE
}

/// A piece of a part's text: the number of the row that comes next, and how many bytes of the piece are filled.
#[derive(Clone, Copy, PartialEq, Eq, Debug)]
pub struct Filled {
    pub row: usize,
    pub len: usize,
}

/// Fills a piece with the lines of a part's rows from one on, as many rows as have room in it whatever they hold. The part's first byte is
/// at this place; a row has sixteen bytes, of which those behind the part are zero, and no line where they are all zero. It takes no memory.
#[tactic(auto)]
pub fn put_part(place: u32, bytes: &[u8], row: usize, piece: &mut [u8]) -> Filled
    requires small { part_end (part_at place bytes.now) < 2 ^ 32 }
    requires from { row ≤ part_rows (part_at place bytes.now) }
    requires room { row_size ≤ length piece.old }
    ensures text { take result.len piece.new
        ≡ rows_text (alone (part_at place bytes.now)) (place + 16 * row) (result.row - row) }
    ensures within { result.len ≤ length piece.new }
    ensures inside { result.row ≤ part_rows (part_at place bytes.now) }
    ensures on { row ≤ result.row }
    ensures more { row < part_rows (part_at place bytes.now) → row < result.row }
    ensures full { result.row < part_rows (part_at place bytes.now)
        → length piece.new < result.len + row_size }
    ensures long { length piece.new ≡ length piece.old }
{
    let rows = bytes.len().div_ceil(16);
    let mut next = row;
    let mut at = 0;
    while next < rows && at + ROW_LINE <= piece.len() {
        at = put_row(
            piece,
            at,
            place + 16 * next as u32,
            &row_in(bytes, 16 * next),
        );
        next += 1;
    }
    Filled { row: next, len: at }
}
