//! In which pages the bytes of a range are.
ghost use Rattle.std.specs.Prelude.{◌≡◌, ◌≢◌, ◌⊎◌, ◌↔◌, ◌+◌, ◌<◌, ◌≤◌, ℕ};
ghost use Rattle.view_pieces_c.specs.Pieces.{IsFirstPiece};

/// The smallest page (fileformat2, 1.3.2).
const SMALLEST: u32 = 512;

/// `len` bytes of a page, from its byte `from` on. The first page is page 1, and its first byte is byte 0.
#[repr(C)]
#[derive(Clone, Copy)]
pub struct Piece {
    pub page: u64,
    pub from: u32,
    pub len: u32,
}

/// How many bytes of a range are in the first `has` bytes of a database. They are the first ones of the range, which
/// begins at byte `at` of the database and has `len` bytes.
#[unsafe(no_mangle)]
pub extern "C" fn sqr_bytes_there(at: u64, len: u64, has: u64) -> u64
    ensures { (i : ℕ) → i < result ↔ (i < len) × (at + i < has) }
{
    if at >= has { 0 } else { len.min(has - at) }
}

/// The number of bytes in the first piece of a range of `len` bytes, of a page that has `room` from there on.
fn shorter(len: u64, room: u32) -> u32
    ensures within { result ≤ len × result ≤ room }
    ensures whole { (result ≡ len) ⊎ (result ≡ room) }
{
    if len < u64::from(room) {
        len as u32
    } else {
        room
    }
}

/// Writes the first piece of a range: its bytes as far as they are in one page. The range begins at byte `at` of a
/// database with pages of `size` bytes, and has `len` bytes. Answers 1; or 0 if the range is empty or no page has this
/// size, and then leaves the piece as it is.
#[unsafe(no_mangle)]
pub extern "C" fn sqr_first_piece(at: u64, len: u64, size: u32, out: &mut Piece) -> u32
    ensures first { result ≡ 1 → IsFirstPiece at len size out.new }
    ensures none { result ≢ 1 → (len ≡ 0) ⊎ (size < 512) }
    ensures kept { result ≢ 1 → out.new ≡ out.old }
{
    if len == 0 || size < SMALLEST {
        return 0;
    }
    let from = (at % u64::from(size)) as u32;
    *out = Piece {
        page: at / u64::from(size) + 1,
        from,
        len: shorter(len, size - from),
    };
    1
}
