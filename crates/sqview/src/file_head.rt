//! The first bytes of a database file.
ghost use Rattle.std.specs.Prelude.{◌≡◌, ◌+◌, ◌≤◌, IfOk, IsOk};
ghost use Rattle.sqval.specs.Bytes.{word};
ghost use Rattle.sqview.specs.LogView.{head_of, own_pages};

use crate::file_bytes::FileBytes;
use byteorder::{BigEndian, ByteOrder};
use sqpage::SourceError;
use sqval::PageSize;

/// How many bytes the header of a database file has.
pub const HEAD: usize = 100;

/// The first 100 bytes of a file, with zeros past its end.
pub fn read_head<F: FileBytes>(file: &mut F) -> Result<[u8; 100], SourceError>
    ensures read { F.reads_right file.old → IfOk result (λ head. head ≡ head_of (F.bytes file.old)) }
    ensures never_fails { F.gives_bytes file.old → IsOk result }
    ensures still_right { F.reads_right file.old → F.reads_right file.new }
    ensures still_gives { F.gives_bytes file.old → F.gives_bytes file.new }
    ensures same_bytes { F.bytes file.new ≡ F.bytes file.old }
{
    let mut head = [0u8; HEAD];
    file.read_at(0, &mut head)?;
    Ok(head)
}

fn word_at(head: &[u8; 100], at: usize) -> u32
    requires { at + 4 ≤ 100 }
    ensures { result ≡ word head.now at }
{
    BigEndian::read_u32(&head[at..at + 4])
}

/// How many pages of this size a file with this header has: as many as the header says where that counts, otherwise by
/// the file's length.
pub fn count_pages<F: FileBytes>(file: &F, head: &[u8; 100], page_size: PageSize) -> u64
    ensures { F.reads_right file.now → head.now ≡ head_of (F.bytes file.now)
        → result ≡ own_pages page_size (F.bytes file.now) }
{
    let named = word_at(head, 28);
    if named != 0 && word_at(head, 24) == word_at(head, 92) {
        return u64::from(named);
    }
    file.len().div_ceil(u64::from(page_size.get()))
}
