//! Varints: numbers of 64 bits in one to nine bytes, the highest bits first (fileformat2, 1.6).
ghost use Rattle.std.specs.Prelude.{◌≡◌, ℕ, ◌+◌, ◌-◌, ◌^◌, ◌<◌, ◌≤◌, ◌↔◌, List, ◌++◌, length, take, drop, IsNone};
ghost use Rattle.std.specs.Prelude.{EachIndex, slice_index, ◌*◌};
ghost use Rattle.sqval.specs.Varint.{number_of_sevens, Spells, Begins};
ghost use Rattle.sqval.specs.Shortest.{varint_size};

/// Reads the varint that the bytes begin with: its number and how many bytes it takes. None where
/// they begin with none, since they end too early. A spelling that is longer than it need be is
/// read too. A number above `i64::MAX` is a negative one where the field is signed.
#[inline(always)]
pub fn read(bytes: &[u8]) -> Option<(u64, usize)>
    ensures found { (number size : ℕ) → (result ≡ Some (number, size)) ↔ Begins number size bytes.now }
    ensures none { IsNone result ↔ ((number size : ℕ) → ¬ Begins number size bytes.now) }
{
    let mut high = 0u64;
    for (index, byte) in bytes.iter().enumerate() {
        let byte = u64::from(*byte);
        if index == 8 {
            return Some((high * 256 + byte, 9));
        }
        if byte < 128 {
            return Some((high * 128 + byte, index + 1));
        }
        high = high * 128 + (byte - 128);
    }
    None
}

/// Writes the shortest varint of the number to the front of `out`, and answers how many bytes it
/// takes. The bytes behind it stay as they were.
pub fn write(number: u64, out: &mut [u8; 9]) -> usize
    ensures within { result ≤ 9 }
    ensures spells { Spells number (take result out.new) }
    ensures shortest { (bytes : List ℕ) → Spells number bytes → result ≤ length bytes }
    ensures reads_back { (rest : List ℕ) → Begins number result (take result out.new ++ rest) }
    ensures others { drop result out.new ≡ drop result out.old }
{
    let size = size_of(number);
    if size == 9 {
        write_sevens(number / 256, &mut out[..8]);
        out[8] = (number % 256) as u8;
    } else {
        write_sevens(number / 128, &mut out[..size - 1]);
        out[size - 1] = (number % 128) as u8;
    }
    size
}

/// How many bytes the shortest varint of the number takes.
pub(crate) fn size_of(number: u64) -> usize
    ensures size { result ≡ varint_size number }
    ensures at_least_one { 1 ≤ result }
    ensures at_most_nine { result ≤ 9 }
    ensures enough { result < 9 → number < 128 ^ result }
    ensures least { 1 < result → 128 ^ (result - 1) ≤ number }
{
    match number {
        0..=0x7f => 1,
        0x80..=0x3fff => 2,
        0x4000..=0x1f_ffff => 3,
        0x20_0000..=0xfff_ffff => 4,
        0x1000_0000..=0x7_ffff_ffff => 5,
        0x8_0000_0000..=0x3ff_ffff_ffff => 6,
        0x400_0000_0000..=0x1_ffff_ffff_ffff => 7,
        0x2_0000_0000_0000..=0xff_ffff_ffff_ffff => 8,
        _ => 9,
    }
}

/// Fills `out` with the number's digits to the base 128, each with the top bit set.
fn write_sevens(number: u64, out: &mut [u8])
    requires { number < 128 ^ length out.old }
    ensures digits { number_of_sevens out.new ≡ number }
    ensures top_bits { EachIndex out.new (λ i. 128 ≤ slice_index out.new i) }
{
    let mut rest = number;
    for index in (0..out.len()).rev() {
        out[index] = 128 + (rest % 128) as u8;
        rest /= 128;
    }
}
