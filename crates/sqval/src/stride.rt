//! Parts of bytes that stand at equal distances, brought together (own).
ghost use Rattle.std.specs.Prelude.{◌≡◌, ℕ, ◌+◌, ◌-◌, ◌*◌, ◌^◌, ◌<◌, ◌≤◌, length, slice_index};

/// Copies `count` parts of `size` bytes to the front of the room, one behind the other. They stand behind room for one
/// part fewer, each `gap` bytes behind the end of the one before it; so a single one stands there already.
pub fn gather(room: &mut [u8], size: usize, gap: usize, count: usize)
    requires some { 1 ≤ count }
    requires room { (count - 1) * size + count * (size + gap) ≤ length room.old + gap }
    requires small { size + gap < 2 ^ 32 }
    ensures { (k i : ℕ) → k < count → i < size
        → slice_index room.new (k * size + i) ≡ slice_index room.old ((count - 1) * size + k * (size + gap) + i) }
{
    if count == 1 {
        return;
    }
    let first = (count - 1) * size;
    for k in 0..count {
        let (front, back) = room.split_at_mut(first + k * (size + gap));
        front[k * size..k * size + size].copy_from_slice(&back[..size]);
    }
}
