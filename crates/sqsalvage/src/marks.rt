//! Which pages were reached (own).
ghost use Rattle.std.specs.Prelude.{◌≡◌, ◌↔◌, true, false, length};
ghost use Rattle.sqpage.specs.Freelist.{IsWithin};
ghost use Rattle.sqsalvage.specs.SalvageCursor.{IsMarked};
ghost use Rattle.sqsalvage.specs.internal.Taking.{IsUnread, Marks};

/// Whether page `p` is marked.
pub(crate) fn is_marked(marks: &[bool], p: u32) -> bool
    ensures yes { result ≡ true → IsMarked marks.now p }
    ensures not { result ≡ false → ¬ IsMarked marks.now p }
{
    let p = p as usize;
    0 < p && p <= marks.len() && marks[p - 1]
}

/// Whether there is a page `p`, and it isn't marked.
pub(crate) fn is_unread(marks: &[bool], p: u32) -> bool
    ensures yes { result ≡ true → IsUnread marks.now p }
    ensures not { result ≡ false → ¬ IsUnread marks.now p }
{
    0 < p && p as usize <= marks.len() && !is_marked(marks, p)
}

/// Marks page `p`. False where there is no such page, or where it was marked before.
pub(crate) fn mark(marks: &mut [bool], p: u32) -> bool
    ensures yes { result ≡ true → Marks marks.old marks.new p }
    ensures not { result ≡ false → (marks.new ≡ marks.old) × (IsWithin (length marks.old) p → IsMarked marks.old p) }
    ensures length { length marks.new ≡ length marks.old }
{
    if p == 0 || p as usize > marks.len() {
        return false;
    }
    let i = p as usize - 1;
    if marks[i] {
        return false;
    }
    marks[i] = true;
    true
}
