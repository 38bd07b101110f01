//! Pages that nothing names (own).
ghost use Rattle.std.specs.Prelude.{◌≡◌, ◌+◌, ◌<◌, ◌≤◌, ◌^◌, ℕ, true, false, length, IfErr, OnOk};
ghost use Rattle.sqpage.specs.Freelist.{IsWithin};
ghost use Rattle.sqpage.specs.internal.Taking.{is_marked};
ghost use Rattle.sqpage.specs.declared.fault.Fault.{Fault};

use sqpage::{CheckError, Fault};

/// Whether all pages are marked. Refused by PageUnused at the least page that isn't.
pub(crate) fn judge_unused(marks: &[bool]) -> Result<(), CheckError>
    requires { length marks.now < 2 ^ 32 }
    ensures ok { OnOk result ((p : ℕ) → IsWithin (length marks.now) p → is_marked marks.now p ≡ true) }
    ensures err { IfErr result (λ e. (e.fault ≡ Fault.PageUnused) × IsWithin (length marks.now) e.page ×
        (is_marked marks.now e.page ≡ false)) }
{
    'pages: for i in 0..marks.len() {
        if !marks[i] {
            return Err(CheckError {
                page: i as u32 + 1,
                fault: Fault::PageUnused,
            });
        }
    }
    Ok(())
}
