//! A map of the database that a view gives.
ghost use Rattle.std.specs.Prelude.{◌≡◌, length, IfOk, IfErr};
ghost use Rattle.sqpage.specs.Source.{UnlessUnread};
ghost use Rattle.sqcheck.specs.Surveys.{FindsClean, FindsDamaged, SurveyRefused};
ghost use Rattle.sqcheck.specs.Surveys.{FindsCleanWith, FindsDamagedWith, SurveyRefusedWith};
ghost use Rattle.sqview.specs.LogView.{pages_of};

use crate::file_bytes::FileBytes;
use crate::view::View;
use sqcheck::{Options, Survey, survey_pages_with};
use sqpage::CheckError;
use std::alloc::Global;

/// What a survey finds of a view: what `check` finds, and what each page is used for, also of a damaged database.
/// Refused as a survey is.
pub fn survey_view<F: FileBytes>(alloc: Global, view: &mut View<F>) -> Result<Survey, CheckError>
    ensures clean { F.reads_right view.old.db × F.reads_right view.old.log
        → IfOk result (FindsClean (pages_of F.bytes view.old) view.old.page_size) }
    ensures damaged { F.reads_right view.old.db × F.reads_right view.old.log
        → IfOk result (FindsDamaged (pages_of F.bytes view.old) view.old.page_size) }
    ensures refused { F.reads_right view.old.db × F.reads_right view.old.log → IfErr result (λ e. UnlessUnread
        (F.gives_bytes view.old.db × F.gives_bytes view.old.log) e.fault
        (SurveyRefused (pages_of F.bytes view.old) view.old.page_size e.fault e.page)) }
    ensures each { F.reads_right view.old.db × F.reads_right view.old.log
        → IfOk result (λ survey. length survey.roles.items ≡ view.old.count) }
{
    survey_view_with(alloc, view, Options::PLAIN)
}

/// The same with these options. Asked for pointer maps it surveys a database with auto-vacuum too, and the roles say
/// which pages are pointer maps (fileformat2, 1.8).
pub fn survey_view_with<F: FileBytes>(
    alloc: Global,
    view: &mut View<F>,
    options: Options,
) -> Result<Survey, CheckError>
    ensures clean { F.reads_right view.old.db × F.reads_right view.old.log
        → IfOk result (FindsCleanWith options.pointer_maps (pages_of F.bytes view.old) view.old.page_size) }
    ensures damaged { F.reads_right view.old.db × F.reads_right view.old.log
        → IfOk result (FindsDamagedWith options.pointer_maps (pages_of F.bytes view.old) view.old.page_size) }
    ensures refused { F.reads_right view.old.db × F.reads_right view.old.log → IfErr result (λ e. UnlessUnread
        (F.gives_bytes view.old.db × F.gives_bytes view.old.log) e.fault
        (SurveyRefusedWith options.pointer_maps (pages_of F.bytes view.old) view.old.page_size e.fault e.page)) }
    ensures each { F.reads_right view.old.db × F.reads_right view.old.log
        → IfOk result (λ survey. length survey.roles.items ≡ view.old.count) }
{
    survey_pages_with(alloc, view, options)
}
