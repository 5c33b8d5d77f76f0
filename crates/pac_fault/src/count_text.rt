ghost use Rattle.std.specs.Prelude.{◌≡◌, ◌++◌, OnOk};
ghost use Rattle.pac_fault.specs.Counts.{counted_text, many_text};

use pac_base::NoMemory;
use pac_io::Page;
use svd_model::Counted;

#[tactic(auto, unfolding(crate::specs::Counts::counted_text))]
fn push_counted(page: &mut Page, kind: Counted) -> Result<(), NoMemory>
    ensures { OnOk result (page.new ≡ page.old ++ counted_text kind) }
{
    match kind {
        Counted::Elements => page.push(b"elements"),
        Counted::Registers => page.push(b"registers"),
        Counted::Fields => page.push(b"fields"),
        Counted::Values => page.push(b"values"),
    }
}

/// Appends what passes its limit, and how much of it there is.
#[tactic(auto, unfolding(crate::specs::Counts::many_text))]
pub(crate) fn push_many(page: &mut Page, kind: Counted, count: u64) -> Result<(), NoMemory>
    ensures { OnOk result (page.new ≡ page.old ++ many_text kind count) }
{
    page.push(b"too many ")?;
    push_counted(page, kind)?;
    page.push(b": ")?;
    page.decimal(count)
}
