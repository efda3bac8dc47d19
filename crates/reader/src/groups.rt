//! The groups of a join, which lie on the sheet two bytes each.
ghost use Rattle.std.specs.Prelude.{◌≡◌, ◌+◌, ◌*◌, ◌≤◌, length, take, drop};
ghost use Rattle.reader.specs.Records.{groups_at};

use crate::record::pair;
use sheet::Span;

/// Puts the groups of a span at the start of a list, whose other entries stay. Where they do not all lie on
/// the sheet, or do not fit the list, none is put there.
pub fn copy_groups(sheet: &[u8], span: Span, groups: &mut [u16])
    ensures copied { span.start + 2 * span.count ≤ length sheet.now →
        span.count ≤ length groups.old →
        take span.count groups.new ≡ groups_at sheet.now span.start span.count }
    ensures others { drop span.count groups.new ≡ drop span.count groups.old }
    ensures stays { (span.start + 2 * span.count ≤ length sheet.now → span.count ≤ length groups.old → ⊥)
        → groups.new ≡ groups.old }
{
    let Span { start, count } = span;
    if start <= sheet.len() && count <= (sheet.len() - start) / 2 && count <= groups.len() {
        copy(sheet, start, &mut groups[..count]);
    }
}

// Fills a list with the groups from a place on.
#[tactic(auto, using(crate::proofs::Copied::copied_more))]
fn copy(sheet: &[u8], start: usize, groups: &mut [u16])
    requires { start + 2 * length groups.old ≤ length sheet.now }
    ensures { groups.new ≡ groups_at sheet.now start (length groups.old) }
{
    for (i, group) in groups.iter_mut().enumerate() {
        *group = pair(sheet, start + 2 * i);
    }
}
