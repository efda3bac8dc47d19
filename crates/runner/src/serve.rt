//! One step, handed to the keeper.
ghost use Rattle.std.specs.Prelude.{◌≡◌, ◌≤◌, length, take};
ghost use Rattle.domain.specs.Changes.{map_change};
ghost use Rattle.sheet.specs.Steps.{LiesOn, group_count};
ghost use Rattle.sheet.specs.declared.steps.Step.{Step};
ghost use Rattle.runner.specs.Serving.{Serves, change_on};

use domain::change::Change;
use keeper::{Keeper, KeeperFault};
use reader::copy_groups;
use sheet::{Span, Step};

// The keeper's answer to a step: yes or no, where a step that is no question answers yes. The groups of a change
// are copied to the start of `groups`, whose contents afterwards are free, as are those of `scratch`.
pub(crate) fn serve<K: Keeper>(
    keeper: &mut K,
    sheet: &[u8],
    step: Step,
    groups: &mut [u16],
    scratch: &mut [u8],
) -> Result<bool, KeeperFault>
    requires lies { LiesOn sheet.now step }
    requires room { group_count step ≤ length groups.old }
    ensures serves { Serves
        (record {
          capacity = K.Keeper.capacity keeper.old;
          scratch = length scratch.old;
          sheet = sheet.now;
          groups = length groups.old;
        })
        step (record { before = K.Keeper.told keeper.old; after = K.Keeper.told keeper.new }) result }
    ensures same_capacity { K.Keeper.capacity keeper.new ≡ K.Keeper.capacity keeper.old }
{
    match step {
        Step::Open(n) => keeper.open(n, scratch)?,
        Step::Change(change) => {
            let count = copy_change(sheet, change, groups);
            keeper.change(change.with_groups(&groups[..count]), scratch)?;
        }
        Step::Ask(question) => return question.ask(keeper),
        Step::End => {}
    }
    Ok(true)
}

// Puts the groups of a change at the start of a list, and tells how many they are.
fn copy_change(sheet: &[u8], change: Change<Span>, groups: &mut [u16]) -> usize
    requires lies { LiesOn sheet.now (Step.Change change) }
    requires room { group_count (Step.Change change) ≤ length groups.old }
    ensures copied { map_change (λ _. take result groups.new) change ≡ change_on sheet.now change }
    ensures fits { result ≤ length groups.new }
{
    match change.groups() {
        Some(span) => {
            copy_groups(sheet, span, groups);
            span.count
        }
        None => 0,
    }
}
