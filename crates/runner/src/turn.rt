//! One turn of the runner: a step is read, handed to the keeper and marked.
ghost use Rattle.std.specs.Prelude.{◌≡◌, ◌+◌, ◌<◌, ◌≤◌, length, IfOk};
ghost use Rattle.roll.specs.Views.{loan_of, slots};
ghost use Rattle.sheet.specs.declared.steps.TheConstants.{LONGEST_SHEET};
ghost use Rattle.runner.specs.Following.{next_at};
ghost use Rattle.runner.specs.Turning.{Marked, Turns};

use crate::next::next_step;
use crate::serve::serve;
use crate::state::State;
use domain::refusal::Refusal;
use keeper::Keeper;
use roll::Roll;
use sheet::{LONGEST_SHEET, RunnerFault, StepMark};

// Where a runner stands: its state, the place of the next record and the number of the next step.
#[derive(Clone, Copy)]
pub(crate) struct Cursor {
    pub(crate) state: State,
    pub(crate) at: usize,
    pub(crate) step: usize,
}

// The cursor after the next step, or why there is none.
pub(crate) fn take_step<K: Keeper>(
    keeper: &mut K,
    sheet: &[u8],
    cursor: Cursor,
    marks: &mut Roll<'_, StepMark>,
    groups: &mut [u16],
    scratch: &mut [u8],
) -> Result<Cursor, RunnerFault>
    requires more { cursor.at < length sheet.now }
    requires short { length sheet.now ≤ LONGEST_SHEET }
    requires marked { Marked cursor marks.old }
    ensures turns { Turns
        (record {
          capacity = K.Keeper.capacity keeper.old;
          scratch = length scratch.old;
          sheet = sheet.now;
          groups = length groups.old;
        })
        cursor (next_at sheet.now cursor.state cursor.at)
        (record { before = K.Keeper.told keeper.old; after = K.Keeper.told keeper.new })
        (slots marks.old) (slots marks.new) result }
    ensures onward { IfOk result (λ c. cursor.at < c.at) }
    ensures inside { IfOk result (λ c. c.at ≤ length sheet.now) }
    ensures marked { IfOk result (λ c. Marked c marks.new) }
    ensures long { length (slots marks.new) ≡ length (slots marks.old) }
    ensures lent { loan_of marks.new ≡ loan_of marks.old }
    ensures same_capacity { K.Keeper.capacity keeper.new ≡ K.Keeper.capacity keeper.old }
{
    let next = next_step(sheet, cursor.state, cursor.at)?;
    if marks.len() >= marks.capacity() || next.step.group_count() > groups.len() {
        return Err(RunnerFault::Runner(Refusal::Room));
    }
    let answer = serve(keeper, sheet, next.step, groups, scratch)?;
    // there is room, and no earlier mark has this place
    let _ = marks.add(StepMark {
        // the cast narrows; it is proved to fit
        place: cursor.at as u16,
        kind: next.step.kind(),
        answer,
    });
    Ok(Cursor {
        state: next.state,
        at: next.end,
        step: cursor.step + 1,
    })
}
