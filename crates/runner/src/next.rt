//! The next step of a sheet, as far as its bytes and the state of the run decide it.
ghost use Rattle.std.specs.Prelude.{◌≡◌, ◌<◌, ◌≤◌, length, IfOk};
ghost use Rattle.runner.specs.Following.{next_at};
ghost use Rattle.sheet.specs.Steps.{LiesOn};

use crate::state::State;
use domain::refusal::Refusal;
use reader::StepRecord;
use sheet::{RunnerFault, Step};

// A step that was read, the state after it and the place where the next one begins.
#[derive(Clone, Copy)]
pub(crate) struct Next {
    pub(crate) step: Step,
    pub(crate) state: State,
    pub(crate) end: usize,
}

// The step at a place of the sheet, if one may come there. Any byte after the end is out of order, before it is
// read.
pub(crate) fn next_step(sheet: &[u8], state: State, at: usize) -> Result<Next, RunnerFault>
    ensures value { result ≡ next_at sheet.now state at }
    ensures onward { IfOk result (λ next. at < next.end) }
    ensures inside { IfOk result (λ next. next.end ≤ length sheet.now) }
    ensures lies { IfOk result (λ next. LiesOn sheet.now next.step) }
{
    if state == State::Ended {
        return Err(RunnerFault::Runner(Refusal::Order));
    }
    let record = StepRecord::read(sheet, at)?;
    let state = state.after(record.kind())?;
    let step = record.step()?;
    Ok(Next {
        step,
        state,
        end: record.end(),
    })
}
