//! Where a run stands in its sheet, and which step may come there.
ghost use Rattle.std.specs.Prelude.{◌≡◌};
ghost use Rattle.runner.specs.Following.{move_of};

use domain::refusal::Refusal;
use sheet::{RunnerFault, StepKind};

// How far a sheet has come: to its open, past it, or past its end.
#[derive(Clone, Copy, PartialEq, Eq, Debug)]
pub(crate) enum State {
    New,
    Opened,
    Ended,
}

impl State {
    // The state after a step of this kind, or the refusal where it is out of order.
    pub(crate) fn after(self, kind: StepKind) -> Result<State, RunnerFault>
        ensures { result ≡ move_of self kind }
    {
        match (self, kind) {
            (State::New, StepKind::Open) => Ok(State::Opened),
            (State::Opened, StepKind::Bind | StepKind::Join | StepKind::Forget | StepKind::Ask) =>
                Ok(State::Opened),
            (State::Opened, StepKind::End) => Ok(State::Ended),
            (
                State::New,
                StepKind::Bind | StepKind::Join | StepKind::Forget | StepKind::Ask | StepKind::End,
            )
            | (State::Opened, StepKind::Open)
            | (State::Ended, _) => Err(RunnerFault::Runner(Refusal::Order)),
        }
    }
}
