//! The kinds of steps.
ghost use Rattle.std.specs.Prelude.{◌≡◌, Some};
ghost use Rattle.std.specs.Option.{ok_or};
ghost use Rattle.domain.specs.declared.refusal.Refusal.TheVariants.{Kind};
ghost use Rattle.sheet.specs.Kinds.{change_kind, step_kind, step_name};

use domain::change::Change;
use domain::refusal::Refusal;
use std::fmt;

/// The kind of a step, without what the step carries.
#[derive(Clone, Copy, PartialEq, Eq, Debug)]
pub enum StepKind {
    /// opens the keeper
    Open,
    /// binds a position to a term
    Bind,
    /// joins another description
    Join,
    /// forgets positions
    Forget,
    /// asks a question
    Ask,
    /// ends the sheet
    End,
}

/// The kind that has this number on a sheet; a number of none is refused.
impl TryFrom<u16> for StepKind {
    type Error = Refusal;

    ghost try_from_gives = { λ number r. r ≡ ok_or (step_kind number) Kind };

    fn try_from(number: u16) -> Result<StepKind, Refusal> {
        match number {
            1 => Ok(StepKind::Open),
            2 => Ok(StepKind::Bind),
            3 => Ok(StepKind::Join),
            4 => Ok(StepKind::Forget),
            5 => Ok(StepKind::Ask),
            6 => Ok(StepKind::End),
            _ => Err(Refusal::Kind),
        }
    }
}

impl StepKind {
    /// The kind of a step that makes this change.
    pub fn of_change<G: Copy>(change: Change<G>) -> StepKind
        ensures { result ≡ change_kind change }
    {
        match change {
            Change::Bind { .. } => StepKind::Bind,
            Change::Join(_) => StepKind::Join,
            Change::Forget(_) => StepKind::Forget,
        }
    }

    /// The name that a line prints.
    pub fn name(self) -> &'static str
        ensures { result.now ≡ step_name self }
    {
        match self {
            StepKind::Open => "open",
            StepKind::Bind => "bind",
            StepKind::Join => "join",
            StepKind::Forget => "forget",
            StepKind::Ask => "ask",
            StepKind::End => "end",
        }
    }
}

/// Its name.
impl fmt::Display for StepKind {
    ghost output = { λ kind. Some (step_name kind) };

    fn fmt<W: fmt::Write>(&self, f: &mut fmt::Formatter<W>) -> fmt::Result {
        f.write_str(self.name())
    }
}
