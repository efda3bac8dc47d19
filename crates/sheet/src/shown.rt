//! How a mark, a refusal and a fault are shown.
ghost use Rattle.std.specs.Prelude.{◌≡◌, Some};
ghost use Rattle.sheet.specs.Shown.{answer_name, fault_text, mark_text, refused_text};

use crate::fault::{Refused, SheetFault};
use crate::mark::StepMark;
use std::fmt;

/// Place, kind and answer of a step that was done.
impl fmt::Display for StepMark {
    ghost output = { λ m. Some (mark_text m) };

    fn fmt<W: fmt::Write>(&self, f: &mut fmt::Formatter<W>) -> fmt::Result {
        let StepMark {
            place,
            kind,
            answer,
        } = *self;
        let answer = answer_name(answer);
        write!(f, "{place} {kind} {answer}")
    }
}

/// What was refused, where, and by whom.
impl fmt::Display for Refused {
    ghost output = { λ r. Some (refused_text r) };

    fn fmt<W: fmt::Write>(&self, f: &mut fmt::Formatter<W>) -> fmt::Result {
        let Refused {
            number,
            place,
            step,
            layer,
        } = *self;
        write!(f, "refused {number} at {place} step {step} {layer}")
    }
}

/// A fault is shown by what is told of it.
impl fmt::Display for SheetFault {
    ghost output = { λ f. Some (fault_text f) };

    fn fmt<W: fmt::Write>(&self, f: &mut fmt::Formatter<W>) -> fmt::Result {
        self.refused().fmt(f)
    }
}

// How an answer is printed.
fn answer_name(answer: bool) -> &'static str
    ensures { result.now ≡ answer_name answer }
{
    if answer { "yes" } else { "no" }
}
