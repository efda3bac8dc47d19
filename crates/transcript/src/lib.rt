//! Everything that a program prints of a run.
#![tactic(auto)]

ghost use Rattle.std.specs.Prelude.{◌≡◌, take, IfOk, string_bytes};
ghost use Rattle.transcript.specs.Transcripts.{transcript_of, lines_of};

pub mod line;
#[cfg(test)]
mod tests;

use crate::line::{add_mark, add_refusal};
use sheet::{SheetFault, StepMark};
use std::alloc::{AllocError, Global};

/// A line for each step that was done, then one for the refusal if there was one.
pub fn transcript(
    heap: Global,
    marks: &[StepMark],
    outcome: Result<usize, SheetFault>,
) -> Result<String, AllocError>
    ensures { IfOk result (λ s. string_bytes s ≡ transcript_of marks.now outcome) }
{
    match outcome {
        Ok(steps) => mark_lines(heap, marks, steps),
        Err(fault) => {
            let mut text = mark_lines(heap, marks, fault.step)?;
            add_refusal(&mut text, fault.refused())?;
            Ok(text)
        }
    }
}

// The lines of so many marks, or of all where there are fewer.
#[tactic(auto, using(crate::proofs::Transcripts::lines_more))]
fn mark_lines(heap: Global, marks: &[StepMark], count: usize) -> Result<String, AllocError>
    ensures { IfOk result (λ s. string_bytes s ≡ lines_of (take count marks.now)) }
{
    let mut text = String::new(heap);
    for mark in marks.iter().take(count) {
        add_mark(&mut text, *mark)?;
    }
    Ok(text)
}
