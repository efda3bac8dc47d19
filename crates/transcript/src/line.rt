//! Lines one by one: for a caller that prints one at a time, or put behind a text.
ghost use Rattle.std.specs.Prelude.{◌≡◌, ◌++◌, IfOk, string_bytes};
ghost use Rattle.transcript.specs.Lines.{mark_line, refusal_line};

use sheet::{Refused, StepMark};
use std::alloc::{AllocError, Global};

/// The line of a step that was done.
pub fn mark_line(heap: Global, mark: StepMark) -> Result<String, AllocError>
    ensures { IfOk result (λ s. string_bytes s ≡ mark_line mark) }
{
    let mut line = String::new(heap);
    add_mark(&mut line, mark)?;
    Ok(line)
}

/// The last line of a sheet that was refused.
pub fn refusal_line(heap: Global, refused: Refused) -> Result<String, AllocError>
    ensures { IfOk result (λ s. string_bytes s ≡ refusal_line refused) }
{
    let mut line = String::new(heap);
    add_refusal(&mut line, refused)?;
    Ok(line)
}

// Puts the line of a step that was done behind the text.
pub(crate) fn add_mark(text: &mut String, mark: StepMark) -> Result<(), AllocError>
    ensures { IfOk result
        (λ u. string_bytes text.new ≡ string_bytes text.old ++ mark_line mark) }
{
    writeln!(text, "{mark}")?;
    Ok(())
}

// Puts the last line of a sheet that was refused behind the text.
pub(crate) fn add_refusal(text: &mut String, refused: Refused) -> Result<(), AllocError>
    ensures { IfOk result
        (λ u. string_bytes text.new ≡ string_bytes text.old ++ refusal_line refused) }
{
    writeln!(text, "{refused}")?;
    Ok(())
}
