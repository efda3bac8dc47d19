//! A whole sheet, run on any keeper.
ghost use Rattle.std.specs.Prelude.{◌≡◌, ◌≤◌, length, IfErr};
ghost use Rattle.roll.specs.Views.{loan_of, slots, used_in};
ghost use Rattle.sheet.specs.Faults.{CanOccur};
ghost use Rattle.sheet.specs.declared.steps.TheConstants.{LONGEST_SHEET};
ghost use Rattle.runner.specs.Laying.{ReadsLaid};
ghost use Rattle.runner.specs.Meaning.{SameEverywhere, OneMeaning, AsMeant};
ghost use Rattle.runner.specs.Playing.{Ran};
ghost use Rattle.runner.specs.Settings.{setting_of};
ghost use Rattle.runner.specs.Turning.{outcome_of};

use crate::state::State;
use crate::turn::{Cursor, take_step};
use domain::refusal::Refusal;
use keeper::Keeper;
use roll::Roll;
use sheet::{LONGEST_SHEET, ReaderFault, RunnerFault, SheetFault, StepMark};

/// The lists that a run works in, lent by its caller.
#[derive(Drop)]
pub struct WorkLists<'a> {
    /// takes the marks of the steps that are done, from its start; its other entries stay
    pub marks: &'a mut [StepMark],
    /// takes the groups of a join; its contents afterwards are free
    pub groups: &'a mut [u16],
    /// what the keeper works in; its contents afterwards are free
    pub scratch: &'a mut [u8],
}

/// Runs a sheet: the number of its steps, or the fault at which it stops.
#[tactic(auto, using(crate::proofs::Runs::long_sheet_ran, crate::proofs::Runs::ran_over, crate::proofs::Meanings::ran_everywhere, crate::proofs::Settled::ran_as_meant))]
pub fn run<K: Keeper>(
    keeper: &mut K,
    sheet: &[u8],
    lists: &mut WorkLists<'_>,
) -> Result<usize, SheetFault>
    ensures ran { Ran (setting_of (K.Keeper.capacity keeper.old) sheet.now lists.old)
        (record { before = K.Keeper.told keeper.old; after = K.Keeper.told keeper.new })
        lists.old.marks.now lists.new.marks.now result }
    ensures same_everywhere { SameEverywhere
        (setting_of (K.Keeper.capacity keeper.old) sheet.now lists.old)
        (record { before = K.Keeper.told keeper.old; after = K.Keeper.told keeper.new })
        lists.old.marks.now lists.new.marks.now result }
    ensures one_meaning { OneMeaning (length lists.old.scratch.now) (length lists.old.groups.now)
        (length lists.old.marks.now) sheet.now }
    ensures as_meant { AsMeant
        (setting_of (K.Keeper.capacity keeper.old) sheet.now lists.old)
        (record { before = K.Keeper.told keeper.old; after = K.Keeper.told keeper.new })
        lists.old.marks.now lists.new.marks.now result }
    ensures reads_laid { ReadsLaid sheet.now (length lists.old.groups.now)
        (length lists.old.marks.now) }
    ensures layer { IfErr result (λ f. CanOccur f.cause) }
    ensures same_capacity { K.Keeper.capacity keeper.new ≡ K.Keeper.capacity keeper.old }
    ensures marks_long { length lists.new.marks.now ≡ length lists.old.marks.now }
    ensures groups_long { length lists.new.groups.now ≡ length lists.old.groups.now }
    ensures scratch_long { length lists.new.scratch.now ≡ length lists.old.scratch.now }
    ensures marks_lent { lists.new.marks.ghost_name ≡ lists.old.marks.ghost_name }
    ensures groups_lent { lists.new.groups.ghost_name ≡ lists.old.groups.ghost_name }
    ensures scratch_lent { lists.new.scratch.ghost_name ≡ lists.old.scratch.ghost_name }
{
    if sheet.len() > LONGEST_SHEET {
        let fault = ReaderFault {
            refusal: Refusal::Length,
            place: 0,
        };
        return Err(RunnerFault::Reader(fault).at(0, 0));
    }
    let mut marks = Roll::over(lists.marks);
    run_steps(keeper, sheet, &mut marks, lists.groups, lists.scratch)
}

// The steps of a sheet that is not too long.
fn run_steps<K: Keeper>(
    keeper: &mut K,
    sheet: &[u8],
    marks: &mut Roll<'_, StepMark>,
    groups: &mut [u16],
    scratch: &mut [u8],
) -> Result<usize, SheetFault>
    requires short { length sheet.now ≤ LONGEST_SHEET }
    requires unused { used_in marks.old ≡ 0 }
    ensures ran { Ran
        (record {
          capacity = K.Keeper.capacity keeper.old;
          scratch = length scratch.old;
          sheet = sheet.now;
          groups = length groups.old;
        })
        (record { before = K.Keeper.told keeper.old; after = K.Keeper.told keeper.new })
        (slots marks.old) (slots marks.new) result }
    ensures long { length (slots marks.new) ≡ length (slots marks.old) }
    ensures lent { loan_of marks.new ≡ loan_of marks.old }
    ensures same_capacity { K.Keeper.capacity keeper.new ≡ K.Keeper.capacity keeper.old }
{
    let mut cursor = Cursor {
        state: State::New,
        at: 0,
        step: 0,
    };
    while cursor.at < sheet.len() {
        cursor = take_step(keeper, sheet, cursor, marks, groups, scratch).map_err(|fault| fault.at(
            cursor.step,
            cursor.at,
        ))?;
    }
    outcome(cursor)
}

// What comes of a run whose bytes are used up: an end record must have come.
fn outcome(cursor: Cursor) -> Result<usize, SheetFault>
    ensures { result ≡ outcome_of cursor }
{
    match cursor.state {
        State::Ended => Ok(cursor.step),
        State::New | State::Opened => {
            let fault = ReaderFault {
                refusal: Refusal::Truncated,
                place: cursor.at,
            };
            Err(RunnerFault::Reader(fault).at(cursor.step, cursor.at))
        }
    }
}
