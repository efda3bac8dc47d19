//! Runs over the work lists that a caller lends: the marks that are written, and lists that are too short.
use domain::limits::TABLE_BYTES;
use domain::refusal::Layer;
use keeper::Keeper;
use runner::{WorkLists, run};
use sheet::{Refused, StepKind, StepMark};
use std::process::Abort;
use std::test::Fail;
use table_keeper::TableKeeper;

// Opens two positions, and ends.
const TWO_STEPS: [u8; 9] = *b"\x01\x00\x01\x00\x02\x00\x00\x06\x00";

// A work list that is too short is refused by the one who needs it: the marks by the runner,
#[test]
fn one_mark_for_two_steps(rt: HostRuntime) -> Result<(), Fail> {
    let mut marks = [StepMark::blank(); 1];
    let mut scratch = [0u8; TABLE_BYTES];
    let Err(fault) = run(
        &mut TableKeeper::new(),
        &TWO_STEPS,
        &mut WorkLists {
            marks: &mut marks,
            groups: &mut [],
            scratch: &mut scratch,
        },
    ) else {
        return Err(Fail::new("there is room for one mark only"));
    };
    assert_eq!(rt;
        fault.refused(),
        Refused {
            number: 13,
            place: 5,
            step: 1,
            layer: Layer::Runner,
        }
    );
    Ok(())
}

// and the scratch by the keeper.
#[test]
fn scratch_is_one_byte_short(rt: HostRuntime) -> Result<(), Fail> {
    let mut marks = [StepMark::blank(); 1];
    let mut scratch = [0u8; TABLE_BYTES - 1];
    let Err(fault) = run(
        &mut TableKeeper::new(),
        &TWO_STEPS,
        &mut WorkLists {
            marks: &mut marks,
            groups: &mut [],
            scratch: &mut scratch,
        },
    ) else {
        return Err(Fail::new("scratch is one byte short"));
    };
    assert_eq!(rt;
        fault.refused(),
        Refused {
            number: 13,
            place: 0,
            step: 0,
            layer: Layer::Keeper,
        }
    );
    Ok(())
}

// A keeper that was opened before the run refuses the sheet's open itself, and no mark is written.
#[test]
fn a_keeper_that_is_open_already(rt: HostRuntime) -> Result<(), Fail> {
    let mut keeper = TableKeeper::new();
    let mut marks = [StepMark::blank(); 3];
    let mut scratch = [0u8; TABLE_BYTES];
    keeper.open(2, &mut scratch)?;
    let Err(fault) = run(
        &mut keeper,
        &THREE_STEPS,
        &mut WorkLists {
            marks: &mut marks,
            groups: &mut [],
            scratch: &mut scratch,
        },
    ) else {
        return Err(Fail::new("the keeper is open already"));
    };
    assert_eq!(rt;
        fault.refused(),
        Refused {
            number: 4,
            place: 0,
            step: 0,
            layer: Layer::Keeper,
        }
    );
    assert!(rt; marks == [StepMark::blank(); 3]);
    Ok(())
}

// The groups of a join need as many entries of the list that is lent for them.
#[test]
fn one_group_too_few(rt: HostRuntime) -> Result<(), Fail> {
    let sheet =
        b"\x01\x00\x01\x00\x02\x08\x00\x03\x00\x03\x00\x03\x00\x01\x00\x02\x00\x00\x00\x06\x00";
    let mut marks = [StepMark::blank(); 3];
    let mut scratch = [0u8; TABLE_BYTES];
    let Err(fault) = run(
        &mut TableKeeper::new(),
        sheet,
        &mut WorkLists {
            marks: &mut marks,
            groups: &mut [0; 1],
            scratch: &mut scratch,
        },
    ) else {
        return Err(Fail::new("there is room for one group only"));
    };
    assert_eq!(rt;
        fault.refused(),
        Refused {
            number: 13,
            place: 5,
            step: 1,
            layer: Layer::Runner,
        }
    );
    Ok(())
}

// Opens two positions, asks whether 1 is ground, and ends.
const THREE_STEPS: [u8; 15] = *b"\x01\x00\x01\x00\x02\x02\x00\x05\x00\x67\x01\x00\x00\x06\x00";

fn mark(place: u16, kind: StepKind, answer: bool) -> StepMark {
    StepMark {
        place,
        kind,
        answer,
    }
}

#[test]
fn a_mark_for_each_step(rt: HostRuntime) -> Result<(), Fail> {
    let mut marks = [StepMark::blank(); 3];
    let mut scratch = [0u8; TABLE_BYTES];
    let Ok(steps) = run(
        &mut TableKeeper::new(),
        &THREE_STEPS,
        &mut WorkLists {
            marks: &mut marks,
            groups: &mut [],
            scratch: &mut scratch,
        },
    ) else {
        return Err(Fail::new("there is room for every mark"));
    };
    assert_eq!(rt; steps, 3);
    assert!(rt;
        marks
            == [
                mark(0, StepKind::Open, true),
                mark(5, StepKind::Ask, false),
                mark(11, StepKind::End, true),
            ]
    );
    Ok(())
}

// The step without room is refused; those before it are marked, and no other entry is written.
#[test]
fn one_mark_too_few(rt: HostRuntime) -> Result<(), Fail> {
    let mut marks = [StepMark::blank(); 3];
    let mut scratch = [0u8; TABLE_BYTES];
    let Err(fault) = run(
        &mut TableKeeper::new(),
        &THREE_STEPS,
        &mut WorkLists {
            marks: &mut marks[0..2],
            groups: &mut [],
            scratch: &mut scratch,
        },
    ) else {
        return Err(Fail::new("there is room for two marks only"));
    };
    assert_eq!(rt;
        fault.refused(),
        Refused {
            number: 13,
            place: 11,
            step: 2,
            layer: Layer::Runner,
        }
    );
    assert!(rt;
        marks
            == [
                mark(0, StepKind::Open, true),
                mark(5, StepKind::Ask, false),
                StepMark::blank(),
            ]
    );
    Ok(())
}
