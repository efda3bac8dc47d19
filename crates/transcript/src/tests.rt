//! The two lines.
use crate::line::{mark_line, refusal_line};
use domain::refusal::Layer;
use sheet::{Refused, StepKind, StepMark};
use std::test::Fail;

#[test]
fn lines(rt: HostRuntime) -> Result<(), Fail> {
    let mark = StepMark {
        place: 15,
        kind: StepKind::Ask,
        answer: true,
    };
    let line = mark_line(rt.alloc(), mark)?;
    assert_eq!(rt; line.as_str(), "15 ask yes\n");
    let mark = StepMark {
        place: 7,
        kind: StepKind::Forget,
        answer: true,
    };
    let line = mark_line(rt.alloc(), mark)?;
    assert_eq!(rt; line.as_str(), "7 forget yes\n");
    let refused = Refused {
        number: 7,
        place: 5,
        step: 1,
        layer: Layer::Keeper,
    };
    let line = refusal_line(rt.alloc(), refused)?;
    assert_eq!(rt; line.as_str(), "refused 7 at 5 step 1 keeper\n");
    Ok(())
}
