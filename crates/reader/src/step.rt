//! The record of a step: its head, and the step that its payload holds.
ghost use Rattle.std.specs.Prelude.{◌≡◌, ◌<◌, ◌≤◌, length, Ok, Err, IfOk, IfErr};
ghost use Rattle.domain.specs.declared.refusal.Layer.TheVariants.{Reader};
ghost use Rattle.sheet.specs.Faults.{CanRefuse};
ghost use Rattle.sheet.specs.Steps.{LiesOn};
ghost use Rattle.reader.specs.declared.record.TheConstants.{HEAD};
ghost use Rattle.reader.specs.declared.term.TheConstants.{DEEPEST};
ghost use Rattle.reader.specs.Heads.{head_at, head_of, place_after, sheet_of};
ghost use Rattle.reader.specs.Payloads.{open_of, bind_of, join_of, forget_of, ask_of, end_of, step_of, SumsTerm};

use crate::record::SheetRecord;
use domain::change::Change;
use domain::listing::Listing;
use domain::marks::Marks;
use sheet::{ReaderFault, Span, Step, StepKind};

/// The record of a step on its sheet, the head read and the payload not yet.
#[derive(Clone, Copy)]
pub struct StepRecord<'a> {
    record: SheetRecord<'a>,
    kind: StepKind,
}

impl<'a> StepRecord<'a> {
    /// Reads the head of the record at a place of the sheet: the record must lie on the sheet, and its kind be
    /// a step's.
    #[tactic(auto, using(crate::proofs::Faults::record_refuses, crate::proofs::Faults::kind_refuses))]
    pub fn read(sheet: &'a [u8], at: usize) -> Result<StepRecord<'a>, ReaderFault>
        ensures head_bytes { HEAD ≡ 4 }
        ensures head { IfOk result (λ r. Ok (head_of r) ≡ head_at sheet.now at) }
        ensures fault { IfErr result (λ f. Err f ≡ head_at sheet.now at) }
        ensures refuses { IfErr result (λ f. CanRefuse Reader f.refusal) }
        ensures onward { IfOk result (λ r. at < place_after (head_of r)) }
        ensures inside { IfOk result (λ r. place_after (head_of r) ≤ length sheet.now) }
        ensures same_sheet { IfOk result (λ r. sheet_of r ≡ sheet.now) }
    {
        let record = SheetRecord::read(sheet, at, sheet.len())?;
        let kind = record.frame.kind_of()?;
        Ok(StepRecord { record, kind })
    }

    /// The kind of the step.
    pub fn kind(&self) -> StepKind
        ensures { result ≡ (head_of self.now).kind }
    {
        self.kind
    }

    /// Where the record ends on the sheet.
    pub fn end(&self) -> usize
        ensures { result ≡ place_after (head_of self.now) }
    {
        self.record.frame.end
    }

    /// The step that the payload holds: first its length is tested, then it is read from left to right. The term
    /// of a bind says what occurs in the tree that the payload holds.
    #[tactic(auto, using(crate::proofs::Occurrences::bind_sums, crate::proofs::Faults::step_refuses, crate::proofs::Faults::an_open, crate::proofs::Faults::a_bind, crate::proofs::Faults::a_join, crate::proofs::Faults::a_forget, crate::proofs::Faults::an_ask, crate::proofs::Faults::an_end))]
    pub fn step(&self) -> Result<Step, ReaderFault>
        ensures deepest { DEEPEST ≡ 16 }
        ensures value { result ≡ step_of (sheet_of self.now) (head_of self.now) }
        ensures lies { IfOk result (LiesOn (sheet_of self.now)) }
        ensures refuses { IfErr result (λ f. CanRefuse Reader f.refusal) }
        ensures sums { IfOk result (SumsTerm (sheet_of self.now) (head_of self.now).frame) }
    {
        match self.kind {
            StepKind::Open => self.record.open(),
            StepKind::Bind => self.record.bind(),
            StepKind::Join => self.record.join(),
            StepKind::Forget => self.record.forget(),
            StepKind::Ask => self.record.ask(),
            StepKind::End => self.record.end(),
        }
    }
}

impl SheetRecord<'_> {
    fn open(&self) -> Result<Step, ReaderFault>
        ensures { result ≡ open_of self.now.sheet.now self.now.frame }
    {
        self.expect(self.len() == 1)?;
        Ok(Step::Open(self.sheet[self.frame.start]))
    }

    fn bind(&self) -> Result<Step, ReaderFault>
        ensures { result ≡ bind_of self.now.sheet.now self.now.frame }
    {
        self.expect(self.len() >= 5)?;
        let position = self.position_at(0)?;
        let inner = self.inner(self.frame.start + 1)?;
        let term = inner.term()?;
        self.expect(inner.frame.end == self.frame.end)?;
        Ok(Step::Change(Change::Bind { position, term }))
    }

    // The two masks, and then the groups, which stay on the sheet.
    fn join(&self) -> Result<Step, ReaderFault>
        ensures { result ≡ join_of self.now.sheet.now self.now.frame }
    {
        self.expect(self.len() >= 4 && self.len() % 2 == 0)?;
        let marks = Marks {
            free: self.pair_at(0),
            linear: self.pair_at(2),
        };
        let groups = Span {
            start: self.frame.start + 4,
            count: (self.len() - 4) / 2,
        };
        Ok(Step::Change(Change::Join(Listing { marks, groups })))
    }

    fn forget(&self) -> Result<Step, ReaderFault>
        ensures { result ≡ forget_of self.now.sheet.now self.now.frame }
    {
        self.expect(self.len() == 2)?;
        Ok(Step::Change(Change::Forget(self.pair_at(0))))
    }

    fn ask(&self) -> Result<Step, ReaderFault>
        ensures { result ≡ ask_of self.now.sheet.now self.now.frame }
    {
        self.expect((2..=3).contains(&self.len()))?;
        Ok(Step::Ask(self.question()?))
    }

    fn end(&self) -> Result<Step, ReaderFault>
        ensures { result ≡ end_of self.now.frame }
    {
        self.expect(self.len() == 0)?;
        Ok(Step::End)
    }
}
