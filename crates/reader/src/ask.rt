//! The payload of an ask.
ghost use Rattle.std.specs.Prelude.{◌≡◌, ◌≤◌};
ghost use Rattle.reader.specs.Records.{payload};
ghost use Rattle.reader.specs.Payloads.{one_of, two_of, question_of};

use crate::record::SheetRecord;
use domain::refusal::Refusal;
use keeper::Question;
use sheet::ReaderFault;

impl SheetRecord<'_> {
    // The question of an ask: its letter, and then the positions that the letter takes.
    pub(crate) fn question(&self) -> Result<Question, ReaderFault>
        requires { 2 ≤ payload self.now.frame }
        ensures { result ≡ question_of self.now.sheet.now self.now.frame }
    {
        match char::from(self.sheet[self.frame.start]) {
            'g' => Ok(Question::Ground(self.one_position()?)),
            'f' => Ok(Question::Free(self.one_position()?)),
            'l' => Ok(Question::Linear(self.one_position()?)),
            'p' => {
                let (a, b) = self.two_positions()?;
                Ok(Question::Pair(a, b))
            }
            _ => Err(self.frame.fault(Refusal::Letter)),
        }
    }

    fn one_position(&self) -> Result<u8, ReaderFault>
        ensures { result ≡ one_of self.now.sheet.now self.now.frame }
    {
        self.expect(self.len() == 2)?;
        self.position_at(1)
    }

    fn two_positions(&self) -> Result<(u8, u8), ReaderFault>
        ensures { result ≡ two_of self.now.sheet.now self.now.frame }
    {
        self.expect(self.len() == 3)?;
        let left = self.position_at(1)?;
        let right = self.position_at(2)?;
        Ok((left, right))
    }
}
