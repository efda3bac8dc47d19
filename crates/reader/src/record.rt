//! Records: a head of a length and a kind, then the payload.
ghost use Rattle.std.specs.Prelude.{◌≡◌, ◌+◌, ◌<◌, ◌≤◌, true, false, length, Ok, Err, IfOk, IfErr};
ghost use Rattle.domain.specs.declared.limits.TheConstants.{MOST_POSITIONS};
ghost use Rattle.domain.specs.declared.refusal.Refusal.TheVariants.{Length};
ghost use Rattle.reader.specs.Records.{record_at, pair_at, payload, position_at, LiesBetween, Part};

use domain::limits::{MOST_POSITIONS, check_position};
use domain::refusal::Refusal;
use sheet::ReaderFault;

/// The bytes of a length and a kind, which stand before the payload.
pub const HEAD: usize = 4;

// Where a record starts, its kind, and where its payload starts and ends.
#[derive(Clone, Copy)]
pub(crate) struct Record {
    pub(crate) place: usize,
    // the number as it stands on the sheet
    pub(crate) kind: u16,
    pub(crate) start: usize,
    pub(crate) end: usize,
}

impl Record {
    // A refusal, placed at this record.
    pub(crate) fn fault(self, refusal: Refusal) -> ReaderFault
        ensures { result ≡ record { refusal = refusal; place = self.place } }
    {
        ReaderFault {
            refusal,
            place: self.place,
        }
    }

    // The kind of what the record holds, a step or a term.
    pub(crate) fn kind_of<K: TryFrom<u16, Error = Refusal> + Drop>(self) -> Result<K, ReaderFault>
        ensures ok { IfOk result (λ k. K.try_from_gives self.kind (Ok k)) }
        ensures err { IfErr result (λ f.
            K.try_from_gives self.kind (Err f.refusal) × (f.place ≡ self.place)) }
    {
        K::try_from(self.kind).map_err(|refusal| self.fault(refusal))
    }
}

// A record with its sheet, on which the whole of its payload lies.
#[derive(Clone, Copy)]
pub(crate) struct SheetRecord<'a> {
    pub(crate) sheet: &'a [u8],
    pub(crate) frame: Record,
    ghost part: { Part sheet.now frame },
}

impl<'a> SheetRecord<'a> {
    // The record at a place, which may not reach past an end.
    pub(crate) fn read(
        sheet: &'a [u8],
        at: usize,
        end: usize,
    ) -> Result<SheetRecord<'a>, ReaderFault>
        requires { end ≤ length sheet.now }
        ensures frame { IfOk result (λ x. Ok x.frame ≡ record_at sheet.now at end) }
        ensures fault { IfErr result (λ f. Err f ≡ record_at sheet.now at end) }
        ensures within { IfOk result (λ x. LiesBetween at end x.frame) }
        ensures same_sheet { IfOk result (λ x. x.sheet.now ≡ sheet.now) }
    {
        let truncated = ReaderFault {
            refusal: Refusal::Truncated,
            place: at,
        };
        if end.saturating_sub(at) < HEAD {
            return Err(truncated);
        }
        let length = usize::from(pair(sheet, at));
        let start = at + HEAD;
        if end - start < length {
            return Err(truncated);
        }
        let frame = Record {
            place: at,
            kind: pair(sheet, at + 2),
            start,
            end: start + length,
        };
        Ok(SheetRecord { sheet, frame })
    }

    // The record at a place of the payload, past which it may not reach.
    pub(crate) fn inner(&self, at: usize) -> Result<SheetRecord<'a>, ReaderFault>
        ensures frame { IfOk result (λ x.
            Ok x.frame ≡ record_at self.now.sheet.now at self.now.frame.end) }
        ensures fault { IfErr result (λ f.
            Err f ≡ record_at self.now.sheet.now at self.now.frame.end) }
        ensures within { IfOk result (λ x. LiesBetween at self.now.frame.end x.frame) }
        ensures same_sheet { IfOk result (λ x. x.sheet.now ≡ self.now.sheet.now) }
    {
        SheetRecord::read(self.sheet, at, self.frame.end)
    }

    // How long the payload is.
    pub(crate) fn len(&self) -> usize
        ensures { result ≡ payload self.now.frame }
    {
        self.frame.end - self.frame.start
    }

    // Refuses a payload whose length does not fit.
    pub(crate) fn expect(&self, fits: bool) -> Result<(), ReaderFault>
        ensures ok { IfOk result (λ _. fits ≡ true) }
        ensures err { IfErr result (λ f.
            (fits ≡ false) × (f ≡ record { refusal = Length; place = self.now.frame.place })) }
    {
        if !fits {
            return Err(self.frame.fault(Refusal::Length));
        }
        Ok(())
    }

    // The byte of the payload at an offset, which names a position.
    pub(crate) fn position_at(&self, offset: usize) -> Result<u8, ReaderFault>
        requires { offset < payload self.now.frame }
        ensures value { result ≡
            position_at self.now.sheet.now self.now.frame (self.now.frame.start + offset) }
        ensures small { IfOk result (λ p. p < MOST_POSITIONS) }
    {
        let frame = self.frame;
        let position = self.sheet[frame.start + offset];
        check_position(MOST_POSITIONS, position).map_err(|refusal| frame.fault(refusal))?;
        Ok(position)
    }

    // Two bytes of the payload from an offset on, little-endian.
    pub(crate) fn pair_at(&self, offset: usize) -> u16
        requires { offset + 1 < payload self.now.frame }
        ensures { result ≡ pair_at self.now.sheet.now (self.now.frame.start + offset) }
    {
        pair(self.sheet, self.frame.start + offset)
    }
}

// Two bytes of the sheet, little-endian.
pub(crate) fn pair(sheet: &[u8], at: usize) -> u16
    requires { at + 1 < length sheet.now }
    ensures { result ≡ pair_at sheet.now at }
{
    u16::from_le_bytes([sheet[at], sheet[at + 1]])
}
