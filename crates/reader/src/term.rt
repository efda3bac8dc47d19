//! The terms of a bind.
ghost use Rattle.std.specs.Prelude.{◌≡◌, ◌≤◌};
ghost use Rattle.std.specs.Option.{ok_or};
ghost use Rattle.domain.specs.Terms.{constant_term};
ghost use Rattle.domain.specs.declared.refusal.Refusal.TheVariants.{Kind};
ghost use Rattle.reader.specs.Records.{payload};
ghost use Rattle.reader.specs.TermKinds.{term_kind};
ghost use Rattle.reader.specs.Trees.{position_of, constant_of, compound_by, compound_of, args_of, tree_of, sum_of, onto, term_of, SumsUp};

use crate::record::SheetRecord;
use domain::refusal::Refusal;
use domain::term::Term;
use sheet::ReaderFault;

// The kinds of terms.
#[derive(Clone, Copy)]
pub(crate) enum TermKind {
    Position,
    Constant,
    Compound,
}

/// Compounds nest at most this deep, the outermost counting as 1.
pub const DEEPEST: u8 = 16;

// The kind that has this number on a sheet.
impl TryFrom<u16> for TermKind {
    type Error = Refusal;

    ghost try_from_gives = { λ number r. r ≡ ok_or (term_kind number) Kind };

    fn try_from(number: u16) -> Result<TermKind, Refusal> {
        match number {
            17 => Ok(TermKind::Position),
            18 => Ok(TermKind::Constant),
            19 => Ok(TermKind::Compound),
            _ => Err(Refusal::Kind),
        }
    }
}

impl SheetRecord<'_> {
    // The term of a record, summed up: what is held occurs in it, and what is repeated more than once.
    #[tactic(auto, using(crate::proofs::Occurrences::sums_up))]
    pub(crate) fn term(&self) -> Result<Term, ReaderFault>
        ensures value { result ≡ term_of self.now.sheet.now self.now.frame }
        ensures law { SumsUp self.now.sheet.now self.now.frame result }
    {
        self.nested(DEEPEST)
    }

    // A term in which `depth` compounds may still nest.
    #[cycle(arguments_compound_nested)]
    fn nested(&self, depth: u8) -> Result<Term, ReaderFault>
        ensures { result ≡ sum_of (tree_of self.now.sheet.now depth self.now.frame) }
    {
        match self.frame.kind_of::<TermKind>()? {
            TermKind::Position => self.position(),
            TermKind::Constant => self.constant(),
            TermKind::Compound => self.compound(depth),
        }
    }

    fn position(&self) -> Result<Term, ReaderFault>
        ensures { result ≡ sum_of (position_of self.now.sheet.now self.now.frame) }
    {
        self.expect(self.len() == 1)?;
        Ok(Term::position(self.position_at(0)?))
    }

    fn constant(&self) -> Result<Term, ReaderFault>
        ensures { result ≡ sum_of (constant_of self.now.sheet.now self.now.frame) }
    {
        self.expect(self.len() == 2)?;
        Ok(Term::over(0, 0))
    }

    // A compound, whose terms fill its payload after the functor number.
    #[cycle(arguments_compound_nested)]
    #[tactic(auto, using(crate::proofs::Arguments::too_deep, crate::proofs::Arguments::deeper))]
    fn compound(&self, depth: u8) -> Result<Term, ReaderFault>
        ensures { result ≡ sum_of (compound_by self.now.sheet.now
            (compound_of self.now.sheet.now depth) self.now.frame) }
    {
        self.expect(self.len() >= 6)?;
        if depth == 0 {
            return Err(self.frame.fault(Refusal::Depth));
        }
        self.arguments(depth - 1)
    }

    // The terms of a compound side by side, in each of which `depth` compounds may still nest.
    #[cycle(arguments_compound_nested)]
    #[tactic(auto, using(crate::proofs::Arguments::next_from))]
    fn arguments(&self, depth: u8) -> Result<Term, ReaderFault>
        requires { 2 ≤ payload self.now.frame }
        ensures { result ≡ onto constant_term (args_of self.now.sheet.now
            (tree_of self.now.sheet.now depth) self.now.frame) }
    {
        let mut all = Term::over(0, 0);
        let mut at = self.frame.start + 2;
        while at < self.frame.end {
            let inner = self.inner(at)?;
            all = all.beside(inner.nested(depth)?);
            at = inner.frame.end;
        }
        Ok(all)
    }
}
