//! Faults: the reader's, the runner's and the sheet's. Each one holds the one below whole.
ghost use Rattle.std.specs.Prelude.{◌≡◌, ◌↔◌, IsTrue};
ghost use Rattle.std.specs.Cmp.Rules.{comparing};
ghost use Rattle.sheet.specs.contracts.fault.RefusedEq.TheImpl.Laws.{laws-law};
ghost use Rattle.sheet.specs.Faults.{number_in, layer_in, fault_at, refused_of, fault_eq, SameFault};
ghost use Rattle.sheet.specs.declared.fault.RunnerFault.TheVariants.{Reader, Keeper};

use domain::refusal::{Layer, Refusal};
use keeper::KeeperFault;

/// The reader's fault.
#[derive(Clone, Copy, PartialEq, Eq, Debug)]
pub struct ReaderFault {
    /// what was refused
    pub refusal: Refusal,
    /// the byte at which the innermost record that is wrong starts
    pub place: usize,
}

/// Why the runner stops at a step.
#[derive(Clone, Copy, PartialEq, Eq, Debug)]
pub enum RunnerFault {
    /// the sheet cannot be read there
    Reader(ReaderFault),
    /// the step is out of order, or a work list is full
    Runner(Refusal),
    /// the keeper refuses
    Keeper(KeeperFault),
}

impl From<ReaderFault> for RunnerFault {
    ghost from_gives = { λ f r. r ≡ Reader f };

    fn from(fault: ReaderFault) -> Self {
        Self::Reader(fault)
    }
}

impl From<KeeperFault> for RunnerFault {
    ghost from_gives = { λ f r. r ≡ Keeper f };

    fn from(fault: KeeperFault) -> Self {
        Self::Keeper(fault)
    }
}

impl RunnerFault {
    /// The fault on the sheet: a reader's fault has a place of its own, any other stands at its step's.
    pub fn at(self, step: usize, place: usize) -> SheetFault
        ensures { result ≡ fault_at self step place }
    {
        let place = match self {
            RunnerFault::Reader(fault) => fault.place,
            RunnerFault::Runner(_) | RunnerFault::Keeper(_) => place,
        };
        SheetFault {
            cause: self,
            step,
            place,
        }
    }
}

/// A fault on a sheet.
#[derive(Clone, Copy, Debug)]
pub struct SheetFault {
    /// why the runner stopped
    pub cause: RunnerFault,
    /// at which step, from 0
    pub step: usize,
    /// at which byte
    pub place: usize,
}

/// What is told of a refusal.
#[derive(Clone, Copy, PartialEq, Eq, Debug)]
pub struct Refused {
    /// the refusal's number in the table
    pub number: u8,
    /// at which byte
    pub place: usize,
    /// at which step, from 0
    pub step: usize,
    /// who refuses
    pub layer: Layer,
}

impl SheetFault {
    /// What is told of the fault.
    pub fn refused(&self) -> Refused
        ensures { result ≡ refused_of self.now }
    {
        Refused {
            number: self.number(),
            place: self.place,
            step: self.step,
            layer: self.layer(),
        }
    }

    /// The refusal's number.
    pub fn number(&self) -> u8
        ensures { result ≡ number_in self.now.cause }
    {
        match self.cause {
            RunnerFault::Reader(fault) => fault.refusal.number(),
            RunnerFault::Runner(refusal) => refusal.number(),
            RunnerFault::Keeper(fault) => fault.refusal.number(),
        }
    }

    /// Who refused.
    pub fn layer(&self) -> Layer
        ensures { result ≡ layer_in self.now.cause }
    {
        match self.cause {
            RunnerFault::Reader(_) => Layer::Reader,
            RunnerFault::Runner(_) => Layer::Runner,
            RunnerFault::Keeper(_) => Layer::Keeper,
        }
    }
}

/// Two faults are the same when the same is told of both, whatever their causes.
impl PartialEq for SheetFault {
    ghost eq = { fault_eq };

    ghost laws = { Prim.search (comparing, laws-law) depth 6 };

    fn eq(&self, other: &SheetFault) -> bool
        ensures test { result ≡ fault_eq self.now other.now }
        ensures same { IsTrue result ↔ SameFault self.now other.now }
    {
        self.refused() == other.refused()
    }
}

impl Eq for SheetFault {
    ghost laws = { Prim.search (comparing, laws-law) };
}
