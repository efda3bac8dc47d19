//! The questions to a description. Those of positions refuse one out of range.
ghost use Rattle.std.specs.Prelude.{◌≡◌, ◌^◌, ◌↔◌, IsTrue};
ghost use Rattle.description.specs.Descriptions.{told};
ghost use Rattle.domain.specs.Groups.{IsGround, Share};
ghost use Rattle.domain.specs.Refusals.{first_of};
ghost use Rattle.domain.specs.Requests.{ask_tests, pair_tests, Gives};
ghost use Rattle.domain.specs.Told.{Group, IsFree, IsLinear};
ghost use Rattle.rules.specs.Reaching.{Reach};

use crate::Description;
use domain::limits::check_position;
use domain::refusal::Refusal;
use domain::{mask, table};
use rules::lent::reach_table;

impl Description {
    /// Whether the mask g is one of the groups.
    pub fn holds(&self, g: u16) -> bool
        ensures { result ≡ (told self.now).groups g }
    {
        table::is_group(&self.table, self.outline.positions, g)
    }

    /// Whether no group holds the position.
    pub fn is_ground(&self, p: u8) -> Result<bool, Refusal>
        ensures { Gives (first_of (ask_tests (told self.now).n p)) result
            (λ yes. IsTrue yes ↔ IsGround (told self.now).n (Group (told self.now)) p) }
    {
        let reached = self.reached(p)?;
        Ok(reached == 0)
    }

    /// Whether the position is free.
    pub fn is_free(&self, p: u8) -> Result<bool, Refusal>
        ensures { Gives (first_of (ask_tests (told self.now).n p)) result
            (λ yes. IsTrue yes ↔ IsFree (told self.now) p) }
    {
        self.outline.is_free(p)
    }

    /// Whether the position is linear.
    pub fn is_linear(&self, p: u8) -> Result<bool, Refusal>
        ensures { Gives (first_of (ask_tests (told self.now).n p)) result
            (λ yes. IsTrue yes ↔ IsLinear (told self.now) p) }
    {
        self.outline.is_linear(p)
    }

    /// Whether one group holds both positions, which may be one.
    pub fn share(&self, p: u8, q: u8) -> Result<bool, Refusal>
        ensures { Gives (first_of (pair_tests (told self.now).n p q)) result
            (λ yes. IsTrue yes ↔ Share (Group (told self.now)) p q) }
    {
        check_position(self.outline.positions, q)?;
        let reached = self.reached(p)?;
        Ok(mask::has(reached, q))
    }

    // The positions that one group holds together with p.
    fn reached(&self, p: u8) -> Result<u16, Refusal>
        ensures { Gives (first_of (ask_tests (told self.now).n p)) result
            (λ m. Reach (Group (told self.now)) (2 ^ p) m) }
    {
        check_position(self.outline.positions, p)?;
        reach_table(&self.table, self.outline.positions, mask::single(p))
    }
}
