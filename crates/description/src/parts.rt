//! The new description, and the parts that a description has.
ghost use Rattle.std.specs.Prelude.{◌≡◌, length};
ghost use Rattle.description.specs.Descriptions.{told, table_of};
ghost use Rattle.domain.specs.Opening.{New};
ghost use Rattle.domain.specs.Refusals.{first_of};
ghost use Rattle.domain.specs.Requests.{open_tests, Gives};
ghost use Rattle.domain.specs.Told.{Lawful};
ghost use Rattle.domain.specs.declared.limits.TheConstants.{TABLE_BYTES};

use crate::Description;
use domain::limits::TABLE_BYTES;
use domain::outline::Outline;
use domain::refusal::Refusal;
use rules::lent::open_table;

impl Description {
    /// The new description: each position alone in its group, free and linear. Refuses no positions, and more
    /// than a description can have.
    pub fn new(positions: u8) -> Result<Description, Refusal>
        ensures { Gives (first_of (open_tests positions)) result (λ e. New positions (told e)) }
    {
        let mut table = [0; TABLE_BYTES];
        let outline = open_table(&mut table, positions)?;
        Ok(Description { outline, table })
    }

    /// The number of positions, and their marks. Every description keeps the rules.
    pub fn outline(&self) -> Outline
        ensures positions { result.positions ≡ (told self.now).n }
        ensures marks { result.marks ≡ (told self.now).marks }
        ensures lawful { Lawful (told self.now) }
    {
        self.outline
    }

    /// The bit table of the groups, which is lent.
    pub fn table(&self) -> &[u8]
        ensures same { result.now ≡ table_of self.now }
        ensures size { length result.now ≡ TABLE_BYTES }
    {
        &self.table
    }
}
