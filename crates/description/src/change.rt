//! Changes, worked out in the caller's scratch: a description is laid out in it, and one is taken from it.
ghost use Rattle.std.specs.Prelude.{◌≡◌, ◌≤◌, length};
ghost use Rattle.description.specs.Descriptions.{told};
ghost use Rattle.domain.specs.Changes.{Makes, change_tests, lent_change};
ghost use Rattle.domain.specs.Refusals.{first_of};
ghost use Rattle.domain.specs.Requests.{bytes_for, Gives};
ghost use Rattle.domain.specs.Tables.{told_with};
ghost use Rattle.domain.specs.Told.{Lawful};

use crate::Description;
use domain::change::Change;
use domain::outline::Outline;
use domain::refusal::Refusal;
use rules::lent::change_table;

impl Description {
    /// The description after the change, or what refuses it. It is worked out in the scratch, whose contents
    /// afterwards are free.
    pub fn changed(
        &self,
        change: Change<&[u16]>,
        scratch: &mut [u8],
    ) -> Result<Description, Refusal>
        ensures { Gives (first_of
            (change_tests (told self.now).n (lent_change change.entry) (length scratch.old))) result
            (λ e. Makes (lent_change change.entry) (told self.now) (told e)) }
    {
        self.lay(scratch);
        let after = change_table(scratch, self.outline, change)?;
        Ok(taken(scratch, after))
    }

    // Lays the table out at the start of the scratch, where there is room for it.
    fn lay(&self, scratch: &mut [u8])
        ensures { bytes_for (told self.now).n ≤ length scratch.old
            → told_with self.now.outline scratch.new ≡ told self.now }
    {
        if let Some(work) = scratch.first_chunk_mut() {
            *work = self.table;
        }
    }
}

// The description that the start of the scratch tells, with its outline.
fn taken(scratch: &[u8], outline: Outline) -> Description
    requires room { bytes_for outline.positions ≤ length scratch.now }
    requires lawful { Lawful (told_with outline scratch.now) }
    ensures { told result ≡ told_with outline scratch.now }
{
    Description {
        outline,
        table: *scratch.first_chunk().unwrap(),
    }
}
