//! What the programs share: a sheet from standard input, run on a keeper, printed line by line.
#![tactic(auto)]

ghost use Rattle.std.specs.Prelude.{◌≡◌, IfOk, None, string_bytes};
ghost use Rattle.console.specs.declared.TheConstants.{MOST_MARKS};
ghost use Rattle.console.specs.Printing.{IsInput, Prints, Served};

use domain::limits::{MOST_GROUPS, TABLE_BYTES};
use keeper::Keeper;
use runner::{WorkLists, run};
use sheet::{LONGEST_SHEET, StepMark};
use std::alloc::{AllocError, Global};
use std::io::{self, Read, Write};
use transcript::transcript;

/// How many steps a program has marks for.
pub const MOST_MARKS: usize = 4_096;

// One byte more than a sheet can have: enough to see that it is too long.
const MOST_INPUT: u64 = LONGEST_SHEET as u64 + 1;

/// Reads a sheet from a reader: all that it has left, or one byte more than a sheet can have.
pub fn read_sheet<R: Read + Drop>(heap: Global, reader: R) -> io::Result<Vec<u8>>
    ensures { IfOk result (λ bytes. IsInput (R.remaining reader) bytes.items) }
{
    let mut bytes = Vec::new(heap);
    reader.take(MOST_INPUT).read_to_end(&mut bytes)?;
    Ok(bytes)
}

/// Runs a sheet on a keeper, and gives what is to be printed of it. The only error is want of memory for that, and
/// the run has come to its end by then.
pub fn run_sheet<K: Keeper>(
    heap: Global,
    keeper: &mut K,
    bytes: &[u8],
) -> Result<String, AllocError>
    ensures most_marks { MOST_MARKS ≡ 4096 }
    ensures prints { Prints (K.Keeper.capacity keeper.old) bytes.now (K.Keeper.told keeper.old)
        (K.Keeper.told keeper.new) (λ text. IfOk result (λ s. string_bytes s ≡ text)) }
    ensures same_capacity { K.Keeper.capacity keeper.new ≡ K.Keeper.capacity keeper.old }
{
    let mut marks = [StepMark::blank(); MOST_MARKS];
    let mut groups = [0; MOST_GROUPS];
    let mut scratch = [0; TABLE_BYTES];
    let mut lists = WorkLists {
        marks: &mut marks,
        groups: &mut groups,
        scratch: &mut scratch,
    };
    let outcome = run(keeper, bytes, &mut lists);
    transcript(heap, lists.marks, outcome)
}

/// Reads a sheet from a reader, runs it on the keeper and writes a line for each step to a writer.
pub fn run_between<K: Keeper, R: Read + Drop, W: Write>(
    heap: Global,
    keeper: &mut K,
    reader: R,
    writer: &mut W,
) -> anyhow::Result<()>
    ensures served { Served (K.Keeper.capacity keeper.old) (K.Keeper.told keeper.old)
        (K.Keeper.told keeper.new) (R.remaining reader) (W.contents writer.old)
        (W.contents writer.new) result }
    ensures same_capacity { K.Keeper.capacity keeper.new ≡ K.Keeper.capacity keeper.old }
{
    let bytes = read_sheet(heap, reader)?;
    let text = run_sheet(heap, keeper, bytes.as_slice())?;
    writer.write_all(text.as_bytes())?;
    Ok(())
}

/// Reads a sheet from standard input, runs it on the keeper and prints a line for each step. Whatever fails, the
/// keeper tells what it told before the run or what the run left.
pub fn run_input<K: Keeper>(rt: &HostRuntime, keeper: &mut K) -> anyhow::Result<()>
    ensures served { Served (K.Keeper.capacity keeper.old) (K.Keeper.told keeper.old)
        (K.Keeper.told keeper.new) None None None result }
    ensures same_capacity { K.Keeper.capacity keeper.new ≡ K.Keeper.capacity keeper.old }
{
    run_between(rt.alloc(), keeper, rt.stdin(), &mut rt.stdout())
}
