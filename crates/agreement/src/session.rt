//! Calls given to a keeper as values: what comes of it is a session, of which the laws over runs speak.
ghost use Rattle.std.specs.Prelude.{◌≡◌, min, length, take};
ghost use Rattle.agreement.specs.Giving.{call_of, calls_of, answer_of, StaysBut, Held, UnderTheLaws};
ghost use Rattle.agreement.specs.Laws.{OneReckoned, OneMoreGiven, OpensGiven};
ghost use Rattle.agreement.specs.Sessions.{Called};
ghost use Rattle.keeper.specs.Calls.{Opens};

use crate::call::{KeeperAnswer, KeeperCall};
use keeper::{Keeper, KeeperFault};

/// Opens a keeper. Once this is accepted, the keeper is one that the laws over runs speak of, given no calls.
#[tactic(auto, using(crate::proofs::Given::opens_given))]
pub fn open<K: Keeper>(keeper: &mut K, n: u8, scratch: &mut [u8]) -> Result<(), KeeperFault>
    ensures opens { Opens (K.Keeper.capacity keeper.old) n (length scratch.old)
        (K.Keeper.told keeper.old) (K.Keeper.told keeper.new) result }
    ensures given { OpensGiven n (K.Keeper.capacity keeper.old) (K.Keeper.told keeper.new) result }
    ensures same_capacity { K.Keeper.capacity keeper.new ≡ K.Keeper.capacity keeper.old }
{
    keeper.open(n, scratch)
}

/// Gives a keeper one call. A write-out puts the core into `list`; what `scratch` holds afterwards is free.
pub fn give<K: Keeper>(
    keeper: &mut K,
    call: KeeperCall<&[u16]>,
    scratch: &mut [u8],
    list: &mut [u16],
) -> Result<KeeperAnswer, KeeperFault>
    ensures called { Called (K.Keeper.capacity keeper.old)
        (call_of (length scratch.old) (length list.old) call.entry)
        (K.Keeper.told keeper.old) (answer_of result list.new) (K.Keeper.told keeper.new) }
    ensures given { OneMoreGiven (K.Keeper.capacity keeper.old)
        (call_of (length scratch.old) (length list.old) call.entry)
        (K.Keeper.told keeper.old) (K.Keeper.told keeper.new) }
    ensures rest { StaysBut result list.old list.new }
    ensures same_capacity { K.Keeper.capacity keeper.new ≡ K.Keeper.capacity keeper.old }
{
    respond(keeper, call, scratch, list)
}

// The keeper's answer to the call, of which the laws over runs speak.
fn respond<K: Keeper>(
    keeper: &mut K,
    call: KeeperCall<&[u16]>,
    scratch: &mut [u8],
    list: &mut [u16],
) -> Result<KeeperAnswer, KeeperFault>
    ensures called { Called (K.Keeper.capacity keeper.old)
        (call_of (length scratch.old) (length list.old) call.entry)
        (K.Keeper.told keeper.old) (answer_of result list.new) (K.Keeper.told keeper.new) }
    ensures rest { StaysBut result list.old list.new }
    ensures same_capacity { K.Keeper.capacity keeper.new ≡ K.Keeper.capacity keeper.old }
{
    let answer = match call {
        KeeperCall::Change(change) => {
            keeper.change(change, scratch)?;
            KeeperAnswer::Accepted
        }
        KeeperCall::Ask(question) => KeeperAnswer::Says(question.ask(keeper)?),
        KeeperCall::WriteOut => KeeperAnswer::Wrote(keeper.write_out(list)?),
    };
    Ok(answer)
}

/// Gives a keeper calls in their order, refused ones with them, as many as there is room for their answers.
/// The answers stand at the start of `answers`, whose other entries stay; their number is told.
pub fn give_all<K: Keeper>(
    keeper: &mut K,
    calls: &[KeeperCall<&[u16]>],
    scratch: &mut [u8],
    list: &mut [u16],
    answers: &mut [Result<KeeperAnswer, KeeperFault>],
) -> usize
    ensures number { result ≡ min (length calls.now) (length answers.old) }
    ensures session { Held (K.Keeper.capacity keeper.old)
        (calls_of (length scratch.old) (length list.old) (take result calls.now)) result
        (K.Keeper.told keeper.old) (K.Keeper.told keeper.new) list.old list.new answers.old
        answers.new }
    ensures under_the_laws { UnderTheLaws (K.Keeper.capacity keeper.old)
        (calls_of (length scratch.old) (length list.old) (take result calls.now))
        (K.Keeper.told keeper.old) (K.Keeper.told keeper.new) }
    ensures same_capacity { K.Keeper.capacity keeper.new ≡ K.Keeper.capacity keeper.old }
{
    let number = calls.len().min(answers.len());
    for (i, call) in calls[..number].iter().enumerate() {
        answers[i] = give(keeper, *call, scratch, list);
    }
    number
}

/// Whatever the calls, there is a description that the rules reckon of them, and there is only one.
pub fn one_description_is_reckoned()
    ensures { OneReckoned }
{}
