// One entry more in the thread's record: whether there is room for it, and the record after it. Knows nothing of what the entry says.
#![tactic(auto)]

ghost use Rattle.std.specs.Prelude.{◌≡◌};
ghost use Rattle.append.specs.Append.{closed_by, grow_of, grown_by};

use answer::{Answer, Refusal};
use ring::Lsn;
use sizes::{LAST_LSN, SLOTS};
use tail::Tail;

// The lock being released after an entry: a RELEASE entry names it, and the others leave it as it was.
fn closed(before: Option<u8>, closes: Option<u8>) -> Option<u8>
    ensures { result ≡ closed_by before closes }
{
    closes.or(before)
}

// The record after one entry more, or the refusal. The work of `append`, by value.
fn grow(tail: Tail, head: Lsn, closes: Option<u8>) -> Result<Tail, Refusal>
    ensures { grown_by tail result ≡ grow_of tail head.0 closes }
{
    if LAST_LSN < tail.next.0 {
        return Err(Refusal::LsnsUsedUp);
    }
    if SLOTS as u32 <= tail.live_count(head) {
        return Err(Refusal::LogFull);
    }
    Ok(Tail {
        next: Lsn(tail.next.0 + 1),
        releasing: closed(tail.releasing, closes),
        ..tail
    })
}

// One entry more in the thread's record, which is lent and changed here: answers its LSN, or the refusal, which leaves the record as it
// was.
pub fn append(tail: &mut Tail, head: Lsn, closes: Option<u8>) -> Answer
    ensures { record { answer = result; tail = tail.new } ≡ grow_of tail.old head.0 closes }
{
    let lsn = tail.next;
    *tail = grow(*tail, head, closes)?;
    Ok(u64::from(lsn.0))
}
