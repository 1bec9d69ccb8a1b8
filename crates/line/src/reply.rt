// What a call answers, as the reply to a line.
ghost use Rattle.std.specs.Prelude.{◌≡◌};
ghost use Rattle.suite.specs.Outcome.{number_of, reading_values, looked_of, near_of, change_of};
ghost use Rattle.line.specs.Standing.{found, put, removed, near, replied};

use member::Reading;
use suite::{Done, Looked, Near, Refusal};
use text::Reply;

pub(crate) fn no(refusal: Refusal) -> Reply
    ensures { result ≡ Reply.Refused (number_of refusal) }
{
    Reply::Refused {
        number: refusal.number(),
    }
}

// After `look`.
pub(crate) fn looked(answer: Result<Looked, Refusal>) -> Reply
    ensures { result ≡ replied found (looked_of answer) }
{
    match answer {
        Ok(looked) => shown(looked.reading),
        Err(refusal) => no(refusal),
    }
}

// An entry, or a gap: absence is no refusal.
fn shown(reading: Reading) -> Reply
    ensures { result ≡ found (reading_values reading 0) }
{
    match reading {
        Reading::Entry { version, value } => Reply::At { version, value },
        Reading::Gap { version } => Reply::Absent { version },
    }
}

// After `near`.
pub(crate) fn near(answer: Result<Near, Refusal>) -> Reply
    ensures { result ≡ replied near (near_of answer) }
{
    match answer {
        Ok(
            Near {
                below,
                above,
                requests,
            },
        ) => Reply::Near {
            below,
            above,
            requests,
        },
        Err(refusal) => no(refusal),
    }
}

// After `ins` and `upd`.
pub(crate) fn put(answer: Result<Done, Refusal>) -> Reply
    ensures { result ≡ replied put (change_of answer) }
{
    match answer {
        Ok(done) => Reply::Ok {
            version: done.version,
        },
        Err(refusal) => no(refusal),
    }
}

// After `del`.
pub(crate) fn removed(answer: Result<Done, Refusal>) -> Reply
    ensures { result ≡ replied removed (change_of answer) }
{
    match answer {
        Ok(Done { version, requests }) => Reply::Removed { version, requests },
        Err(refusal) => no(refusal),
    }
}
