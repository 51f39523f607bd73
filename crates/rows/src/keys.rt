// Member and job are together the key of a row (document 01, the job book): a row with its key, whether two keys are
// one, and whether the next job may begin with a key (refusals 5 and 6).
//
// Keys are compared by their bytes, and the promise is about the keys themselves. Names of one length are one exactly if all their twelve
// bytes agree, so that the bytes behind a name stand in the promise too.
ghost use Rattle.std.specs.Prelude.{◌≡◌, length};
ghost use Rattle.arithmetic.specs.decides.Decides.{Decides};
ghost use Rattle.rows.specs.keys.Keyed.{no_row};
ghost use Rattle.rows.specs.keys.Beginning.{BeginningIs};

use crate::refusals::Refusal;
use fields::names::Name;
use kinds::{Kind, Numbers, Row};

// Member and job, together the key.
#[derive(Clone, Copy, PartialEq, Eq)]
pub struct Key {
    pub member: Name,
    pub job: Name,
}

// A row with its key.
#[derive(Clone, Copy)]
pub struct Keyed {
    pub key: Key,
    pub row: Row,
}

// No row: what stands where there is none.
pub fn blank_row() -> Keyed
    ensures { result ≡ no_row }
{
    let name = fields::names::blank_name();
    let none = fields::blank_entry();
    let numbers = Numbers {
        n1: none,
        n2: none,
        n3: none,
        n4: none,
        n5: none,
        n6: none,
    };
    let row = Row {
        kind: Kind::B,
        numbers,
    };
    let key = Key {
        member: name,
        job: name,
    };
    Keyed { key, row }
}

// Whether two keys are one: by name, since what is promised of a job that takes a row speaks of this.
pub fn same_key(a: Key, b: Key) -> bool
    ensures { Decides result (a ≡ b) }
{
    a == b
}

// Whether a job with this key begins behind jobs with theirs, or the refusal of its B row: a book has at most 64 jobs, and none with a key
// used before.
pub fn may_begin(keys: &[Key], key: Key) -> Result<(), Refusal>
    ensures { BeginningIs keys.now (length keys.now) key result }
{
    if 64 <= keys.len() {
        return Err(Refusal::TooManyJobs);
    }
    for used in keys {
        if same_key(*used, key) {
            return Err(Refusal::UsedKey);
        }
    }
    Ok(())
}
