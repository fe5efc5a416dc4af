//! Changes of a list of requests, which may be taken back.
ghost use Rattle.std.specs.Prelude.{◌≡◌, ◌+◌, ◌<◌, ◌≤◌, ◌++◌, ◌∷◌};
ghost use Rattle.std.specs.Prelude.{[], take, drop};
ghost use Rattle.std.specs.Prelude.{if◌then◌else◌, OnOk, vec_len, vec_capacity};
ghost use Rattle.tc_pending.specs.Changes.{earlier, rewound, earlier_serials, rewound_serials};
ghost use Rattle.tc_pending.specs.Changes.{Fits, AllFit};
ghost use Rattle.tc_pending.specs.Codes.{codes_of};
ghost use Rattle.tc_pending.specs.Rising.{NumbersRise};
ghost use Rattle.tc_pending.specs.Filed.{KeepsAll};

use crate::codes::request_code;
use crate::index::Index;
use crate::numbers::put_back;
use tc_lists::NoMemory;
use tc_model::Request;

/// A change of the list: a request was added behind the others, or the one at a place was removed.
#[derive(Drop)]
pub(crate) enum Change {
    Added,
    Removed {
        place: usize,
        request: Request,
        serial: u64,
    },
}

/// Makes room for one more request and one more change. There is room then, too, for each request
/// to be removed and for each change to be taken back.
pub(crate) fn make_room(
    requests: &mut Vec<Request>,
    codes: &mut Vec<u64>,
    serials: &mut Vec<u64>,
    changes: &mut Vec<Change>,
) -> Result<(), NoMemory>
    ensures requests { requests.new.items ≡ requests.old.items }
    ensures codes { codes.new.items ≡ codes.old.items }
    ensures serials { serials.new.items ≡ serials.old.items }
    ensures changes { changes.new.items ≡ changes.old.items }
    ensures list { vec_capacity requests.old ≤ vec_capacity requests.new }
    ensures codes_capacity { vec_capacity codes.old ≤ vec_capacity codes.new }
    ensures serials_capacity { vec_capacity serials.old ≤ vec_capacity serials.new }
    ensures log { vec_capacity changes.old ≤ vec_capacity changes.new }
    ensures list_room { OnOk result
        (vec_len requests.new + vec_len changes.new + 2 ≤ vec_capacity requests.new) }
    ensures codes_room { OnOk result
        (vec_len codes.new + vec_len changes.new + 2 ≤ vec_capacity codes.new) }
    ensures serials_room { OnOk result
        (vec_len serials.new + vec_len changes.new + 2 ≤ vec_capacity serials.new) }
    ensures log_room { OnOk result
        (vec_len requests.new + vec_len changes.new + 2 ≤ vec_capacity changes.new) }
{
    requests.reserve(changes.len() + 2)?;
    codes.reserve(changes.len() + 2)?;
    serials.reserve(changes.len() + 2)?;
    changes.reserve(requests.len() + 2)?;
    Ok(())
}

/// Notes a change where there is a mark. No memory is taken.
pub(crate) fn note(changes: &mut Vec<Change>, is_marked: bool, change: Change)
    requires { vec_len changes.old < vec_capacity changes.old }
    ensures noted { changes.new.items
        ≡ (if is_marked then changes.old.items ++ change ∷ [] else changes.old.items) }
    ensures capacity { vec_capacity changes.old ≤ vec_capacity changes.new }
{
    if is_marked {
        let _ = changes.push(change);
    }
}

/// Takes a change back. No memory is taken.
fn take_back(
    requests: &mut Vec<Request>,
    codes: &mut Vec<u64>,
    serials: &mut Vec<u64>,
    change: Change,
)
    requires fits { Fits change requests.old.items }
    requires codes { codes.old.items ≡ codes_of requests.old.items }
    requires room { vec_len requests.old < vec_capacity requests.old }
    requires codes_room { vec_len codes.old < vec_capacity codes.old }
    requires each { vec_len serials.old ≡ vec_len requests.old }
    requires serials_room { vec_len serials.old < vec_capacity serials.old }
    ensures earlier { requests.new.items ≡ earlier change requests.old.items }
    ensures codes { codes.new.items ≡ codes_of requests.new.items }
    ensures serials { serials.new.items ≡ earlier_serials change serials.old.items }
    ensures each { vec_len serials.new ≡ vec_len requests.new }
    ensures capacity { vec_capacity requests.old ≤ vec_capacity requests.new }
    ensures codes_capacity { vec_capacity codes.old ≤ vec_capacity codes.new }
    ensures serials_capacity { vec_capacity serials.old ≤ vec_capacity serials.new }
{
    match change {
        Change::Added => {
            let _request = requests.pop();
            codes.truncate(requests.len());
            let _serial = serials.pop();
        }
        Change::Removed {
            place,
            request,
            serial,
        } => {
            let code = request_code(&request);
            let _ = requests.insert(place, request);
            put_back(codes, place, code);
            put_back(serials, place, serial);
        }
    }
}

/// Takes back all but the first `count` changes, the latest first. No memory is taken.
pub(crate) fn go_back(
    requests: &mut Vec<Request>,
    codes: &mut Vec<u64>,
    serials: &mut Vec<u64>,
    changes: &mut Vec<Change>,
    count: usize,
)
    requires codes { codes.old.items ≡ codes_of requests.old.items }
    requires codes_room { vec_len codes.old + vec_len changes.old ≤ vec_capacity codes.old }
    requires each { vec_len serials.old ≡ vec_len requests.old }
    requires serials_room { vec_len serials.old + vec_len changes.old ≤ vec_capacity serials.old }
    requires fit { AllFit changes.old.items requests.old.items }
    requires room { vec_len requests.old + vec_len changes.old ≤ vec_capacity requests.old }
    ensures requests { requests.new.items
        ≡ rewound (drop count changes.old.items) requests.old.items }
    ensures codes { codes.new.items ≡ codes_of requests.new.items }
    ensures serials { serials.new.items
        ≡ rewound_serials (drop count changes.old.items) serials.old.items }
    ensures each { vec_len serials.new ≡ vec_len requests.new }
    ensures changes { changes.new.items ≡ take count changes.old.items }
    ensures codes_capacity { vec_capacity codes.old ≤ vec_capacity codes.new }
    ensures serials_capacity { vec_capacity serials.old ≤ vec_capacity serials.new }
    ensures list { vec_capacity requests.old ≤ vec_capacity requests.new }
    ensures log { vec_capacity changes.new ≡ vec_capacity changes.old }
    ensures fewer { vec_len requests.new + vec_len changes.new
        ≤ vec_len requests.old + vec_len changes.old }
{
    while changes.len() > count {
        if let Some(change) = changes.pop() {
            take_back(requests, codes, serials, change);
        }
    }
}

/// Gives the changes up: the index loses the requests that were removed.
pub(crate) fn forget_removed(
    index: &mut Index,
    changes: &mut Vec<Change>,
    serials: &[u64],
    filed: u64,
)
    requires { NumbersRise serials.now }
    ensures kept { KeepsAll index.old index.new serials.now }
    ensures none { changes.new.items ≡ [] }
    ensures log { vec_capacity changes.new ≡ vec_capacity changes.old }
{
    while let Some(change) = changes.pop() {
        forget(index, change, serials, filed);
    }
}

// The index loses a request that was removed, where it had it.
fn forget(index: &mut Index, change: Change, serials: &[u64], filed: u64)
    requires { NumbersRise serials.now }
    ensures { KeepsAll index.old index.new serials.now }
{
    match change {
        Change::Removed {
            request,
            serial,
            ..
        } if serial < filed => {
            index.leave(serials, request_code(&request), serial);
        }
        Change::Removed { .. } | Change::Added => {}
    }
}
