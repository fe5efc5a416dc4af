//! What entries weigh.
ghost use Rattle.std.specs.Prelude.{◌≡◌, ◌≤◌};
ghost use Rattle.tc_model.specs.Entries.{weight, weight_of};
ghost use Rattle.tc_model.specs.declared.limits.TheConstants.{MOST_WEIGHT};

use tc_model::Entry;

/// What the entries weigh together: each 1, and 1 for each of its reactions.
pub fn weigh(entries: &[Entry]) -> u64
    requires { weight entries.now ≤ MOST_WEIGHT }
    ensures { result ≡ weight entries.now }
{
    let mut sum = 0;
    for entry in entries {
        sum += entry_weight(entry);
    }
    sum
}

// What an entry weighs.
fn entry_weight(entry: &Entry) -> u64
    requires { weight_of entry.now ≤ MOST_WEIGHT }
    ensures { result ≡ weight_of entry.now }
{
    match entry {
        Entry::Called { items, .. } | Entry::Gave { items, .. } => items.items().len() as u64 + 1,
        Entry::Looked { .. } => 1,
    }
}
