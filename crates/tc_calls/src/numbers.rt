//! The last number of each agent, by the agent's own number.
ghost use Rattle.std.specs.Prelude.{◌≡◌, ◌<◌, ◌==◌, if◌then◌else◌, ℕ, Some};
ghost use Rattle.std.specs.Prelude.{None, length, IfOk, IsTrue, ◌↔◌};
ghost use Rattle.tc_calls.specs.Numbers.{IsAbove, number_in};

use std::alloc::Global;
use tc_lists::NoMemory;
use tc_model::CallId;

/// No number yet for any of so many agents.
pub fn no_numbers(alloc: Global, agents: usize) -> Result<Vec<Option<u64>>, NoMemory>
    ensures agents { IfOk result (λ numbers. length numbers.items ≡ agents) }
    ensures none { IfOk result
        (λ numbers. (agent : ℕ) → number_in numbers.items agent ≡ None) }
{
    let mut numbers = Vec::new(alloc);
    numbers.resize(agents, None)?;
    Ok(numbers)
}

/// Notes the number of an agent's entry.
pub fn note_number(numbers: &mut Vec<Option<u64>>, id: CallId)
    requires { id.agent < length numbers.old.items }
    ensures agents { length numbers.new.items ≡ length numbers.old.items }
    ensures noted { (agent : ℕ) → number_in numbers.new.items agent
        ≡ (if id.agent == agent then Some id.number else number_in numbers.old.items agent) }
{
    numbers[id.agent as usize] = Some(id.number);
}

/// Whether the number of an id is above its agent's last. An agent beyond the list has none.
pub fn is_above(numbers: &[Option<u64>], id: CallId) -> bool
    ensures { IsTrue result ↔ IsAbove (number_in numbers.now id.agent) id.number }
{
    match numbers.get(id.agent as usize) {
        Some(Some(last)) => *last < id.number,
        Some(None) | None => true,
    }
}
