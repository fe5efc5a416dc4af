//! Rows, one agent after another.
ghost use Rattle.std.specs.Prelude.{◌≡◌, ◌<◌, Some, length, slice_get, IfNone, IfOk, IfSome};
ghost use Rattle.tc_config.specs.declared.configs.AgentConf.{AgentConf};
ghost use Rattle.tc_rows.specs.Index.{IsIndexOf};
ghost use Rattle.tc_rows.specs.Rows.{AreQuietRuns};
ghost use Rattle.tc_verify.specs.Verdicts.{AreAllSound, AreRowsOf, IsFirstAgent, IsFirstAtFault};

use crate::verdicts::Question;
use std::alloc::Global;
use tc_config::Config;
use tc_histline::{TextRow, Version};
use tc_histtext::Text;
use tc_lists::{NoMemory, Seq};
use tc_model::Entry;
use tc_rows::{Index, first_faulty, first_unserved};

/// The first agent, by its place, that has a row at fault, by what is asked, and its first such row,
/// counted from 1; `None` where the rows of all are as asked.
pub fn first_agent_of(
    alloc: Global,
    question: Question,
    config: &Config,
    told: &Text,
) -> Result<Option<(usize, usize)>, NoMemory>
    requires runs { AreQuietRuns config.now told.now.histories }
    requires whole { length told.now.logs ≡ length config.now.agents }
    ensures faulty { IfOk result
        (λ found. IfSome found (λ at. IsFirstAgent question config.now told.now at.0 at.1)) }
    ensures sound { IfOk result (λ found. IfNone found (AreAllSound question config.now told.now)) }
{
    let histories = told.histories.items();
    let index = Index::of(alloc, config, histories)?;
    let logs = told.logs.items();
    for agent in 0..logs.len() {
        let rows = logs[agent].items();
        if let Some(number) = first_at_fault(
            alloc,
            question,
            told.version,
            config,
            histories,
            &index,
            agent,
            rows,
        )? {
            return Ok(Some((agent, number)));
        }
    }
    Ok(None)
}

// The first row of an agent, counted from 1, that is at fault, by what is asked.
fn first_at_fault(
    alloc: Global,
    question: Question,
    version: Version,
    config: &Config,
    histories: &[Seq<Entry>],
    index: &Index,
    agent: usize,
    rows: &[TextRow],
) -> Result<Option<usize>, NoMemory>
    requires quiet { AreQuietRuns config.now histories.now }
    requires index { IsIndexOf config.now histories.now index.now }
    requires inside { agent < length config.now.agents }
    ensures faulty { (a : AgentConf) → slice_get config.now.agents agent ≡ Some a
        → IfOk result (λ found. IfSome found
        (IsFirstAtFault question version config.now histories.now agent a rows.now)) }
    ensures sound { (a : AgentConf) → slice_get config.now.agents agent ≡ Some a
        → IfOk result (λ found. IfNone found
        (AreRowsOf question version config.now histories.now agent a rows.now)) }
{
    match question {
        Question::Run => first_faulty(alloc, version, config, histories, index, agent, rows),
        Question::Service => { Ok(first_unserved(version, config, histories, index, agent, rows)) }
    }
}
