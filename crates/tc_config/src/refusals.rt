//! What is written of a configuration that is refused.
ghost use Rattle.std.specs.Prelude.{◌≡◌, IfOk};
ghost use Rattle.tc_config.specs.Refusals.{config_cause_text, refused_text};

use crate::faults::ConfigCause;
use std::alloc::Global;
use tc_lists::{NoMemory, append_number};

/// The line that names the first faulty clause, from 1, or 0 for the whole text, and why.
pub fn refused_text(alloc: Global, clause: u32, cause: ConfigCause) -> Result<Vec<u8>, NoMemory>
    ensures { IfOk result (λ text. text.items ≡ refused_text clause cause) }
{
    let mut text = Vec::new(alloc);
    text.extend_from_slice(b"configuration refused: clause ")?;
    append_number(u64::from(clause), &mut text)?;
    text.extend_from_slice(b": ")?;
    text.extend_from_slice(cause_text(cause))?;
    text.push(b'\n')?;
    Ok(text)
}

/// The words of a cause.
pub fn cause_text(cause: ConfigCause) -> &'static [u8]
    ensures { result.now ≡ config_cause_text cause }
{
    match cause {
        ConfigCause::Syntax => b"syntax",
        ConfigCause::Size => b"size",
        ConfigCause::Shape => b"shape",
        ConfigCause::Reaction => b"reaction",
        ConfigCause::UnknownCentre => b"unknown centre",
        ConfigCause::UnknownRole => b"unknown role",
        ConfigCause::UnknownAgent => b"unknown agent",
        ConfigCause::Twice => b"twice",
        ConfigCause::NotGround => b"not ground",
        ConfigCause::Count => b"count",
        ConfigCause::Length => b"length",
    }
}
