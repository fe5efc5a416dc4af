//! The text of a configuration's centres and agents, read back.
ghost use Rattle.std.specs.Prelude.{◌≡◌, ℕ, IfErr, IfOk};
ghost use Rattle.tc_config.specs.Configurations.{agent_names, centre_names};
ghost use Rattle.tc_histtext.specs.Answers.{IsTextFault, IsThisLine, IsWant};
ghost use Rattle.tc_histtext.specs.ReadTexts.{IsFirstFault, IsText};
ghost use Rattle.tc_histtext.specs.declared.read_texts.Text.{Text};

use std::alloc::Global;
use tc_config::{Config, agent_names, centre_names};
use tc_histtext::{Text, TextFault, read_text};

/// The text that the bytes are, of the configuration's centres and agents; or the first line that
/// is at fault.
pub fn read_text_of(alloc: Global, config: &Config, text: &[u8]) -> Result<Text, TextFault>
    ensures text { IfOk result
        (λ t. IsText (centre_names config.now) (agent_names config.now) t text.now) }
    ensures fault { IfErr result
        (IsTextFault (centre_names config.now) (agent_names config.now) text.now) }

    // Each answer comes exactly where it is due, but for want of memory.
    ensures whole { (t : Text)
        → IsText (centre_names config.now) (agent_names config.now) t text.now
        → IfErr result IsWant }
    ensures same { (t : Text)
        → IsText (centre_names config.now) (agent_names config.now) t text.now
        → IfOk result (λ r. r ≡ t) }
    ensures first { (k : ℕ)
        → IsFirstFault (centre_names config.now) (agent_names config.now) text.now k
        → IfErr result (IsThisLine k) }
    ensures refused { (k : ℕ)
        → IsFirstFault (centre_names config.now) (agent_names config.now) text.now k
        → IfOk result (λ _. ⊥) }
{
    let centres = centre_names(alloc, config.centres())?;
    let agents = agent_names(alloc, config.agents())?;
    read_text(alloc, text, &centres, &agents)
}
