//! An input of a configuration and a text, judged.
ghost use Rattle.std.specs.Prelude.{◌≡◌, ℕ, IfOk, List};
ghost use Rattle.tc_config.specs.Configurations.{Configuration};
ghost use Rattle.tc_config.specs.Texts.{IsRefused, Spells};
ghost use Rattle.tc_config.specs.declared.faults.ConfigCause.{ConfigCause};
ghost use Rattle.tc_verify.specs.Inputs.{IsParted};
ghost use Rattle.tc_verify.specs.Judgements.{HasVerdict, IsJudgement};
ghost use Rattle.tc_verify.specs.Verdicts.{IsVerdictOn};
ghost use Rattle.tc_verify.specs.declared.judging.Judgement.{Judgement};
ghost use Rattle.tc_verify.specs.declared.verdicts.Verdict.{Verdict};

use crate::inputs::parted;
use crate::printing::verdict_text;
use crate::verdicts::{Question, Verdict, verdict_on};
use std::alloc::Global;
use tc_config::{Config, ConfigCause, ConfigFault, read_config};
use tc_lists::{NoMemory, Seq};

/// What an input comes to.
#[derive(Drop)]
pub enum Judgement {
    /// This verdict, with the line that tells it.
    Judged(Verdict, Seq<u8>),
    /// Its configuration is refused: the first faulty clause, from 1, or 0 for the whole of it; and
    /// why.
    Refused { clause: u32, cause: ConfigCause },
}

/// Judges an input of a configuration, a line `%%` and a text.
pub fn judge(alloc: Global, question: Question, input: &[u8]) -> Result<Judgement, NoMemory>
    ensures judged { IfOk result (IsJudgement question input.now) }

    // Each answer comes exactly where it is due, but for want of memory.
    ensures verdict { (first second : List ℕ) (c : Configuration) (verdict : Verdict)
        → IsParted input.now first second → Spells first c
        → IsVerdictOn question c second verdict → IfOk result (HasVerdict verdict) }
    ensures refused { (first second : List ℕ) (clause : ℕ) (why : ConfigCause)
        → IsParted input.now first second → IsRefused first clause why
        → IfOk result (λ j. j ≡ Judgement.Refused clause why) }
{
    let (first, second) = parted(input);
    match read_config(alloc, first) {
        Ok(config) => {
            let verdict = verdict_on(alloc, question, &config, second)?;
            let line = verdict_text(alloc, &config, verdict)?;
            Ok(Judgement::Judged(verdict, Seq::new(line)))
        }
        Err(ConfigFault::Bad { clause, cause }) => Ok(Judgement::Refused { clause, cause }),
        Err(ConfigFault::NoMemory) => Err(NoMemory),
    }
}
