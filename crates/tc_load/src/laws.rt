//! What the numbers of the workload are, for callers to cite.
ghost use Rattle.std.specs.Prelude.{◌≡◌};
ghost use Rattle.tc_load.specs.declared.limits.TheConstants.{CENTRES, SCRIPTS, STREAM};

/// The workload has four centres, six scripts for each agent, and the generator's stream 54.
pub fn the_workload_has_these_numbers()
    ensures centres { CENTRES ≡ 4 }
    ensures scripts { SCRIPTS ≡ 6 }
    ensures stream { STREAM ≡ 54 }
{}
