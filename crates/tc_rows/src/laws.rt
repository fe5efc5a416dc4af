//! What holds of rows that a service has left, for callers to cite.
ghost use Rattle.std.specs.Prelude.{ℕ, List, map};
ghost use Rattle.tc_config.specs.Configurations.{Configuration, centre_names};
ghost use Rattle.tc_config.specs.Good.{Permits, origin_of};
ghost use Rattle.tc_config.specs.declared.configs.AgentConf.{AgentConf};
ghost use Rattle.tc_desk.specs.Agreeing.{Agrees};
ghost use Rattle.tc_desk.specs.Decided.{IsDecided};
ghost use Rattle.tc_desk.specs.declared.rows.LogRow.{LogRow};
ghost use Rattle.tc_histline.specs.declared.versions.Version.{Version};
ghost use Rattle.tc_model.specs.declared.entries.Entry.{Entry};
ghost use Rattle.tc_rows.specs.Rows.{told_row};
ghost use Rattle.tc_rows.specs.ServedRows.{AreServedRows, AreUnanswered};

/// What a text tells of an agent's log at the end of a service may stand there.
pub fn rows_of_services_are_served()
    ensures { (version : Version) (c : Configuration) (histories : List (List Entry)) (agent : ℕ)
        (a : AgentConf) (log : List LogRow)
        → Agrees (map (origin_of c) c.centres) (centre_names c) histories agent log
        → IsDecided (Permits c a.role) (centre_names c) log
        → AreUnanswered (centre_names c) histories agent log
        → AreServedRows version c histories agent a (map (told_row version) log) }
{}
