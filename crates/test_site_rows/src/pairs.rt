//! The desks of two agents.
ghost use Rattle.std.specs.Prelude.{IfOk, List};
ghost use Rattle.tc_policy.specs.declared.grants.Grant.{Grant};
ghost use Rattle.tc_site.specs.Desks.{IsNewDesk, desk_of};
ghost use Rattle.tc_site.specs.Sites.{AreOfSite, KitState};

use anyhow::bail;
use std::alloc::Global;
use tc_policy::Roles;
use tc_site::{AgentDesk, DeskKit, Site};

/// The desks of a site's last two agents, in order.
pub fn two_desks<'a>(
    alloc: Global,
    site: &'a Site<Roles>,
    mut kits: Vec<DeskKit<Roles>>,
) -> anyhow::Result<(AgentDesk<'a, Roles>, AgentDesk<'a, Roles>)>
    requires { AreOfSite (λ (k : KitState (List Grant)). k.site)
        (λ (k : KitState (List Grant)). k.agent) site.now kits.items }
    ensures first { IfOk result (λ d. IsNewDesk site.now.names (desk_of d.0)) }
    ensures second { IfOk result (λ d. IsNewDesk site.now.names (desk_of d.1)) }
{
    let Some(second) = kits.pop() else {
        bail!("there is no second kit");
    };
    let Some(first) = kits.pop() else {
        bail!("there is no first kit");
    };
    Ok((
        AgentDesk::new(alloc, site, first),
        AgentDesk::new(alloc, site, second),
    ))
}
