//! What desks are made of, and what is left of them and of a site.
use crate::sites::Site;
use std::marker::Model;
use std::snapshot::Snapshot;
use tc_centre::Core;
use tc_desk::{LogRow, Warden};
use tc_shared::CentrePass;

/// What the desk of one agent is made of: a pass for each centre of its site.
#[derive(Drop)]
pub struct DeskKit<W: Warden> {
    pub(crate) site: Snapshot<Site<W>>,
    pub(crate) agent: u32,
    pub(crate) passes: Vec<CentrePass>,
}

impl<W: Warden> Model for DeskKit<W> {
    ghost use Rattle.std.specs.Prelude.{◌<◌, length};
    ghost use Rattle.std.specs.Coded.{codes};
    ghost use Rattle.tc_term.specs.TreeCode.{coded_tree, coded_trees};
    ghost use Rattle.tc_site.specs.Sites.{KitState, AreFresh};

    ghost Value = { KitState W };

    ghost coded = { Prim.hlevel (codes, coded_tree, coded_trees) };

    ghost view = { λ k. record { site = k.site.value; agent = k.agent } };

    ghost invariant = { λ k. (k.agent < length k.site.value.roles)
        × AreFresh k.agent k.site.value.centres k.passes.items };
}

/// A desk that has ended. Contracts see its site, its agent and its log.
#[derive(Drop)]
pub struct EndedDesk<W: Warden> {
    pub(crate) site: Snapshot<Site<W>>,
    pub(crate) agent: u32,
    pub(crate) passes: Vec<CentrePass>,
    pub(crate) log: Vec<LogRow>,
}

impl<W: Warden> Model for EndedDesk<W> {
    ghost use Rattle.std.specs.Coded.{codes};
    ghost use Rattle.tc_term.specs.TreeCode.{coded_tree, coded_trees};
    ghost use Rattle.tc_site.specs.Sites.{EndedDeskState, IsEndedDesk};

    ghost Value = { EndedDeskState W };

    ghost coded = { Prim.hlevel (codes, coded_tree, coded_trees) };

    ghost view = { λ e. record { site = e.site.value; agent = e.agent; log = e.log.items } };

    ghost invariant = { λ e. IsEndedDesk (view e) e.passes.items };
}

/// What is left of a site: the core of each centre, and the log of each agent, each in order.
#[derive(Drop)]
pub struct Closed {
    pub cores: Vec<Core>,
    pub logs: Vec<Vec<LogRow>>,
}
