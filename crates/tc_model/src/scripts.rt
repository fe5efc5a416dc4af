//! The scripts of agents.
ghost use Rattle.std.specs.Prelude.{◌≡◌};

use crate::asks::Ask;
use std::marker::Model;

/// One item of a script: an ask, and the centre that it goes to, by its place among the centres,
/// from 0.
#[derive(Drop)]
pub struct ScriptItem {
    pub centre: u32,
    pub ask: Ask,
}

/// A script: what an agent asks, one item after another, over variables of its own.
///
/// Each operand is within the limits of a term, and its variables are below their number.
#[derive(Drop)]
pub struct Script {
    vars: u32,
    items: Vec<ScriptItem>,
}

impl Model for Script {
    ghost use Rattle.std.specs.Coded.{codes};
    ghost use Rattle.tc_term.specs.TreeCode.{coded_tree, coded_trees};
    ghost use Rattle.tc_model.specs.Scripts.{Lines};

    ghost Value = { Lines };

    ghost coded = { Prim.hlevel (codes, coded_tree, coded_trees) };

    ghost use Rattle.tc_model.specs.Scripts.{IsScript};

    ghost view = { λ s. record { vars = s.vars; items = s.items.items } };

    ghost invariant = { λ s. IsScript (record { vars = s.vars; items = s.items.items }) };
}

impl Script {
    ghost use Rattle.tc_model.specs.Scripts.{IsScript};

    /// The script of these items, in order.
    pub fn new(vars: u32, items: Vec<ScriptItem>) -> Script
        requires { IsScript (record { vars = vars; items = items.items }) }
        ensures { result ≡ record { vars = vars; items = items.items } }
    {
        Script { vars, items }
    }

    /// How many variables there are.
    pub fn vars(&self) -> u32
        ensures vars { result ≡ self.now.vars }
        ensures script { IsScript self.now }
    {
        self.vars
    }

    /// The items, in order.
    pub fn items(&self) -> &[ScriptItem]
        ensures items { result.now ≡ self.now.items }
        ensures script { IsScript self.now }
    {
        &self.items
    }
}
