//! Reactions with their guards, and the list of them that programs a centre.
ghost use Rattle.std.specs.Prelude.{◌≡◌, ◌<◌, ◌++◌, ◌∷◌, [], length, IfNone, IfOk, IfSome};
ghost use Rattle.std.specs.Prelude.{OnOk, OnErr};
ghost use Rattle.tc_model.specs.Reactions.{test_name};
ghost use Rattle.tc_model.specs.declared.reactions.GuardTest.{GuardTest};

use crate::events::EventOp;
use crate::goals::Goal;
use crate::limits::MOST_CLAUSES;
use std::alloc::Global;
use std::marker::Model;
use tc_lists::NoMemory;
use tc_term::Term;

/// A test of a guard: what the event must be for its clause to be triggered.
#[derive(Clone, Copy, Debug, PartialEq, Eq)]
pub enum GuardTest {
    /// `request`: the event is a request.
    Request,
    /// `response`: the event is an answer.
    Response,
    /// `success`: the operation succeeded.
    Success,
    /// `failure`: it found no tuple.
    Failure,
}

impl GuardTest {
    ghost use Rattle.tc_model.specs.Reactions.{test_name};

    /// Its name, as guards write it.
    pub fn name(&self) -> &'static [u8]
        ensures { result.now ≡ test_name self.now }
    {
        match self {
            GuardTest::Request => b"request",
            GuardTest::Response => b"response",
            GuardTest::Success => b"success",
            GuardTest::Failure => b"failure",
        }
    }
}

/// The test of this name, if there is one. No memory is taken.
pub fn test_of(name: &[u8]) -> Option<GuardTest>
    ensures found { IfSome result (λ t. test_name t ≡ name.now) }
    ensures none { IfNone result ((t : GuardTest) → test_name t ≡ name.now → ⊥) }
{
    if name == GuardTest::Request.name() {
        Some(GuardTest::Request)
    } else if name == GuardTest::Response.name() {
        Some(GuardTest::Response)
    } else if name == GuardTest::Success.name() {
        Some(GuardTest::Success)
    } else if name == GuardTest::Failure.name() {
        Some(GuardTest::Failure)
    } else {
        None
    }
}

/// How many arguments the clause of a reaction has: without a guard two, and with one three, in
/// which goals that work on tuples have other names.
#[derive(Clone, Copy, Debug, PartialEq, Eq)]
pub enum Form {
    Two,
    Three,
}

/// A reaction: the clause `reaction(Head,Body)` or `reaction(Head,Guard,Body)`, which runs its
/// goals where an event meets its head and all tests of its guard hold.
///
/// Its variables are numbered by first appearance in the clause. It has 1 to 64 goals and, where
/// its clause has three arguments, up to 16 tests; the text of its clause can be read back.
#[derive(Drop)]
pub struct Reaction {
    vars: u32,
    form: Form,
    op: EventOp,
    head: Term,
    guard: Vec<GuardTest>,
    goals: Vec<Goal>,
}

impl Model for Reaction {
    ghost use Rattle.std.specs.Coded.{codes};
    ghost use Rattle.tc_term.specs.TreeCode.{coded_tree, coded_trees};
    ghost use Rattle.tc_model.specs.Reactions.{Rule};

    ghost Value = { Rule };

    ghost coded = { Prim.hlevel (codes, coded_tree, coded_trees) };

    ghost use Rattle.tc_model.specs.ReactionViews.{rule_of, IsReaction};

    ghost view = { rule_of };

    ghost invariant = { IsReaction };
}

impl Reaction {
    ghost use Rattle.tc_term.specs.TreeView.{tree_of};
    ghost use Rattle.tc_model.specs.Reactions.{IsRule};

    /// The reaction to an operation's events whose term meets the head, where the tests hold.
    pub fn new(
        vars: u32,
        form: Form,
        op: EventOp,
        head: Term,
        guard: Vec<GuardTest>,
        goals: Vec<Goal>,
    ) -> Reaction
        requires { IsRule (record {
          vars = vars;
          form = form;
          op = op;
          head = tree_of head;
          guard = guard.items;
          goals = goals.items;
        }) }
        ensures { result ≡ record {
          vars = vars;
          form = form;
          op = op;
          head = tree_of head;
          guard = guard.items;
          goals = goals.items;
        } }
    {
        Reaction {
            vars,
            form,
            op,
            head,
            guard,
            goals,
        }
    }

    /// How many variables there are.
    pub fn vars(&self) -> u32
        ensures vars { result ≡ self.now.vars }
        ensures rule { IsRule self.now }
    {
        self.vars
    }

    /// How many arguments its clause has.
    pub fn form(&self) -> Form
        ensures form { result ≡ self.now.form }
        ensures rule { IsRule self.now }
    {
        self.form
    }

    /// The operation whose events trigger the reaction.
    pub fn op(&self) -> EventOp
        ensures op { result ≡ self.now.op }
        ensures rule { IsRule self.now }
    {
        self.op
    }

    /// What the event's term is to meet.
    pub fn head(&self) -> &Term
        ensures head { tree_of result.now ≡ self.now.head }
        ensures rule { IsRule self.now }
    {
        &self.head
    }

    /// The tests of its guard, in order; a clause of two arguments has none.
    pub fn guard(&self) -> &[GuardTest]
        ensures guard { result.now ≡ self.now.guard }
        ensures rule { IsRule self.now }
    {
        &self.guard
    }

    /// The goals, in order.
    pub fn goals(&self) -> &[Goal]
        ensures goals { result.now ≡ self.now.goals }
        ensures rule { IsRule self.now }
    {
        &self.goals
    }

    /// An equal reaction.
    pub fn copy(&self, alloc: Global) -> Result<Reaction, NoMemory>
        ensures { IfOk result (λ reaction. reaction ≡ self.now) }
    {
        Ok(Reaction {
            vars: self.vars,
            form: self.form,
            op: self.op,
            head: self.head.copy(alloc)?,
            guard: copy_tests(alloc, &self.guard)?,
            goals: copy_goals(alloc, &self.goals)?,
        })
    }
}

// Each test, in order.
fn copy_tests(alloc: Global, tests: &[GuardTest]) -> Result<Vec<GuardTest>, NoMemory>
    ensures { IfOk result (λ copies. copies.items ≡ tests.now) }
{
    let mut copies = Vec::new(alloc);
    copies.extend_from_slice(tests)?;
    Ok(copies)
}

// Each goal, in order.
fn copy_goals(alloc: Global, goals: &[Goal]) -> Result<Vec<Goal>, NoMemory>
    ensures { IfOk result (λ copies. copies.items ≡ goals.now) }
{
    let mut copies = Vec::with_capacity(alloc, goals.len())?;
    for goal in goals {
        copies.push(goal.copy(alloc)?)?;
    }
    Ok(copies)
}

/// The reactions of a centre, in the order of their clause numbers: at most 1,000.
#[derive(Drop)]
pub struct Clauses {
    items: Vec<Reaction>,
}

impl Model for Clauses {
    ghost use Rattle.std.specs.Prelude.{List};
    ghost use Rattle.std.specs.Coded.{codes};
    ghost use Rattle.tc_term.specs.TreeCode.{coded_tree, coded_trees};
    ghost use Rattle.tc_model.specs.Reactions.{Rule, AreClauses};

    ghost Value = { List Rule };

    ghost coded = { Prim.hlevel (codes, coded_tree, coded_trees) };

    ghost view = { λ c. c.items.items };

    ghost invariant = { λ c. AreClauses c.items.items };
}

impl Clauses {
    ghost use Rattle.tc_model.specs.Reactions.{AreClauses};

    /// No clause.
    pub fn new(alloc: Global) -> Clauses
        ensures { result ≡ [] }
    {
        Clauses {
            items: Vec::new(alloc),
        }
    }

    /// Appends a clause.
    pub fn push(&mut self, reaction: Reaction) -> Result<(), NoMemory>
        requires { length self.old < MOST_CLAUSES }
        ensures ok { OnOk result (self.new ≡ self.old ++ reaction ∷ []) }
        ensures err { OnErr result (self.new ≡ self.old) }
    {
        let _op = reaction.op();
        self.items.push(reaction)?;
        Ok(())
    }

    /// The clauses, in order.
    pub fn items(&self) -> &[Reaction]
        ensures items { result.now ≡ self.now }
        ensures clauses { AreClauses self.now }
    {
        &self.items
    }

    /// Equal clauses.
    pub fn copy(&self, alloc: Global) -> Result<Clauses, NoMemory>
        ensures { IfOk result (λ clauses. clauses ≡ self.now) }
    {
        Ok(Clauses {
            items: copy_reactions(alloc, &self.items)?,
        })
    }
}

// Each reaction, in order.
fn copy_reactions(alloc: Global, reactions: &[Reaction]) -> Result<Vec<Reaction>, NoMemory>
    ensures { IfOk result (λ copies. copies.items ≡ reactions.now) }
{
    let mut copies = Vec::with_capacity(alloc, reactions.len())?;
    for reaction in reactions {
        copies.push(reaction.copy(alloc)?)?;
    }
    Ok(copies)
}
