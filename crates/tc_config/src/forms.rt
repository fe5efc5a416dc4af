//! The forms of a clause.
ghost use Rattle.std.specs.Prelude.{IfOk, codes};
ghost use Rattle.tc_term.specs.Few.{AreMany, few_terms};
ghost use Rattle.tc_term.specs.Tree.{Atomic, Compound, Last, More};
ghost use Rattle.tc_term.specs.TreeView.{tree_of, trees_of};
ghost use Rattle.tc_model.specs.Reactions.{of_one, of_two};
ghost use Rattle.tc_config.specs.Forms.{IsFormed};
ghost use Rattle.tc_config.specs.Words.{word_name};

use crate::lines::lines_of;
use crate::words::{Arguments, Word, arguments_of, budget_of, word_of};
use std::alloc::Global;
use tc_lists::{NoMemory, Seq};
use tc_model::{Line, Primitive, atom_of, primitive_of};
use tc_term::{Few, Name, Term};

/// A clause by its form, with what was read in it.
#[derive(Drop)]
pub enum Form {
    /// `centre(C)` or `centre(C,B)`: a centre, with its budget.
    Centre(Name, Option<u32>),
    /// `tuple(C,T)`: a tuple of a centre.
    Tuple(Name, Term),
    /// `spec(C,R)`: a reaction of a centre.
    Spec(Name, Term),
    /// `role(R)`: a role.
    Role(Name),
    /// `grant(R,C,P)`: a role may use a primitive on a centre.
    Grant(Name, Name, Primitive),
    /// `agent(A,R)`: an agent, with its role.
    Agent(Name, Name),
    /// `script(A,L)`: items of an agent, one after another.
    Script(Name, Seq<Line>),
}

/// The form of the clause that the term is, if it is one. What stands in it is moved where no copy
/// of the term is left.
///
/// Takes time in the number of items of a script.
pub fn form_of(alloc: Global, t: Term) -> Result<Option<Form>, NoMemory>
    ensures { IfOk result (IsFormed (tree_of t)) }
{
    let Term::Comp(name, args) = t else {
        return Ok(None);
    };
    match word_of(name.bytes()) {
        Some(word) => form_with(alloc, word, args.into_few(alloc)?),
        None => Ok(None),
    }
}

// The form of a word with these arguments.
fn form_with(alloc: Global, word: Word, args: Few) -> Result<Option<Form>, NoMemory>
    requires { AreMany args }
    ensures { IfOk result (IsFormed (Compound (word_name word) (trees_of (few_terms args)))) }
{
    match arguments_of(args) {
        Arguments::One(a) => Ok(form_of_one(word, a)),
        Arguments::Two(a, b) => form_of_two(alloc, word, a, b),
        Arguments::Three(a, b, c) => Ok(form_of_three(word, a, b, c)),
        Arguments::Many => Ok(None),
    }
}

// The form of a word with one argument.
fn form_of_one(word: Word, a: Term) -> Option<Form>
    ensures { IsFormed (of_one (word_name word) (tree_of a)) result }
{
    match word {
        Word::Centre => centre_of(a),
        Word::Role => role_of(a),
        Word::Tuple | Word::Spec | Word::Grant | Word::Agent | Word::Script => None,
    }
}

// The form of a word with two arguments.
fn form_of_two(alloc: Global, word: Word, a: Term, b: Term) -> Result<Option<Form>, NoMemory>
    ensures { IfOk result (IsFormed (of_two (word_name word) (tree_of a) (tree_of b))) }
{
    match word {
        Word::Centre => Ok(centre_with(a, b)),
        Word::Tuple => Ok(tuple_of(a, b)),
        Word::Spec => Ok(spec_of(a, b)),
        Word::Agent => Ok(agent_of(a, b)),
        Word::Script => script_of(alloc, a, b),
        Word::Role | Word::Grant => Ok(None),
    }
}

// The form of a word with three arguments.
fn form_of_three(word: Word, a: Term, b: Term, c: Term) -> Option<Form>
    ensures { IsFormed (Compound (word_name word)
        (More (tree_of a) (More (tree_of b) (Last (tree_of c))))) result }
{
    match word {
        Word::Grant => grant_of(a, b, c),
        Word::Centre | Word::Tuple | Word::Spec | Word::Role | Word::Agent | Word::Script => None,
    }
}

// `centre(C)`.
fn centre_of(name: Term) -> Option<Form>
    ensures { IsFormed (of_one (codes "centre") (tree_of name)) result }
{
    match atom_of(name) {
        Some(name) => Some(Form::Centre(name, None)),
        None => None,
    }
}

// `centre(C,B)`.
fn centre_with(name: Term, budget: Term) -> Option<Form>
    ensures { IsFormed (of_two (codes "centre") (tree_of name) (tree_of budget)) result }
{
    let budget = budget_of(&budget)?;
    match atom_of(name) {
        Some(name) => Some(Form::Centre(name, Some(budget))),
        None => None,
    }
}

// `tuple(C,T)`.
fn tuple_of(centre: Term, tuple: Term) -> Option<Form>
    ensures { IsFormed (of_two (codes "tuple") (tree_of centre) (tree_of tuple)) result }
{
    match atom_of(centre) {
        Some(centre) => Some(Form::Tuple(centre, tuple)),
        None => None,
    }
}

// `spec(C,R)`.
fn spec_of(centre: Term, reaction: Term) -> Option<Form>
    ensures { IsFormed (of_two (codes "spec") (tree_of centre) (tree_of reaction)) result }
{
    match atom_of(centre) {
        Some(centre) => Some(Form::Spec(centre, reaction)),
        None => None,
    }
}

// `role(R)`.
fn role_of(name: Term) -> Option<Form>
    ensures { IsFormed (of_one (codes "role") (tree_of name)) result }
{
    match atom_of(name) {
        Some(name) => Some(Form::Role(name)),
        None => None,
    }
}

// `grant(R,C,P)`.
fn grant_of(role: Term, centre: Term, primitive: Term) -> Option<Form>
    ensures { IsFormed (Compound (codes "grant")
        (More (tree_of role) (More (tree_of centre) (Last (tree_of primitive))))) result }
{
    let role = atom_of(role)?;
    let centre = atom_of(centre)?;
    let name = atom_of(primitive)?;
    match primitive_of(name.bytes()) {
        Some(primitive) => Some(Form::Grant(role, centre, primitive)),
        None => None,
    }
}

// `agent(A,R)`.
fn agent_of(name: Term, role: Term) -> Option<Form>
    ensures { IsFormed (of_two (codes "agent") (tree_of name) (tree_of role)) result }
{
    let name = atom_of(name)?;
    match atom_of(role) {
        Some(role) => Some(Form::Agent(name, role)),
        None => None,
    }
}

// `script(A,L)`.
fn script_of(alloc: Global, agent: Term, list: Term) -> Result<Option<Form>, NoMemory>
    ensures { IfOk result (IsFormed (of_two (codes "script") (tree_of agent) (tree_of list))) }
{
    match atom_of(agent) {
        Some(agent) => script_with(alloc, agent, list),
        None => Ok(None),
    }
}

// The same with the agent's name.
fn script_with(alloc: Global, agent: Name, list: Term) -> Result<Option<Form>, NoMemory>
    ensures { IfOk result (IsFormed (of_two (codes "script") (Atomic agent) (tree_of list))) }
{
    let found = lines_of(alloc, list)?;
    match found {
        Some(lines) => Ok(Some(Form::Script(agent, Seq::new(lines)))),
        None => Ok(None),
    }
}
