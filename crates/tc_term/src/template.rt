//! Templates: terms within the limits, whose few variables are numbered by first appearance.
ghost use Rattle.std.specs.Prelude.{◌≡◌, ◌≤◌, IfErr, IfOk, length};
ghost use Rattle.tc_term.specs.Limits.{most_variables};
ghost use Rattle.tc_term.specs.TreeView.{tree_of};
ghost use Rattle.tc_term.specs.Variables.{var_bound, variables, renumbered, IsTemplate, IsPattern};

use crate::limits::fits;
use crate::numbering::{Seen, count_up, note, place};
use crate::terms::Term;
use crate::tuple::Ground;
use std::alloc::Global;
use std::marker::Model;
use tc_lists::NoMemory;
use thiserror::Error;

/// Why a term is no template. The term is given back.
#[derive(Debug, Drop, Error)]
pub enum NotPattern {
    /// It has too many nodes, is too deep, or has too many bytes of names.
    #[error("the term is beyond the limits of a term")]
    TooBig(Term),
    /// It is within the limits, and has more than 256 different variables.
    #[error("the term has more than 256 different variables")]
    TooMany(Term),
    /// It is a template whose variables aren't numbered by first appearance yet, and there was no
    /// memory for one whose are.
    #[error("out of memory")]
    NoMemory(Term),
}

/// A template: a term within the limits with at most 256 different variables, which are numbered
/// 0, 1, .. by first appearance.
#[derive(Debug, Drop)]
pub struct Pattern {
    term: Term,
    vars: u32,
}

impl Model for Pattern {
    ghost use Rattle.std.specs.Prelude.{◌≡◌, length};
    ghost use Rattle.tc_term.specs.Tree.{Tree};
    ghost use Rattle.tc_term.specs.TreeCode.{coded_tree};
    ghost use Rattle.tc_term.specs.Variables.{variables, IsPattern};

    ghost Value = { Tree };

    ghost coded = { coded_tree };

    ghost use Rattle.tc_term.specs.TreeView.{tree_of};

    ghost view = { λ p. tree_of p.term };

    ghost invariant = { λ p. IsPattern (tree_of p.term)
        × (p.vars ≡ length (variables (tree_of p.term))) };
}

impl Pattern {
    ghost use Rattle.tc_term.specs.Pattern.{HasExcess};

    /// The term as a template with its variables numbered anew, where it is one.
    ///
    /// A term that is numbered so already is taken as it is, without memory; of another a copy is
    /// made, since other terms may share its arguments. Takes O(nodes × variables) time.
    pub fn of(t: Term) -> Result<Pattern, NotPattern>
        ensures ok { IfOk result (λ p. (p ≡ renumbered (tree_of t)) × IsTemplate (tree_of t)) }
        ensures err { IfErr result (HasExcess t) }
    {
        if !fits(&t) {
            return Err(NotPattern::TooBig(t));
        }
        let mut seen = Seen::new();
        if !note(&t, &mut seen) {
            return Err(NotPattern::TooMany(t));
        }
        let numbers = seen.numbers();
        match renumbered(t, numbers) {
            Ok(term) => Ok(Pattern {
                term,
                vars: numbers.len() as u32,
            }),
            Err(t) => Err(NotPattern::NoMemory(t)),
        }
    }

    /// A term that is known to be a template, with so many variables, numbered by first appearance.
    ///
    /// Neither is looked at again: takes O(1) time and no memory.
    pub fn known(term: Term, vars: u32) -> Pattern
        requires pattern { IsPattern (tree_of term) }
        requires count { vars ≡ length (variables (tree_of term)) }
        ensures { result ≡ tree_of term }
    {
        Pattern { term, vars }
    }

    /// A tuple as a template, which has no variable. No memory is taken.
    pub fn of_tuple(tuple: Ground) -> Pattern
        ensures { result ≡ tuple }
    {
        Pattern {
            term: tuple.into_term(),
            vars: 0,
        }
    }

    /// The term, with its variables numbered.
    pub fn term(&self) -> &Term
        ensures term { tree_of result.now ≡ self.now }
        ensures pattern { IsPattern self.now }
    {
        &self.term
    }

    /// The term itself, with its variables numbered. No memory is taken.
    pub fn into_term(self) -> Term
        ensures term { tree_of result ≡ self }
        ensures pattern { IsPattern self }
    {
        self.term
    }

    /// How many different variables there are.
    pub fn vars(&self) -> u32
        ensures count { result ≡ length (variables self.now) }
        ensures bound { result ≡ var_bound self.now }
    {
        self.vars
    }

    /// Another template of the same term, which shares its arguments. Takes O(1) time.
    pub fn copy(&self, alloc: Global) -> Result<Pattern, NoMemory>
        ensures { IfOk result (λ p. p ≡ self.now) }
    {
        Ok(Pattern {
            term: self.term.copy(alloc)?,
            vars: self.vars,
        })
    }
}

// The term with its variables numbered anew; these are the numbers that they have, by first
// appearance. Most terms are numbered so already, and taken as they are. For another a copy is made,
// and where memory runs out the term is given back.
fn renumbered(t: Term, numbers: &[u32]) -> Result<Term, Term>
    requires few { length numbers.now ≤ most_variables }
    requires seen { numbers.now ≡ variables (tree_of t) }
    ensures ok { IfOk result (λ r. tree_of r ≡ renumbered (tree_of t)) }
    ensures same { IfErr result (λ u. u ≡ t) }
    ensures renamed { IfErr result (λ u. renumbered (tree_of t) ≡ tree_of t → ⊥) }
{
    if count_up(numbers) {
        return Ok(t);
    }
    match t {
        Term::Var(n) => Ok(Term::Var(place(numbers, n) as u32)),
        Term::Atom(name) => Ok(Term::Atom(name)),
        Term::Int(n) => Ok(Term::Int(n)),
        Term::Comp(name, args) => match args.with_places(numbers) {
            Ok(args) => Ok(Term::Comp(name, args)),
            Err(_) => Err(Term::Comp(name, args)),
        },
    }
}
