//! Tuples: ground terms within the limits.
ghost use Rattle.std.specs.Prelude.{◌≡◌, IfErr, IfNone, IfOk, IfSome, false};
ghost use Rattle.tc_term.specs.Tree.{IsTuple, is_ground};
ghost use Rattle.tc_term.specs.TreeView.{tree_of};

use crate::limits::fits;
use crate::template::Pattern;
use crate::terms::Term;
use std::alloc::Global;
use std::marker::Model;
use tc_lists::NoMemory;
use thiserror::Error;

/// Why a term is no tuple. The term is given back.
#[derive(Debug, Drop, Error)]
pub enum NotTuple {
    /// It has too many nodes, is too deep, or has too many bytes of names.
    #[error("the term is beyond the limits of a term")]
    TooBig(Term),
    /// It is within the limits, and has a variable.
    #[error("the term has a variable")]
    NotGround(Term),
}

/// A tuple: a term without variables that is within the limits.
#[derive(Debug, Drop)]
pub struct Ground {
    term: Term,
}

impl Model for Ground {
    ghost use Rattle.tc_term.specs.Tree.{Tree, IsTuple};
    ghost use Rattle.tc_term.specs.TreeCode.{coded_tree};

    ghost Value = { Tree };

    ghost coded = { coded_tree };

    ghost use Rattle.tc_term.specs.TreeView.{tree_of};

    ghost view = { λ g. tree_of g.term };

    ghost invariant = { λ g. IsTuple (tree_of g.term) };
}

impl Ground {
    ghost use Rattle.tc_term.specs.Ground.{HasTupleCause};

    /// The term as a tuple, where it is one. No memory is taken.
    pub fn of(t: Term) -> Result<Ground, NotTuple>
        ensures ok { IfOk result (λ tuple. (tuple ≡ tree_of t) × IsTuple (tree_of t)) }
        ensures err { IfErr result (HasTupleCause t) }
    {
        if !fits(&t) {
            return Err(NotTuple::TooBig(t));
        }
        if !t.is_ground() {
            return Err(NotTuple::NotGround(t));
        }
        Ok(Ground { term: t })
    }

    /// The template as a tuple, where it has no variable.
    ///
    /// It is not looked at again: takes O(1) time and no memory.
    #[inline(always)]
    pub fn of_pattern(pattern: Pattern) -> Option<Ground>
        ensures some { IfSome result (λ tuple. (tuple ≡ pattern) × IsTuple pattern) }
        ensures none { IfNone result (is_ground pattern ≡ false) }
    {
        if pattern.vars() > 0 {
            return None;
        }
        Some(Ground {
            term: pattern.into_term(),
        })
    }

    /// The term, which has no variable.
    pub fn term(&self) -> &Term
        ensures term { tree_of result.now ≡ self.now }
        ensures tuple { IsTuple self.now }
    {
        &self.term
    }

    /// The term itself. No memory is taken.
    pub fn into_term(self) -> Term
        ensures term { tree_of result ≡ self }
        ensures tuple { IsTuple self }
    {
        self.term
    }

    /// Another tuple of the same term, which shares its arguments. Takes O(1) time.
    pub fn copy(&self, alloc: Global) -> Result<Ground, NoMemory>
        ensures { IfOk result (λ tuple. tuple ≡ self.now) }
    {
        Ok(Ground {
            term: self.term.copy(alloc)?,
        })
    }
}
