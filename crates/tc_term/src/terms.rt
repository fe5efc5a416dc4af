//! Terms, and the arguments of compounds.
ghost use Rattle.std.specs.Prelude.{◌≡◌, ◌<◌, ◌≤◌, [], ◌∷◌, All, IfNone, IfOk, IfSome, length};
ghost use Rattle.tc_term.specs.Blocks.{terms_of};
ghost use Rattle.tc_term.specs.Cells.{IsCell, IsNoCell};
ghost use Rattle.tc_term.specs.Few.{AreMany, few_terms};
ghost use Rattle.tc_term.specs.Limits.{most_variables};
ghost use Rattle.tc_term.specs.Tree.{depth, depth_of_all, is_ground};
ghost use Rattle.tc_term.specs.TreeView.{tree_of, trees_of};
ghost use Rattle.tc_term.specs.Variables.{renamed, all_renamed, place_in};

use crate::name::Name;
use crate::numbering::place;
use std::alloc::Global;
use std::fmt;
use std::fmt::{Debug, Formatter, Write};
use std::marker::Model;
use std::sync::Arc;
use tc_lists::NoMemory;

/// A variable with its number, an atom, a whole number, or a compound: a name with its arguments.
///
/// A list cell is the compound `.` of two arguments, and the empty list is the atom `[]`.
#[cycle(term)]
#[derive(Debug, Drop)]
pub enum Term {
    Var(u32),
    Atom(Name),
    Int(i64),
    Comp(Name, Args),
}

/// The arguments of a compound: one term or more.
///
/// They lie in a block of memory that all copies share, and that is freed with the last of them.
#[cycle(term)]
#[derive(Drop)]
pub struct Args {
    alloc: Global,
    block: Arc<Block>,
}

// The arguments: one or two in the block itself, more in memory of their own.
#[cycle(term)]
#[derive(Drop)]
enum Block {
    One([Term; 1]),
    Two([Term; 2]),
    Many(Vec<Term>),
}

/// Arguments that are moved: each by itself where they are one or two.
#[derive(Drop)]
pub enum Few {
    One(Term),
    Two(Term, Term),
    Many(Vec<Term>),
}

impl Model for Args {
    ghost use Rattle.std.specs.Prelude.{◌<◌, length};
    ghost use Rattle.tc_term.specs.Tree.{Trees, depth_of_all};
    ghost use Rattle.tc_term.specs.TreeCode.{coded_trees};

    ghost Value = { Trees };

    ghost coded = { coded_trees };

    ghost use Rattle.tc_term.specs.TreeView.{trees_of};
    ghost use Rattle.tc_term.specs.Blocks.{terms_of};

    ghost view = { λ a. trees_of (terms_of a.block.value) };

    ghost invariant = { λ a. 0 < length (terms_of a.block.value) };

    ghost size = { depth_of_all };

    ghost use Rattle.std.proofs.Common.{arith};
    ghost use Rattle.tc_term.specs.TreeFalls.{block_le-depth};

    ghost size_decreases = { λ a h. omega (arith, block_le-depth a.block.value) };
}

impl Block {
    fn items(&self) -> &[Term]
        ensures { result.now ≡ terms_of self.now }
    {
        match self {
            Block::One(terms) => terms,
            Block::Two(terms) => terms,
            Block::Many(terms) => terms,
        }
    }

    fn into_vec(self, alloc: Global) -> Result<Vec<Term>, NoMemory>
        ensures { IfOk result (λ terms. terms.items ≡ terms_of self) }
    {
        match self {
            Block::One(terms) => Ok(Vec::from_array(alloc, terms)?),
            Block::Two(terms) => Ok(Vec::from_array(alloc, terms)?),
            Block::Many(terms) => Ok(terms),
        }
    }

    fn into_few(self) -> Few
        requires { 0 < length (terms_of self) }
        ensures terms { few_terms result ≡ terms_of self }
        ensures many { AreMany result }
    {
        match self {
            Block::One([x]) => Few::One(x),
            Block::Two([x, y]) => Few::Two(x, y),
            Block::Many(terms) => few_of(terms),
        }
    }
}

impl Args {
    /// These arguments, one or more, in a block that copies share.
    pub fn new(alloc: Global, mut terms: Vec<Term>) -> Result<Args, NoMemory>
        requires { 0 < length terms.items }
        ensures { IfOk result (λ args. args ≡ trees_of terms.items) }
    {
        if terms.len() == 1 {
            let Some(x) = terms.pop() else { unreachable!() };
            return Args::one(alloc, x);
        }
        if terms.len() == 2 {
            let Some(y) = terms.pop() else { unreachable!() };
            let Some(x) = terms.pop() else { unreachable!() };
            return Args::two(alloc, x, y);
        }
        let block = Arc::new(alloc, Block::Many(terms))?;
        Ok(Args { alloc, block })
    }

    /// This one argument.
    #[inline(always)]
    pub fn one(alloc: Global, x: Term) -> Result<Args, NoMemory>
        ensures { IfOk result (λ args. args ≡ trees_of (x ∷ [])) }
    {
        let block = Arc::new(alloc, Block::One([x]))?;
        Ok(Args { alloc, block })
    }

    /// These two arguments.
    #[inline(always)]
    pub fn two(alloc: Global, x: Term, y: Term) -> Result<Args, NoMemory>
        ensures { IfOk result (λ args. args ≡ trees_of (x ∷ y ∷ [])) }
    {
        let block = Arc::new(alloc, Block::Two([x, y]))?;
        Ok(Args { alloc, block })
    }

    /// The arguments, in order. A recursion through them falls by `depth`.
    pub fn items(&self) -> &[Term]
        ensures some { 0 < length result.now }
        ensures trees { trees_of result.now ≡ self.now }
        ensures depth { All (λ t. depth (tree_of t) ≤ depth_of_all self.now) result.now }
    {
        self.block.items()
    }

    /// The arguments themselves.
    ///
    /// They are moved where no copy shares their block, and copied where one does. Three or more
    /// that nobody shares take no memory.
    pub fn into_vec(self, alloc: Global) -> Result<Vec<Term>, NoMemory>
        ensures some { IfOk result (λ terms. 0 < length terms.items) }
        ensures trees { IfOk result (λ terms. trees_of terms.items ≡ self) }
    {
        match Arc::try_unwrap(self.block) {
            Ok(block) => block.into_vec(alloc),
            Err(block) => copies(alloc, block.items()),
        }
    }

    /// The arguments themselves, without a list where they are one or two.
    ///
    /// They are moved or copied as by `into_vec`.
    pub fn into_few(self, alloc: Global) -> Result<Few, NoMemory>
        ensures trees { IfOk result (λ few. trees_of (few_terms few) ≡ self) }
        ensures many { IfOk result AreMany }
    {
        match Arc::try_unwrap(self.block) {
            Ok(block) => Ok(block.into_few()),
            Err(block) => Ok(few_of(copies(alloc, block.items())?)),
        }
    }

    // The arguments with each variable given its place among these numbers.
    #[cycle(places)]
    pub(crate) fn with_places(&self, numbers: &[u32]) -> Result<Args, NoMemory>
        requires { length numbers.now ≤ most_variables }
        ensures { IfOk result (λ args. args ≡ all_renamed (place_in numbers.now) self.now) }
    {
        let alloc = self.alloc;
        let items = self.items();
        let mut terms = Vec::with_capacity(alloc, items.len())?;
        for term in items {
            terms.push(term.with_places(alloc, numbers)?)?;
        }
        Args::new(alloc, terms)
    }

    /// Another value of the same arguments, which shares their block.
    ///
    /// Takes O(1) time and no memory. It fails only where the block's count of copies is full, at
    /// 2^63 - 1.
    pub fn copy(&self, alloc: Global) -> Result<Args, NoMemory>
        ensures { IfOk result (λ args. args ≡ self.now) }
    {
        let block = Arc::try_clone(&self.block)?;
        Ok(Args { alloc, block })
    }
}

impl Term {
    /// Whether no variable stands in the term. Recurses as deep as the term is.
    pub fn is_ground(&self) -> bool
        ensures { result ≡ is_ground (tree_of self.now) }
    {
        match self {
            Term::Var(_) => false,
            Term::Atom(_) | Term::Int(_) => true,
            Term::Comp(_, args) => {
                for arg in args.items() {
                    if !arg.is_ground() {
                        return false;
                    }
                }
                true
            }
        }
    }

    /// The head and the tail, where the term is a list cell. A walk along the tails falls by
    /// `depth`.
    pub fn as_cell(&self) -> Option<(&Term, &Term)>
        ensures some { IfSome result
            (λ c. IsCell (tree_of self.now) (tree_of c.0.now) (tree_of c.1.now)) }
        ensures none { IfNone result (IsNoCell (tree_of self.now)) }
        ensures depth { IfSome result (λ c. depth (tree_of c.1.now) < depth (tree_of self.now)) }
    {
        match self {
            Term::Comp(name, args) => match args.items() {
                [head, tail] if name.bytes() == b".".as_slice() => Some((head, tail)),
                _ => None,
            },
            _ => None,
        }
    }

    // The term with each variable given its place among these numbers.
    #[cycle(places)]
    fn with_places(&self, alloc: Global, numbers: &[u32]) -> Result<Term, NoMemory>
        requires { length numbers.now ≤ most_variables }
        ensures { IfOk result
            (λ term. tree_of term ≡ renamed (place_in numbers.now) (tree_of self.now)) }
    {
        match self {
            Term::Var(n) => Ok(Term::Var(place(numbers, *n) as u32)),
            Term::Comp(name, args) => {
                Ok(Term::Comp(name.copy(alloc)?, args.with_places(numbers)?))
            }
            Term::Atom(_) | Term::Int(_) => self.copy(alloc),
        }
    }

    /// Another term of the same tree, which shares its arguments.
    ///
    /// Takes O(1) time, and no memory but for a name of more than 14 bytes.
    pub fn copy(&self, alloc: Global) -> Result<Term, NoMemory>
        ensures { IfOk result (λ term. tree_of term ≡ tree_of self.now) }
    {
        match self {
            Term::Var(n) => Ok(Term::Var(*n)),
            Term::Atom(name) => Ok(Term::Atom(name.copy(alloc)?)),
            Term::Int(n) => Ok(Term::Int(*n)),
            Term::Comp(name, args) => Ok(Term::Comp(name.copy(alloc)?, args.copy(alloc)?)),
        }
    }
}

// These terms, each by itself where they are one or two.
fn few_of(mut terms: Vec<Term>) -> Few
    requires { 0 < length terms.items }
    ensures terms { few_terms result ≡ terms.items }
    ensures many { AreMany result }
{
    if terms.len() > 2 {
        return Few::Many(terms);
    }
    match (terms.pop(), terms.pop()) {
        (Some(y), Some(x)) => Few::Two(x, y),
        (Some(x), None) => Few::One(x),
        _ => unreachable!(),
    }
}

// Copies of the terms, in room for exactly these.
fn copies(alloc: Global, terms: &[Term]) -> Result<Vec<Term>, NoMemory>
    ensures trees { IfOk result (λ copies. trees_of copies.items ≡ trees_of terms.now) }
    ensures as_long { IfOk result (λ copies. length copies.items ≡ length terms.now) }
{
    let mut copies = Vec::with_capacity(alloc, terms.len())?;
    for term in terms {
        copies.push(term.copy(alloc)?)?;
    }
    Ok(copies)
}

// By hand, since the arguments lie behind a pointer that is shared.
impl Debug for Args {
    #[cycle(debug)]
    fn fmt<W: Write>(&self, f: &mut Formatter<W>) -> fmt::Result {
        f.write_str("[")?;
        for (i, term) in self.items().iter().enumerate() {
            if i > 0 {
                f.write_str(", ")?;
            }
            term.fmt(f)?;
        }
        f.write_str("]")
    }
}

impl PartialEq for Term {
    ghost use Rattle.tc_term.specs.Same.{same_term, same_term_equiv};
    ghost use Rattle.std.specs.Cmp.{partial_equiv_from_equiv};

    ghost eq = { same_term };

    ghost laws = { partial_equiv_from_equiv same_term_equiv };

    #[cycle(same)]
    fn eq(&self, other: &Term) -> bool {
        match (self, other) {
            (Term::Var(m), Term::Var(n)) => m == n,
            (Term::Atom(a), Term::Atom(b)) => a == b,
            (Term::Int(x), Term::Int(y)) => x == y,
            (Term::Comp(a, xs), Term::Comp(b, ys)) => a == b && xs == ys,
            _ => false,
        }
    }
}

impl Eq for Term {
    ghost use Rattle.tc_term.specs.Same.{same_term_equiv};

    ghost laws = { same_term_equiv };
}

impl PartialEq for Args {
    ghost use Rattle.tc_term.specs.Same.{same_trees, same_trees_equiv};
    ghost use Rattle.std.specs.Cmp.{partial_equiv_from_equiv};

    ghost eq = { same_trees };

    ghost laws = { partial_equiv_from_equiv same_trees_equiv };

    #[cycle(same)]
    fn eq(&self, other: &Args) -> bool {
        let xs = self.items();
        let ys = other.items();
        if xs.len() != ys.len() {
            return false;
        }
        for (x, y) in xs.iter().zip(ys) {
            if x != y {
                return false;
            }
        }
        true
    }
}

impl Eq for Args {
    ghost use Rattle.tc_term.specs.Same.{same_trees_equiv};

    ghost laws = { same_trees_equiv };
}
