//! The items of a script, as they are written.
ghost use Rattle.std.specs.Prelude.{◌≡◌, IfNone, IfOk, IfSome, List};
ghost use Rattle.tc_term.specs.Few.{AreMany, few_terms};
ghost use Rattle.tc_term.specs.Tree.{Atomic, Compound};
ghost use Rattle.tc_term.specs.TreeView.{tree_of, trees_of};
ghost use Rattle.tc_model.specs.declared.lines.Line.{Line};
ghost use Rattle.tc_config.specs.Forms.{lines_term};
ghost use Rattle.tc_config.specs.Words.{AreCells};

use std::alloc::Global;
use tc_lists::NoMemory;
use tc_model::{Line, line_of, two_of};
use tc_term::{Few, Name, Term};

/// A list as far as its first cell.
#[derive(Drop)]
pub enum Cells {
    End,
    Cell(Term, Term),
    Neither,
}

/// The items of the list that the term is, if it is one that ends in `[]`.
///
/// Takes time in their number.
pub fn lines_of(alloc: Global, list: Term) -> Result<Option<Vec<Line>>, NoMemory>
    ensures some { IfOk result (λ found. IfSome found
        (λ lines. tree_of list ≡ lines_term lines.items)) }
    ensures none { IfOk result (λ found. IfNone found
        ((lines : List Line) → tree_of list ≡ lines_term lines → ⊥)) }
{
    let mut lines = Vec::new(alloc);
    let mut rest = list;
    loop {
        let cells = cells_of(alloc, rest)?;
        match cells {
            Cells::End => return Ok(Some(lines)),
            Cells::Neither => return Ok(None),
            Cells::Cell(head, tail) => {
                let found = line_of(alloc, head)?;
                let Some(line) = found else {
                    return Ok(None);
                };
                lines.push(line)?;
                rest = tail;
            }
        }
    }
}

// The first cell of a list, or its end.
fn cells_of(alloc: Global, t: Term) -> Result<Cells, NoMemory>
    ensures { IfOk result (AreCells (tree_of t)) }
{
    match t {
        Term::Atom(name) => Ok(end_of(name)),
        Term::Comp(name, args) => Ok(cell_of(name, args.into_few(alloc)?)),
        Term::Var(_) | Term::Int(_) => Ok(Cells::Neither),
    }
}

// The end of a list, if the atom of this name is that.
fn end_of(name: Name) -> Cells
    ensures { AreCells (Atomic name) result }
{
    if name.bytes() != b"[]".as_slice() {
        return Cells::Neither;
    }
    Cells::End
}

// A list's cell, if the compound of this name with these arguments is one.
fn cell_of(name: Name, args: Few) -> Cells
    requires { AreMany args }
    ensures { AreCells (Compound name (trees_of (few_terms args))) result }
{
    if name.bytes() != b".".as_slice() {
        return Cells::Neither;
    }
    match two_of(args) {
        Some((head, tail)) => Cells::Cell(head, tail),
        None => Cells::Neither,
    }
}
