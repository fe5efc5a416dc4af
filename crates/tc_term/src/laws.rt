//! Laws of terms and equations, each the contract of a function that does nothing.
ghost use Rattle.std.specs.Prelude.{◌≡◌, ◌≤◌, ◌++◌, ℕ, IsTrue, List, [], length};
ghost use Rattle.tc_term.specs.Equations.{Equation, Solves, Solvable, HasValue, Matches};
ghost use Rattle.tc_term.specs.Ground.{HasTupleCause};
ghost use Rattle.tc_term.specs.Pattern.{HasExcess};
ghost use Rattle.tc_term.specs.Text.{canonical, text_of};
ghost use Rattle.tc_term.specs.Tree.{Tree, is_ground, IsTuple};
ghost use Rattle.tc_term.specs.TreeView.{tree_of};
ghost use Rattle.tc_term.specs.Variables.{var_bound, variables, renumbered, IsPattern, IsTemplate};
ghost use Rattle.tc_term.specs.declared.limits.TheConstants.{MOST_NODES, MOST_DEPTH};
ghost use Rattle.tc_term.specs.declared.limits.TheConstants.{MOST_BYTES_OF_NAMES, MOST_VARIABLES};
ghost use Rattle.tc_term.specs.declared.limits.TheConstants.{MOST_BRACKETS};
ghost use Rattle.tc_term.specs.declared.template.NotPattern.{NotPattern};
ghost use Rattle.tc_term.specs.declared.template.NotPattern.TheVariants.{NoMemory};
ghost use Rattle.tc_term.specs.declared.terms.Term.{Term};
ghost use Rattle.tc_term.specs.declared.tuple.NotTuple.{NotTuple};

/// A term has one value at most.
pub fn value_is_unique()
    ensures { (n : ℕ) (es : List Equation) (t v w : Tree)
        → HasValue n es t v → HasValue n es t w → v ≡ w }
{}

/// A value is a tuple.
pub fn value_is_a_tuple()
    ensures { (n : ℕ) (es : List Equation) (t v : Tree)
        → var_bound t ≤ n → HasValue n es t v → IsTuple v }
{}

/// What solves more equations solves fewer.
pub fn fewer_equations_have_more_solutions()
    ensures { (n : ℕ) (es fs : List Equation) (v : List Tree)
        → Solves n (es ++ fs) v → Solves n es v }
{}

/// A ground template matches itself alone, where the equations are solvable.
pub fn ground_template_matches_itself()
    ensures itself { (n : ℕ) (es : List Equation) (t : Tree)
        → Solvable n es → Matches n es t t }
    ensures alone { (n : ℕ) (es : List Equation) (s t : Tree)
        → IsTrue (is_ground s) → IsTrue (is_ground t) → Matches n es s t → s ≡ t }
{}

/// A template matches the same tuples, however its variables are numbered.
pub fn renumbering_keeps_matches()
    ensures renumbered { (n m : ℕ) (t u : Tree)
        → length (variables t) ≤ m → IsTrue (is_ground u)
        → Matches n [] t u → Matches m [] (renumbered t) u }
    ensures as_written { (n m : ℕ) (t u : Tree)
        → var_bound t ≤ n → IsTrue (is_ground u)
        → Matches m [] (renumbered t) u → Matches n [] t u }
{}

/// A tuple is not refused as a tuple, and a term that is numbered as a template is not as one. A term
/// that can be numbered so is refused for want of memory alone, where it isn't yet.
pub fn good_terms_are_not_refused()
    ensures tuple { (t : Term) (why : NotTuple)
        → IsTuple (tree_of t) → HasTupleCause t why → ⊥ }
    ensures template { (t : Term) (why : NotPattern)
        → IsTemplate (tree_of t) → HasExcess t why
        → (why ≡ NoMemory t) × (renumbered (tree_of t) ≡ tree_of t → ⊥) }
    ensures pattern { (t : Term) (why : NotPattern)
        → IsPattern (tree_of t) → HasExcess t why → ⊥ }
{}

/// A tuple is a template.
pub fn tuple_is_a_template()
    ensures { (t : Tree) → IsTuple t → IsPattern t }
{}

/// A term that is numbered by first appearance is printed with the numbers that it has.
pub fn template_keeps_its_numbers()
    ensures same { (t : Tree) → IsPattern t → renumbered t ≡ t }
    ensures text { (t : Tree) → IsPattern t → canonical t ≡ text_of t }
{}

/// How large terms and their texts may be.
pub fn limits_of_terms()
    ensures nodes { MOST_NODES ≡ 10000 }
    ensures depth { MOST_DEPTH ≡ 1000 }
    ensures name_bytes { MOST_BYTES_OF_NAMES ≡ 65535 }
    ensures variables { MOST_VARIABLES ≡ 256 }
    ensures brackets { MOST_BRACKETS ≡ 200 }
{}
