//! Laws of values, each the contract of a function that does nothing.
ghost use Rattle.std.specs.Prelude.{◌<◌, ◌++◌, ◌∷◌, [], ℕ, List, Contains};
ghost use Rattle.tc_term.specs.Equations.{Equation, HasValue, Matches};
ghost use Rattle.tc_term.specs.Tree.{Tree, Variable, IsTuple};
ghost use Rattle.tc_term.specs.Variables.{var_bound, variables, IsPattern};

/// A match gives each variable of its template a value, also beside other equations.
pub fn match_binds_every_variable()
    ensures variables { (n : ℕ) (es : List Equation) (t u : Tree) (i : ℕ)
        → IsTuple u → Contains (variables t) i → Matches n es t u
        → (value : Tree) × HasValue n (es ++ (t, u) ∷ []) (Variable i) value }
    ensures numbers { (n : ℕ) (es : List Equation) (t u : Tree) (i : ℕ)
        → IsTuple u → IsPattern t → i < var_bound t → Matches n es t u
        → (value : Tree) × HasValue n (es ++ (t, u) ∷ []) (Variable i) value }
{}
