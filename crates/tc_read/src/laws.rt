//! Laws of reading, for callers to cite.
ghost use Rattle.std.specs.Prelude.{◌≡◌, ◌+◌, ◌++◌, Bool, IsTrue, List, codes};
ghost use Rattle.std.specs.Prelude.{drop, false};
ghost use Rattle.std.specs.Prelude.{length, true, ℕ};
ghost use Rattle.tc_term.specs.Layouts.{IsBehindEnd};
ghost use Rattle.tc_term.specs.Text.{canonical, is_name};
ghost use Rattle.tc_term.specs.Tree.{Fits, Tree};
ghost use Rattle.tc_term.specs.Variables.{IsPattern};
ghost use Rattle.tc_term.specs.Faults.{Answer, Found, ReadsAs};
ghost use Rattle.tc_read.specs.Asked.{asked_of, asked_text};
ghost use Rattle.tc_read.specs.Canonical.{EndsTerm, IsCanonicalAt};
ghost use Rattle.tc_read.specs.Canonical.{IsLongestCanonicalAt};
ghost use Rattle.tc_term.specs.NameBytes.{has_read_names};
ghost use Rattle.tc_term.specs.Readable.{IsReadable};

/// A text has one reading at most: so what reads it is the only answer, whichever way it was found.
pub fn reading_is_unique()
    ensures { (clauses : Bool) (size : ℕ) (s : List ℕ) (a b : Answer)
        → ReadsAs clauses size s a → ReadsAs clauses size s b → a ≡ b }
{}

/// No text is without a reading, so the answers of the reader leave no gap.
pub fn each_text_has_a_reading()
    ensures { (clauses : Bool) (size : ℕ) (s : List ℕ)
        → ((a : Answer) → ReadsAs clauses size s a → ⊥) → ⊥ }
{}

/// A name that is read holds no byte below 32 but line feeds and tabs.
pub fn read_names_hold_no_control_bytes()
    ensures { (clauses : Bool) (size : ℕ) (s : List ℕ) (term : Tree) (behind : ℕ)
        → ReadsAs clauses size s (Found term behind) → IsTrue (has_read_names term) }
{}

/// At most one template has its canonical text from one place to another, and only one has the
/// longest text there is at a place.
pub fn canonical_reading_is_unique()
    ensures same { (text : List ℕ) (from : ℕ) (p q : Tree) (behind : ℕ)
        → IsCanonicalAt text from p behind → IsCanonicalAt text from q behind → p ≡ q }
    ensures longest { (text : List ℕ) (from : ℕ) (p q : Tree) (behind end : ℕ)
        → IsLongestCanonicalAt text from p behind → IsLongestCanonicalAt text from q end
        → (p ≡ q) × (behind ≡ end) }
{}

/// What is printed is read back: where the canonical text of a template stands in a text, and
/// nothing behind it could go on a term, no other template is read there.
pub fn canonical_text_reads_back()
    ensures { (before behind : List ℕ) (p : Tree) → IsPattern p → EndsTerm behind
        → IsLongestCanonicalAt (before ++ canonical p ++ behind) (length before) p
        (length before + length (canonical p)) }
{}

/// What is printed is read back as a term: the canonical text of a template with at most 200
/// brackets open, in which no name holds a byte below 32 but line feeds and tabs.
pub fn printed_term_is_read_back()
    ensures { (t : Tree) → IsReadable t
        → ReadsAs false (length (canonical t)) (canonical t) (Found t (length (canonical t))) }
{}

/// So it is as a clause, with an end token behind it.
pub fn printed_clause_is_read_back()
    ensures { (before after : List ℕ) (t : Tree) → IsReadable t → IsBehindEnd after
        → ReadsAs true (length (before ++ canonical t ++ codes "." ++ after))
        (drop (length before) (before ++ canonical t ++ codes "." ++ after))
        (Found t (length before + length (canonical t) + 1)) }
{}

/// A plain name, a question mark between blanks, and such a text are read back as what is asked of
/// the name.
pub fn printed_request_is_read_back()
    ensures { (name : List ℕ) (t : Tree) → IsTrue (is_name name) → IsReadable t
        → Fits (asked_of name t)
        → ReadsAs false (length (asked_text name t)) (asked_text name t)
        (Found (asked_of name t) (length (asked_text name t))) }
{}
