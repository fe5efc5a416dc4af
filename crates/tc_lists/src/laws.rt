//! Laws of reading at the front of bytes, for callers to cite.
ghost use Rattle.std.specs.Prelude.{◌≡◌, ◌++◌, [], All, Bool, IsTrue, List, None, ℕ};
ghost use Rattle.std.specs.List.{flat_map};
ghost use Rattle.tc_lists.specs.AtFront.{Front, IsReadAgain};

/// Things of which the texts are read again have one reading, in a list too: two lists with one
/// text are one, whatever passes for such a thing.
pub fn texts_have_one_reading<T>()
    ensures front { (good : T → Bool) (text : T → List ℕ) (read : List ℕ → Front T)
        → IsReadAgain (λ x. IsTrue (good x)) text read → (x y : T) (rest more : List ℕ)
        → IsTrue (good x) → IsTrue (good y)
        → text x ++ rest ≡ text y ++ more → (x ≡ y) × (rest ≡ more) }
    ensures list { (good : T → Bool) (text : T → List ℕ) (read : List ℕ → Front T)
        → IsReadAgain (λ x. IsTrue (good x)) text read → read [] ≡ None → (xs ys : List T)
        → All (λ x. IsTrue (good x)) xs → All (λ x. IsTrue (good x)) ys
        → flat_map text xs ≡ flat_map text ys → xs ≡ ys }
{}
