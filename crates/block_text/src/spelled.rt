//! Values as texts.

ghost use Rattle.std.specs.Prelude.{◌≡◌, ℕ, List, ◌++◌, ◌∷◌, IfSome, Some, true};
ghost use Rattle.block_text.specs.Lines.{lacks};

use crate::cuts::cut;

/// A value that a text may spell, in one way; `fits` says which values have a text, and `spelling` which text it is.
pub trait Spelled: Copy {
    ghost fits: { Self → Type 0 };

    ghost spelling: { Self → List ℕ };

    /// Reads the value that the text spells.
    fn read(text: &[u8]) -> Option<Self>
        ensures found { IfSome result (λ x. fits x × (text.now ≡ spelling x)) }
        ensures only { (x : Self) → fits x → text.now ≡ spelling x → result ≡ Some x };
}

/// Reads two values with a comma between them.
pub fn two<A: Spelled, B: Spelled>(text: &[u8]) -> Option<(A, B)>
    ensures found { IfSome result (λ r. A.fits r.0 × B.fits r.1 × (text.now ≡ A.spelling r.0 ++ 44 ∷ B.spelling r.1)) }
    ensures only { (a : A) (b : B) → lacks 44 (A.spelling a) ≡ true → A.fits a → B.fits b → text.now ≡ A.spelling a ++ 44 ∷ B.spelling b
        → result ≡ Some (a, b) }
{
    let halves = cut(text, b',')?;
    let first = A::read(halves.before)?;
    let second = B::read(halves.after)?;
    Some((first, second))
}

/// Reads three values with commas between them.
pub fn three<A: Spelled, B: Spelled, C: Spelled>(text: &[u8]) -> Option<(A, B, C)>
    ensures found { IfSome result (λ r. A.fits r.0 × B.fits r.1 × C.fits r.2
        × (text.now ≡ A.spelling r.0 ++ 44 ∷ (B.spelling r.1 ++ 44 ∷ C.spelling r.2))) }
    ensures only { (a : A) (b : B) (c : C) → lacks 44 (A.spelling a) ≡ true → lacks 44 (B.spelling b) ≡ true
        → A.fits a → B.fits b → C.fits c → text.now ≡ A.spelling a ++ 44 ∷ (B.spelling b ++ 44 ∷ C.spelling c)
        → result ≡ Some (a, b, c) }
{
    let halves = cut(text, b',')?;
    let first = A::read(halves.before)?;
    let (second, third) = two::<B, C>(halves.after)?;
    Some((first, second, third))
}
