//! Texts cut at a byte, and into lines.
ghost use Rattle.std.specs.Prelude.{◌≡◌, ℕ, List, ◌++◌, ◌∷◌, ◌==◌, ◌<◌, true, position, IfSome, IfNone, IsSomeAnd, length};
ghost use Rattle.block_text.specs.Lines.{lacks, lines_of};

/// What stands before and after a byte.
#[derive(Clone, Copy)]
pub struct Halves<'a> {
    pub before: &'a [u8],
    pub after: &'a [u8],
}

fn position_of(text: &[u8], mark: u8) -> Option<usize>
    ensures { result ≡ position (λ b. b == mark) text.now }
{
    text.iter().position(|b| *b == mark)
}

/// Returns the text before and after the first place of the byte.
pub fn cut(text: &[u8], mark: u8) -> Option<Halves<'_>>
    ensures found { IfSome result (λ h. text.now ≡ h.before.now ++ mark ∷ h.after.now) }
    ensures only { (a b : List ℕ) → lacks mark a ≡ true → text.now ≡ a ++ mark ∷ b
        → IsSomeAnd result (λ h. (h.before.now ≡ a) × (h.after.now ≡ b)) }
    ensures first { IfSome result (λ h. lacks mark h.before.now ≡ true) }
    ensures none { IfNone result (lacks mark text.now ≡ true) }
{
    let at = position_of(text, mark)?;
    Some(Halves {
        before: &text[..at],
        after: &text[at + 1..],
    })
}

/// Returns the first line of a text that isn't empty, and what follows it.
pub fn first_line(text: &[u8]) -> Halves<'_>
    requires { 0 < length text.now }
    ensures line { lines_of text.now ≡ result.before.now ∷ lines_of result.after.now }
    ensures less { length result.after.now < length text.now }
{
    match cut(text, b'\n') {
        Some(halves) => halves,
        None => Halves {
            before: text,
            after: &[],
        },
    }
}
