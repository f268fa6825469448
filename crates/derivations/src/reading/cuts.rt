// Texts cut in two.
ghost use Rattle.std.specs.Prelude.{◌≡◌, ◌==◌, ◌<◌, ◌∷◌, [], MatchOption, IfNone, IfSome, length, Some, None};
ghost use Rattle.std.specs.List.{position};
ghost use Rattle.derivations.specs.Reading as spec;

// Where the byte stands first.
fn place_of(byte: u8, text: &[u8]) -> Option<usize>
    ensures { result ≡ position (λ b. b == byte) text.now }
{
    text.iter().position(|b| *b == byte)
}

// What stands before the first such byte, and what stands behind it.
pub(crate) fn cut(byte: u8, text: &[u8]) -> Option<(&[u8], &[u8])>
    ensures cases { MatchOption result (spec.cut byte text.now ≡ None) (λ around. spec.cut byte text.now ≡ Some (around.0.now, around.1.now)) }
    ensures last { IfNone result (spec.parts byte text.now ≡ text.now ∷ []) }
    ensures first { IfSome result (λ around. spec.parts byte text.now ≡ around.0.now ∷ spec.parts byte around.1.now) }
    ensures shorter { IfSome result (λ around. length around.1.now < length text.now) }
{
    match place_of(byte, text) {
        Some(at) => Some((&text[..at], &text[at + 1..])),
        None => None,
    }
}

// What stands behind these words, where the text begins with them.
pub(crate) fn behind<'t>(words: &[u8], text: &'t [u8]) -> Option<&'t [u8]>
    ensures { MatchOption result (spec.behind words.now text.now ≡ None) (λ rest. spec.behind words.now text.now ≡ Some rest.now) }
{
    text.strip_prefix(words)
}

// What stands before this byte, where the text ends with it.
pub(crate) fn before(byte: u8, text: &[u8]) -> Option<&[u8]>
    ensures { MatchOption result (spec.before byte text.now ≡ None) (λ rest. spec.before byte text.now ≡ Some rest.now) }
{
    text.strip_suffix(&[byte])
}
