//! The words of a line, which spaces part.
ghost use Rattle.std.specs.Prelude.{◌≡◌, ◌≢◌, ℕ, List, [], ◌∷◌, MatchOption};
ghost use Rattle.std.specs.List.{position};
ghost use Rattle.spv_line.specs.Words.{is_space, is_other, words_in, HasFirstWord, HasOnlyWord};

/// The place of the first byte that isn't a space.
fn first_other(text: &[u8]) -> Option<usize>
    ensures { result ≡ position is_other text.now }
{
    text.iter().position(|b| *b != b' ')
}

/// The place of the first space.
fn first_space(text: &[u8]) -> Option<usize>
    ensures { result ≡ position is_space text.now }
{
    text.iter().position(|b| *b == b' ')
}

/// The first word of a text, and what follows the space after it.
#[tactic(auto, using(crate::proofs::WordsLemmas::words_none, crate::proofs::WordsLemmas::place_within))]
pub fn next_word(text: &[u8]) -> Option<(&[u8], &[u8])>
    ensures { MatchOption result (words_in text.now ≡ []) (λ parts. HasFirstWord text.now parts.0.now parts.1.now) }
{
    let start = first_other(text)?;
    let (_, text) = text.split_at(start);
    match first_space(text) {
        None => Some((text, b"")),
        Some(end) => {
            let (word, rest) = text.split_at(end);
            let (_, rest) = rest.split_at(1);
            Some((word, rest))
        }
    }
}

/// The only word of a text.
#[tactic(auto, using(crate::proofs::WordsLemmas::only_first))]
pub fn only_word(text: &[u8]) -> Option<&[u8]>
    ensures { MatchOption result ((word : List ℕ) → words_in text.now ≢ word ∷ []) (λ word. HasOnlyWord text.now word.now) }
{
    let (word, rest) = next_word(text)?;
    match next_word(rest) {
        None => Some(word),
        Some(_) => None,
    }
}
