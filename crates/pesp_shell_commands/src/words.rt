//! The words of a line.

ghost use Rattle.std.specs.Prelude.{◌≡◌, ℕ, ◌≤◌, List, [], ◌∷◌, take, MatchOption};
ghost use Rattle.std.specs.List.{position_or_len};
ghost use Rattle.pesp_shell_commands.specs.declared.words.TheConstants.{MOST_WORDS};
ghost use Rattle.pesp_shell_commands.specs.Words as bytes;
ghost use Rattle.pesp_shell_commands.specs.Words.{words_of, IsAtWord, texts};

use std::marker::Model;

/// The number of words taken from a line: one more than a command can have, so that a longer line
/// is recognized.
pub(crate) const MOST_WORDS: usize = 9;

/// Whether the byte separates words.
fn is_space(byte: u8) -> bool
    ensures { result ≡ bytes.is_space byte }
{
    byte == b' ' || byte == b'\t' || byte == b'\r'
}

/// The text from its first word on.
fn skip_spaces(text: &[u8]) -> &[u8]
    ensures words { words_of result.now ≡ words_of text.now }
    ensures word { IsAtWord result.now }
{
    let mut rest = text;
    while let [first, after @ ..] = rest
        && is_space(*first)
    {
        rest = after;
    }
    rest
}

/// The number of bytes before the first space.
fn length_of_word(text: &[u8]) -> usize
    ensures { result ≡ position_or_len bytes.is_space text.now }
{
    match text.iter().position(|byte| is_space(*byte)) {
        Some(place) => place,
        None => text.len(),
    }
}

/// The first word of a text, and what follows it.
fn first_word(text: &[u8]) -> Option<(&[u8], &[u8])>
    ensures { MatchOption result (words_of text.now ≡ [])
        (λ p. words_of text.now ≡ p.0.now ∷ words_of p.1.now) }
{
    let text = skip_spaces(text);
    if text.is_empty() {
        return None;
    }
    Some(text.split_at(length_of_word(text)))
}

/// The first words of a line, [`MOST_WORDS`] of them at most.
#[derive(Drop)]
pub(crate) struct Words<'a> {
    // The first `count` are words of the line, the others empty. An array needs no memory.
    words: [&'a [u8]; MOST_WORDS],
    // At most MOST_WORDS. If it is equal, more words may follow.
    count: usize,
}

impl<'a> Model for Words<'a> {
    ghost Value = { List (List ℕ) };

    ghost view = { λ a. texts (take a.count a.words) };

    ghost invariant = { λ a. a.count ≤ MOST_WORDS };
}

impl<'a> Words<'a> {
    pub(crate) fn new(line: &'a [u8]) -> Words<'a>
        ensures { result ≡ take MOST_WORDS (words_of line.now) }
    {
        let mut words: [&[u8]; MOST_WORDS] = [&[]; MOST_WORDS];
        let mut count = 0;
        let mut rest = line;
        while count < MOST_WORDS
            && let Some((word, after)) = first_word(rest)
        {
            words[count] = word;
            count += 1;
            rest = after;
        }
        Words { words, count }
    }

    pub(crate) fn as_slice(&self) -> &[&'a [u8]]
        ensures { texts result.now ≡ self.now }
    {
        &self.words[..self.count]
    }
}
