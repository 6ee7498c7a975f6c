// The words of a line, and what a word is by its letters.
ghost use Rattle.std.specs.Prelude.{length};
ghost use Rattle.std.specs.Iterator.{at_most};

// A text ends behind its second quotation mark, any other word before the next space; a space is a word.
#[derive(Drop)]
pub(crate) struct Words<'a>(pub(crate) &'a [u8]);

impl<'a> Iterator for Words<'a> {
    type Item = &'a [u8];

    ghost remaining = { λ s. at_most (length s.0.now) };

    fn next(&mut self) -> Option<&'a [u8]> {
        let (first, rest) = self.0.split_first()?;
        let more = match first {
            b'"' => rest
                .iter()
                .position(|&b| b == b'"')
                .map_or(rest.len(), |i| i + 1),
            b' ' => 0,
            _ => rest.iter().position(|&b| b == b' ').unwrap_or(rest.len()),
        };
        let (word, others) = self.0.split_at(1 + more);
        self.0 = others;
        Some(word)
    }
}

// What stands before the first b, and what behind it.
pub(crate) fn split_once(s: &[u8], b: u8) -> Option<(&[u8], &[u8])> {
    let at = s.iter().position(|&c| c == b)?;
    Some((&s[..at], &s[at + 1..]))
}

// The letters by which a word is told: of its last eight bytes, those from the first that is not 0 on. A word was once its last eight
// bytes as one number, and what counts as a word stays.
pub(crate) fn letters(word: &[u8]) -> &[u8] {
    let tail = &word[word.len().saturating_sub(8)..];
    let zeros = tail.iter().take_while(|&&b| b == 0).count();
    &tail[zeros..]
}

// The number that a word says, below 100,000.
pub(crate) fn number(word: &[u8]) -> Option<usize> {
    if !word.iter().all(|letter| letter.is_ascii_digit()) {
        return None;
    }
    let n = str::from_utf8(word).ok()?.parse::<usize>().ok()?;
    (n < 100000).then_some(n)
}
