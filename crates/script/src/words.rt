// Lines of a script, word by word, as bytes: a script need not be text.

// A line without its comment and its end.
pub fn content(line: &[u8]) -> &[u8] {
    let end = line
        .iter()
        .position(|byte| *byte == b'#' || *byte == b'\n')
        .unwrap_or(line.len());
    &line[..end]
}

fn is_blank(byte: u8) -> bool {
    // A carriage return before the line's end counts as a blank, so that scripts from other editors are read.
    byte == b' ' || byte == b'\t' || byte == b'\r'
}

// The first word and what follows it.
pub fn first_word(text: &[u8]) -> Option<(&[u8], &[u8])> {
    let start = text.iter().position(|byte| !is_blank(*byte))?;
    let from = &text[start..];
    let end = from
        .iter()
        .position(|byte| is_blank(*byte))
        .unwrap_or(from.len());
    Some(from.split_at(end))
}

// Nothing follows.
pub fn end(rest: &[u8]) -> Option<()> {
    first_word(rest).is_none().then_some(())
}

// Two words that nothing follows. A function for each number: an array of references by a size parameter (tried) is not proved.
pub fn two_words(rest: &[u8]) -> Option<(&[u8], &[u8])> {
    let (first, rest) = first_word(rest)?;
    let (second, rest) = first_word(rest)?;
    end(rest)?;
    Some((first, second))
}

// Three words that nothing follows.
pub fn three_words(rest: &[u8]) -> Option<(&[u8], &[u8], &[u8])> {
    let (first, rest) = first_word(rest)?;
    let (second, third) = two_words(rest)?;
    Some((first, second, third))
}
