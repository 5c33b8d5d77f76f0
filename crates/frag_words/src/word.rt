ghost use Rattle.std.specs.Prelude.{◌≡◌, ◌≤◌, ◌==◌, ◌&&◌, ◌||◌, [], ◌∷◌, length, not, MatchOption};
ghost use Rattle.std.specs.List.{prefix_len};
ghost use Rattle.frag_words.specs.Words.{begins, front_at, is_blank, is_pair, words_in};
ghost use Rattle.frag_words.specs.Fronts.{behind_of, front_of};
ghost use Rattle.pac_base.specs.Names.{is_word_byte};

/// What stands at a byte, and how many bytes behind that one belong to it.
#[derive(Clone, Copy)]
enum Front {
    /// White space, or a comment.
    Gap(usize),
    /// A word.
    Word(usize),
}

/// Space, tab, LF and CR.
fn is_blank(byte: u8) -> bool
    ensures { result ≡ is_blank byte }
{
    byte == b' ' || byte == b'\t' || byte == b'\n' || byte == b'\r'
}

/// A letter, a digit or `_`.
fn is_word_byte(byte: u8) -> bool
    ensures { result ≡ is_word_byte byte }
{
    matches!(byte, b'A'..=b'Z' | b'a'..=b'z' | b'0'..=b'9' | b'_')
}

/// Whether the text begins with the byte.
fn begins(byte: u8, text: &[u8]) -> bool
    ensures { result ≡ begins byte text.now }
{
    match text {
        [first, ..] => *first == byte,
        [] => false,
    }
}

/// Whether two bytes are one word: `::`, `->`, `>>`, `!=`, `==`.
fn is_pair(first: u8, others: &[u8]) -> bool
    ensures { result ≡ is_pair first others.now }
{
    match first {
        b':' => begins(b':', others),
        b'-' => begins(b'>', others),
        b'>' => begins(b'>', others),
        b'!' => begins(b'=', others),
        b'=' => begins(b'=', others),
        _ => false,
    }
}

/// Whether a comment begins.
pub fn is_comment(first: u8, others: &[u8]) -> bool
    ensures { result ≡ (first == 47 && begins 47 others.now) }
{
    first == b'/' && begins(b'/', others)
}

/// Whether a run of word bytes begins.
fn begins_run(first: u8) -> bool
    ensures { result ≡ (is_word_byte first || first == 39) }
{
    is_word_byte(first) || first == b'\''
}

/// How many bytes stand before LF.
fn line_length(text: &[u8]) -> usize
    ensures same { result ≡ prefix_len (λ byte. not (byte == 10)) text.now }
    ensures within { result ≤ length text.now }
{
    text.iter().take_while(|byte| **byte != b'\n').count()
}

/// How many word bytes stand at the front.
fn run_length(text: &[u8]) -> usize
    ensures same { result ≡ prefix_len is_word_byte text.now }
    ensures within { result ≤ length text.now }
{
    text.iter().take_while(|byte| is_word_byte(**byte)).count()
}

fn stands_at(first: u8, others: &[u8]) -> Front
    ensures same { front_of result ≡ front_at first others.now }
    ensures within { behind_of result ≤ length others.now }
{
    if is_blank(first) {
        return Front::Gap(0);
    }
    if is_comment(first, others) {
        return Front::Gap(line_length(others));
    }
    if begins_run(first) {
        return Front::Word(run_length(others));
    }
    if is_pair(first, others) {
        return Front::Word(1);
    }
    Front::Word(0)
}

/// The first word of the text, and what follows it. `None` where there is no word.
pub fn next_word(text: &[u8]) -> Option<(&[u8], &[u8])>
    ensures { MatchOption result (words_in text.now ≡ []) (λ found. words_in text.now ≡ found.0.now ∷ words_in found.1.now) }
{
    let mut rest = text;
    while let Some((first, others)) = rest.split_first() {
        match stands_at(*first, others) {
            Front::Gap(more) => rest = others.split_at(more).1,
            Front::Word(more) => {
                let after = others.split_at(more).1;
                return Some((rest.split_at(rest.len() - after.len()).0, after));
            }
        }
    }
    None
}
