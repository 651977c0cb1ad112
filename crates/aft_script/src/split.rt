//! Cutting a text into lines, and a line into words.

ghost use Rattle.std.specs.Prelude.{◌≡◌, ◌<◌, ◌≤◌, ◌∷◌, drop, [], IfSome, MatchOption, length, not, position, ◌==◌};
ghost use Rattle.std.specs.Str.{IsAscii};
ghost use Rattle.std.specs.Str.Lines.{lines, strip_carriage_return};
ghost use Rattle.aft_script.specs.Words.{is_gap, words_of};

/// The first line of a text, and what stands behind it: none where the text is empty.
///
/// A line ends before its LF, and a CR in front of that is dropped. The last line may lack the LF, and keeps a CR.
pub(crate) fn split_line(text: &[u8]) -> Option<(&[u8], &[u8])>
    ensures { MatchOption result (lines text.now ≡ []) (λ parts. (lines text.now ≡ parts.0.now ∷ lines parts.1.now) × (length parts.1.now < length text.now)) }
{
    if text.is_empty() {
        return None;
    }
    match line_end(text) {
        Some(end) => Some((without_return(&text[..end]), behind(text, end + 1))),
        None => Some((text, behind(text, text.len()))),
    }
}

/// What stands behind the first bytes of a text.
fn behind(text: &[u8], count: usize) -> &[u8]
    requires { count ≤ length text.now }
    ensures { result.now ≡ drop count text.now }
{
    let (_, rest) = text.split_at(count);
    rest
}

/// Where the first LF stands.
fn line_end(text: &[u8]) -> Option<usize>
    ensures value { result ≡ position (λ b. b == 10) text.now }
    ensures within { IfSome result (λ i. i < length text.now) }
{
    text.iter().position(|b| *b == b'\n')
}

/// A line without a CR at its end.
fn without_return(line: &[u8]) -> &[u8]
    ensures { result.now ≡ strip_carriage_return line.now }
{
    if !line.is_empty() && line[line.len() - 1] == b'\r' {
        &line[..line.len() - 1]
    } else {
        line
    }
}

/// The first word of a text, and what stands behind it: none where the text has no word.
pub(crate) fn split_word(text: &[u8]) -> Option<(&[u8], &[u8])>
    ensures cut { MatchOption result (words_of text.now ≡ []) (λ parts. (words_of text.now ≡ parts.0.now ∷ words_of parts.1.now) × (length parts.1.now < length text.now)) }
    ensures ascii { IfSome result (λ parts. IsAscii text.now → IsAscii parts.0.now × IsAscii parts.1.now) }
{
    let start = word_start(text)?;
    let text = behind(text, start);
    match word_end(text) {
        Some(end) => Some(text.split_at(end)),
        None => Some((text, behind(text, text.len()))),
    }
}

/// Whether a byte stands between words.
fn is_gap(byte: u8) -> bool
    ensures { result ≡ is_gap byte }
{
    byte == b' ' || byte == b'\n'
}

/// Where the first word begins.
fn word_start(text: &[u8]) -> Option<usize>
    ensures value { result ≡ position (λ b. not (is_gap b)) text.now }
    ensures within { IfSome result (λ i. i < length text.now) }
{
    text.iter().position(|b| !is_gap(*b))
}

/// Where the first gap begins.
fn word_end(text: &[u8]) -> Option<usize>
    ensures value { result ≡ position is_gap text.now }
    ensures within { IfSome result (λ i. i < length text.now) }
{
    text.iter().position(|b| is_gap(*b))
}
