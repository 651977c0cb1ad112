//! The words of a text, from the front to the back.

ghost use Rattle.std.specs.Prelude.{◌≡◌, ◌<◌, ◌∷◌, [], IfOk, IfSome, MatchOption, length};
ghost use Rattle.aft_reply.specs.Gives.{Reads};
ghost use Rattle.aft_reply.specs.Reading.{nothing, one_word, take_word, two_words, words_left, words_of};

use crate::fault::ReplyFault;
use aft_model::Reply;

/// The first word of what is left of a text, and what is left behind it: none where nothing is left.
fn next_word(left: Option<&str>) -> Option<(&str, Option<&str>)>
    ensures value { MatchOption result (words_left left.entry ≡ []) (λ it. words_left left.entry ≡ it.0.now ∷ words_left it.1) }
    ensures shorter { IfSome result (λ it. length (words_left it.1) < length (words_left left.entry)) }
{
    match left {
        Some(text) => Some(first_word(text)),
        None => None,
    }
}

/// The first word of a text, and what is left behind it.
pub(crate) fn first_word(text: &str) -> (&str, Option<&str>)
    ensures { words_of text.now ≡ result.0.now ∷ words_left result.1 }
{
    match text.split_once(' ') {
        Some((word, rest)) => (word, Some(rest)),
        None => (text, None),
    }
}

/// A word, and what is left behind it.
pub(crate) fn take_word(left: Option<&str>) -> Result<(&str, Option<&str>), ReplyFault>
    ensures value { Reads (λ it. (it.0.now, words_left it.1)) result (take_word (words_left left.entry)) }
    ensures shorter { IfOk result (λ it. length (words_left it.1) < length (words_left left.entry)) }
{
    next_word(left).ok_or(ReplyFault::BadReply)
}

/// One word alone.
pub(crate) fn one_word(left: Option<&str>) -> Result<&str, ReplyFault>
    ensures { Reads (λ word. word.now) result (one_word (words_left left.entry)) }
{
    let Some((word, left)) = next_word(left) else {
        return Err(ReplyFault::BadReply);
    };
    match next_word(left) {
        None => Ok(word),
        Some(_) => Err(ReplyFault::BadReply),
    }
}

/// Two words alone.
pub(crate) fn two_words(left: Option<&str>) -> Result<(&str, &str), ReplyFault>
    ensures { Reads (λ it. (it.0.now, it.1.now)) result (two_words (words_left left.entry)) }
{
    let Some((first, left)) = next_word(left) else {
        return Err(ReplyFault::BadReply);
    };
    let Some((second, left)) = next_word(left) else {
        return Err(ReplyFault::BadReply);
    };
    match next_word(left) {
        None => Ok((first, second)),
        Some(_) => Err(ReplyFault::BadReply),
    }
}

/// A reply, where no word is left.
pub(crate) fn nothing(reply: Reply, left: Option<&str>) -> Result<Reply, ReplyFault>
    ensures value { result ≡ nothing reply (words_left left.entry) }
    ensures same { IfOk result (λ made. made ≡ reply) }
{
    match next_word(left) {
        None => Ok(reply),
        Some(_) => Err(ReplyFault::BadReply),
    }
}
