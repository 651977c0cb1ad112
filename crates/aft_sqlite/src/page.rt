//! The rows of a scan, as a page.

ghost use Rattle.std.specs.Prelude.{◌≡◌, ◌-◌, ◌<◌, length, slice_get, nat_eq, IfOk, IsTrue};
ghost use Rattle.std.specs.List.{starts_with};
ghost use Rattle.aft_keeper.specs.Contents.{IsPage, name_lt};
ghost use Rattle.aft_sqlite.specs.Past.{is_past};

use aft_id::{Bytes, Text};
use aft_keeper::Pair;
use sqlite::{Error, Row};
use std::alloc::Global;

/// What a scan answers where a row isn't one that it may show.
const BAD_ROW: Error = Error::InvalidQuery;

/// The pairs of the rows up to the first whose name doesn't begin with the prefix. An error where one before it isn't a name
/// and bytes, isn't above `after` and the one before, or is one too many.
pub(crate) fn page_of(
    alloc: Global,
    rows: &[Row],
    prefix: &str,
    after: &str,
    limit: u32,
) -> Result<Vec<Pair>, Error>
    ensures { IfOk result (λ page. IsPage prefix.now after.now limit page.items) }
{
    let mut page: Vec<Pair> = Vec::new(alloc);
    for row in rows {
        let name: String = row.get(0)?;
        let shown = name.as_str();
        if !begins(shown, prefix) {
            break;
        }
        if !may_follow(shown, &page, after, limit) {
            return Err(BAD_ROW);
        }
        let bytes: Vec<u8> = row.get(1)?;
        page.push(Pair {
            name: Text::from_string(name),
            bytes: Bytes::from_vec(bytes),
        })?;
    }
    Ok(page)
}

/// Whether a name begins with a prefix.
fn begins(name: &str, prefix: &str) -> bool
    ensures { result ≡ starts_with nat_eq name.now prefix.now }
{
    name.as_bytes().starts_with(prefix.as_bytes())
}

/// Whether a pair of this name may stand behind these: it is above `after` and the last of them, and there is room for it.
fn may_follow(name: &str, page: &[Pair], after: &str, limit: u32) -> bool
    ensures above { IsTrue result → IsTrue (name_lt after.now name.now) }
    ensures past { IsTrue result → IsTrue (is_past name.now (slice_get page.now (length page.now - 1))) }
    ensures room { IsTrue result → length page.now < limit }
{
    page.len() < limit as usize && is_above(name, after) && is_above_last(name, page)
}

/// Whether a name is above another, byte by byte.
fn is_above(name: &str, other: &str) -> bool
    ensures { result ≡ name_lt other.now name.now }
{
    other < name
}

/// Whether a name is above the last one of a page, if there is one.
fn is_above_last(name: &str, page: &[Pair]) -> bool
    ensures { result ≡ is_past name.now (slice_get page.now (length page.now - 1)) }
{
    match page.last() {
        Some(last) => is_above(name, last.name.as_str()),
        None => true,
    }
}
