//! Where a client's next line stands.

ghost use Rattle.std.specs.Prelude.{◌≡◌, ◌≢◌, ◌≤◌, ◌<◌, ℕ, Some, length, slice_get};
ghost use Rattle.aft_model.specs.declared.script.Line.{Line};

use aft_model::Line;

/// The index of a client's first line from here on, or the number of lines where it has none.
pub(crate) fn next_line(lines: &[Line], from: usize, client: u32) -> usize
    requires { from ≤ length lines.now }
    ensures from { from ≤ result }
    ensures within { result ≤ length lines.now }
    ensures before { (i : ℕ) (line : Line) → slice_get lines.now i ≡ Some line → from ≤ i → i < result → line.client ≢ client }
    ensures its { (line : Line) → slice_get lines.now result ≡ Some line → line.client ≡ client }
{
    let mut at = from;
    while at < lines.len() && lines[at].client != client {
        at += 1;
    }
    at
}
