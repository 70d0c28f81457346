ghost use Rattle.std.specs.Prelude.{◌≡◌, ◌+◌, ◌<◌, ◌≤◌, ◌∷◌, ◌++◌, length, take, drop, slice_index_or};
ghost use Rattle.std.specs.List.{remove};
ghost use Rattle.ordered_list.specs.Order.{position_of, placed};

use crate::Ranked;
use crate::position::position_of;

/// Puts a line among the first `len` lines, behind all that do not rank after it, and answers its position.
pub(crate) fn insert_into<T: Ranked + Copy>(lines: &mut [T], len: usize, line: T) -> usize
    requires { len < length lines.old }
    ensures answer { result ≡ position_of T.Ranked.after line (take len lines.old) }
    ensures after { lines.new ≡ placed T.Ranked.after line (take len lines.old) ++ drop (len + 1) lines.old }
{
    let at = position_of(&lines[..len], &line);
    lines[at..=len].rotate_right(1);
    lines[at] = line;
    at
}

/// Takes a line out of the first `len` lines and closes the gap. The line comes to stand behind the rest of them.
pub(crate) fn remove_from<T: Copy>(lines: &mut [T], len: usize, at: usize) -> T
    requires within { len ≤ length lines.old }
    requires there { at < len }
    ensures answer { result ≡ slice_index_or lines.old at result }
    ensures after { lines.new ≡ remove (take len lines.old) at ++ (result ∷ drop len lines.old) }
{
    let line = lines[at];
    lines[at..len].rotate_left(1);
    line
}

/// The first `len` lines, or all where there are fewer.
pub(crate) fn first<T>(lines: &[T], len: usize) -> &[T]
    ensures { result.now ≡ take len lines.now }
{
    lines.get(..len).unwrap_or(lines)
}
