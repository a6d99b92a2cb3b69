// A word and numbers, with single spaces between them.
ghost use Rattle.std.specs.Prelude.{◌+◌, ◌*◌, ◌≤◌, length};
ghost use Rattle.line.specs.law.Line.{spaced, sentence_of, line_bytes};
ghost use Rattle.line.specs.inside.Put.{Put};

use super::decimal::number;
use super::text::copy;

// Each number of the list from `start` on, with a space in front of it.
fn values(list: &[i64], line: &mut [u8], start: usize) -> usize
    requires { start + 21 * length list.now ≤ length line.old }
    ensures put { Put line.old line.new start (spaced list.now) result }
    ensures upper_bound { result ≤ start + 21 * length list.now }
{
    let mut at = start;
    for &x in list {
        line[at] = b' ';
        at = number(x, line, at + 1);
    }
    at
}

pub(crate) fn sentence(word: &[u8], list: &[i64], line: &mut [u8]) -> usize
    requires { (length word.now ≤ 8) × (length list.now ≤ 6) × (line_bytes ≤ length line.old) }
    ensures { Put line.old line.new 0 (sentence_of word.now list.now) result }
{
    let start = copy(word, line);
    let end = values(list, line, start);
    line[end] = b'\n';
    end + 1
}
