// A text at the front of the line.
ghost use Rattle.std.specs.Prelude.{◌≤◌, length};
ghost use Rattle.line.specs.inside.Put.{Put};

// The answer is the count of its bytes. The library's copy, with the place after it: words, spaces and lines are put so.
pub(crate) fn copy(text: &[u8], line: &mut [u8]) -> usize
    requires { length text.now ≤ length line.old }
    ensures { Put line.old line.new 0 text.now result }
{
    line[..text.len()].copy_from_slice(text);
    text.len()
}
