// The lines of a table, read and written by place.
ghost use Rattle.std.specs.Prelude.{◌≡◌, ◌<◌, ◌≤◌, ◌++◌, drop, length, replicate, Some};
ghost use Rattle.std.specs.List.{slice_get};

// The line at a place.
pub fn line_at<L: Copy>(lines: &[L], i: usize) -> L
    requires { i < length lines.now }
    ensures { slice_get lines.now i ≡ Some result }
{
    lines[i]
}

// Writes so many lines from the first on. Those behind them stay.
pub fn fill_front<L: Copy>(lines: &mut [L], count: usize, line: L)
    requires { count ≤ length lines.old }
    ensures { lines.new ≡ replicate count line ++ drop count lines.old }
{
    // The library's fill asks for clones that cannot fail, which no bound here promises.
    for slot in lines[..count].iter_mut() {
        *slot = line;
    }
}
