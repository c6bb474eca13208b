//! What the script and the summary come to, as laws of their definitions alone.

ghost use Rattle.std.specs.Prelude.{ℕ};
ghost use Rattle.script_summary.specs.Laws.{HasNineLinesEach, BuildsTell};

/// The script of n directories has 9 n + 4 command lines.
pub fn scripts_have_nine_lines_each()
    ensures { (n : ℕ) → HasNineLinesEach n }
{}

/// Where a line of a report is that of a build, its counts are those that the summary adds up.
pub fn builds_tell_their_counts()
    ensures { BuildsTell }
{}
