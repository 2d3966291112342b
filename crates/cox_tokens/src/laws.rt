//! What the lines of a text are. These laws determine them: a text is empty, or it begins with a
//! line that ends by LF, or it is one last line.

ghost use Rattle.std.specs.Prelude.{◌≡◌, ◌<◌, [], ◌∷◌, ◌++◌, length};
ghost use Rattle.cox_tokens.specs.Line.{line_feed, lines_of, ended_lines};
ghost use Rattle.cox_tokens.specs.Unbroken.{IsUnbroken};

/// No bytes have no line.
pub fn no_lines()
    ensures all { lines_of [] ≡ [] }
    ensures ended { ended_lines [] ≡ [] }
{}

/// A line that ends by LF is the first, and the lines of the rest follow.
pub fn line_by_lf(line: &[u8], rest: &[u8])
    requires { IsUnbroken line.now }
    ensures all { lines_of (line.now ++ line_feed ∷ rest.now) ≡ line.now ∷ lines_of rest.now }
    ensures ended { ended_lines (line.now ++ line_feed ∷ rest.now) ≡ line.now ∷ ended_lines rest.now }
{}

/// A last line, which is not empty and has no LF, is a line, but none that ends by LF.
pub fn last_line(line: &[u8])
    requires some { 0 < length line.now }
    requires unbroken { IsUnbroken line.now }
    ensures all { lines_of line.now ≡ line.now ∷ [] }
    ensures ended { ended_lines line.now ≡ [] }
{}
