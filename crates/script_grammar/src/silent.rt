//! Lines that ask for nothing.
ghost use Rattle.std.specs.Prelude.{◌≡◌};
ghost use Rattle.script_grammar.specs.Silent.{is_remark, is_blank, is_silent};

fn is_remark(line: &[u8]) -> bool
    ensures { result ≡ is_remark line.now }
{
    matches!(line, [b'#', ..])
}

fn is_blank(line: &[u8]) -> bool
    ensures { result ≡ is_blank line.now }
{
    for byte in line {
        if *byte != b' ' {
            return false;
        }
    }
    true
}

/// Whether a line asks for nothing and has no reply: it is empty, holds spaces alone, or begins
/// with `#`.
///
/// `line` is the line without its ending. A `#` after a space makes no remark.
pub fn is_silent(line: &[u8]) -> bool
    ensures { result ≡ is_silent line.now }
{
    is_remark(line) || is_blank(line)
}
