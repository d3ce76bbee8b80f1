// The line that starts at a position.
ghost use Rattle.std.specs.Prelude.{◌≡◌};
ghost use Rattle.rules.specs.Bytes.{is_line_end};
ghost use Rattle.scanner.specs.Class.{in_class, no_byte, letter};
ghost use Rattle.scanner.specs.Lines.{line_from};
ghost use Rattle.scanner.specs.Runs.{end_of};

// The line's bytes are start to end; ended tells whether a line end follows, and next is where the next line starts.
#[derive(Clone, Copy)]
pub struct Line {
    pub start: usize,
    pub end: usize,
    pub next: usize,
    pub ended: bool,
}

// Most bytes are above both line ends: one test tells.
fn ends_line(b: u8) -> bool
    ensures { result ≡ is_line_end b }
{
    if b'\r' < b {
        return false;
    }
    if b == b'\n' {
        return true;
    }
    b == b'\r'
}

// The first line end at or after `at`, or the end.
fn line_end(s: &[u8], at: usize) -> usize
    ensures { result ≡ end_of (in_class no_byte letter) s.now at }
{
    for i in at..s.len() {
        if ends_line(s[i]) {
            return i;
        }
    }
    at.max(s.len())
}

pub fn line_from(s: &[u8], at: usize) -> Line
    ensures { result ≡ line_from s.now at }
{
    let end = line_end(s, at);
    if end < s.len() {
        return Line {
            start: at,
            end,
            next: end + 1,
            ended: true,
        };
    }
    Line {
        start: at,
        end,
        next: end,
        ended: false,
    }
}
