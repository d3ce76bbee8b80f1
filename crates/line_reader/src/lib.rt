// The line reader: it holds the caller's bytes by reference, with the place reached. The splitter `line_from` does the work.
#![tactic(auto)]

ghost use Rattle.std.specs.Prelude.{◌≡◌};
ghost use Rattle.scanner.specs.Lines.{line_from};
ghost use Rattle.line_reader.specs.Reader.{opened, moved_to, line_read};

use scanner::lines::{Line, line_from};

#[derive(Clone, Copy)]
pub struct LineReader<'a> {
    pub file: &'a [u8],
    pub at: usize,
}

pub fn open<'a>(file: &'a [u8]) -> LineReader<'a>
    ensures { result ≡ opened file.entry }
{
    LineReader { file, at: 0 }
}

pub fn moved<'a>(r: LineReader<'a>, at: usize) -> LineReader<'a>
    ensures { result ≡ moved_to r.entry at }
{
    LineReader { file: r.file, at }
}

// The line at the place reached. The reader stays where it is.
pub fn next_line<'a>(r: LineReader<'a>) -> Line
    ensures { result ≡ line_read r.entry }
{
    line_from(r.file, r.at)
}

// The line at a place, for a caller that has no reader.
pub fn line_at(file: &[u8], at: usize) -> Line
    ensures { result ≡ line_from file.now at }
{
    next_line(moved(open(file), at))
}
