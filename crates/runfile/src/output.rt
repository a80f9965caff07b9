// What is written to standard output: each step's text in one write. What it is, is proved in `telling` and `explaining`. No contract can
// say what reaches standard output; of a writer whose bytes are known it is said that it gains the text.
ghost use Rattle.std.specs.Prelude.{OnOk};
ghost use Rattle.std.specs.Io.KnownBytes.{Appends};

use std::io;
use std::io::Write;

// Room for a step's text. The longest is that of a group of 4,096 bytes with the most entries, 1,016: 36 bytes at most for its
// own line, 32 at most for each row's.
pub const TEXT_LENGTH: usize = 32768;

// All of the text. An error where not all of it could be written.
pub fn say<W: Write>(stdout: &mut W, text: &[u8]) -> io::Result<()>
    ensures { OnOk result (Appends (W.contents stdout.old) (W.contents stdout.new) text.now) }
{
    stdout.write_all(text)
}
