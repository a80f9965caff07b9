// What is read from standard input: no byte more than is asked for, and the sections as far as they are in range.
// No contract can say what standard input holds; here is said of it what `sections` says of any bytes. Of a reader whose bytes are known
// it is said besides that what is read whole is what it loses.
ghost use Rattle.std.specs.Prelude.{◌≡◌, ◌≤◌, length, OnOk, IfSome};
ghost use Rattle.std.specs.Io.KnownBytes.{Consumes};
ghost use Rattle.sections.specs.Sections.{InRange, Found};

use sections::Sections;
use std::io;
use std::io::Read;

// The longest sections: 16 bytes, and a pair for each of 1,024 groups.
const SECTIONS_LENGTH: usize = 4112;

// The sections of a run file that are whole and in range: the bytes that were read, L and G.
#[derive(Debug, Drop)]
pub struct WholeSections {
    pub bytes: [u8; SECTIONS_LENGTH],
    pub size: u32,
    pub groups: u32,
    ghost in_range: { InRange size groups },
}

// Fills all of `bytes` from the input, and no more is taken from it. An error where the input ends before, or where a read fails.
pub fn read_whole<R: Read>(stdin: &mut R, bytes: &mut [u8]) -> io::Result<()>
    ensures { OnOk result (Consumes (R.remaining stdin.old) (R.remaining stdin.new) bytes.new) }
{
    stdin.read_exact(bytes)
}

// Reads section after section as far as they are in range, and answers them where all are.
pub fn read_sections<R: Read>(stdin: &mut R) -> Option<WholeSections>
    ensures { IfSome result (λ read. Found read.size read.groups read.bytes) }
{
    let mut bytes = [0u8; SECTIONS_LENGTH];
    let mut have = 0;
    loop {
        match sections::sections_of(&bytes[..have]) {
            Sections::Next(to) => {
                read_whole(stdin, &mut bytes[have..to]).ok()?;
                have = to;
            }
            Sections::Bad => {
                return None;
            }
            Sections::Whole { size, groups } => {
                return Some(WholeSections {
                    bytes,
                    size,
                    groups,
                });
            }
        }
    }
}
