// What the lister tells at each step of a run, added to a text, and how the run goes on after it: with a state, or not at all.
#![tactic(auto)]

ghost use Rattle.std.specs.Prelude.{◌+◌, ◌*◌, ◌≤◌, length, is_some, None};
ghost use Rattle.words.specs.Added.{room};
ghost use Rattle.sections.specs.Sections.{pair_at};
ghost use Rattle.telling.specs.Telling.{bad_step, start_step, read_step, group_step, image_of, end_step, longest_text, Tells};

use answer::Refused;
use answer::refusals::Numbered;
use reader::{Read, Reader};
use sections::Pair;
use words::Text;

// Three numbers for each entry of a group of 4,096 bytes that has the most, 1,016.
const ROW_NUMBERS: usize = 3048;

// A run that is not what document 01 asks for.
#[tactic(auto, unfolding(crate::specs::Telling::bad_step))]
pub fn tell_bad(text: &mut Text)
    requires { longest_text ≤ room text.old }
    ensures { Tells bad_step text.old text.new None }
{
    lines::add_bad(text);
}

// The sections are whole: the first pair's number starts the run. Nothing is told of a start that is accepted.
pub fn tell_start(text: &mut Text, size: u32, bytes: &[u8]) -> Option<Reader>
    requires { (longest_text ≤ room text.old) × (16 ≤ length bytes.now) }
    ensures { Tells (start_step size (pair_at bytes.now 0)) text.old text.new result }
{
    let first = sections::pair_at(bytes, 0);
    match Reader::start(size, first.number) {
        Ok(state) => Some(state),
        Err(refusal) => {
            lines::add_refusal(text, refusal.number(), 0);
            None
        }
    }
}

// A group is read: its lines, or that it is a repeat, or its refusal.
pub fn tell_read(text: &mut Text, reader: Reader, image: &[u8], pair: Pair) -> Option<Reader>
    requires { longest_text ≤ room text.old }
    ensures { Tells (read_step reader image.now pair.number pair.entries) text.old text.new result }
{
    let mut rows = [0u32; ROW_NUMBERS];
    match reader.read(image, pair.number, pair.entries, &mut rows) {
        Ok(Read::Accepted(next)) => {
            lines::add_group(text, pair.number, pair.entries, &rows);
            Some(next)
        }
        Ok(Read::Repeated) => {
            lines::add_repeat(text, pair.number);
            Some(reader)
        }
        Err(Refused { refusal, place }) => {
            lines::add_refusal(text, refusal.number(), place);
            None
        }
    }
}

// The group of pair i, counted from 0, with its image, or without where the input was too short for it.
pub fn tell_group(
    text: &mut Text,
    reader: Reader,
    image: Option<&[u8]>,
    bytes: &[u8],
    i: usize,
) -> Option<Reader>
    requires { (longest_text ≤ room text.old) × (12 + 4 * (i + 1) ≤ length bytes.now) }
    ensures { Tells (group_step reader (is_some image.entry) (image_of image.entry) (pair_at bytes.now i)) text.old text.new result }
{
    let Some(image) = image else {
        tell_bad(text);
        return None;
    };
    let pair = sections::pair_at(bytes, i);
    tell_read(text, reader, image, pair)
}

// After the last group, where the input has a byte more or not.
#[tactic(auto, unfolding(crate::specs::Telling::end_step))]
pub fn tell_end(text: &mut Text, reader: Reader, extra: bool)
    requires { longest_text ≤ room text.old }
    ensures { Tells (end_step reader extra) text.old text.new None }
{
    if extra {
        tell_bad(text);
    } else {
        lines::add_end(text, reader.phase, reader.sum);
    }
}
