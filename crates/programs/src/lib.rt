// The two programs that read a run file, and what each tells at a step of a run: the lister prints what each group holds, the explainer
// why a run is refused.
#![tactic(auto)]

ghost use Rattle.std.specs.Prelude.{◌+◌, ◌*◌, ◌≤◌, length, is_some, None};
ghost use Rattle.answer.specs.Numbers.{refusal_number};
ghost use Rattle.words.specs.Added.{room};
ghost use Rattle.sections.specs.Sections.{most_groups, pair_at};
ghost use Rattle.telling.specs.Telling.{image_of, longest_text, Tells};
ghost use Rattle.programs.specs.Steps.{start_of, group_of, refused_start_of, read_of};
ghost use Rattle.programs.specs.Steps as programs;

use answer::refusals::{Numbered, Refusal};
use reader::Reader;
use sections::Pair;
use words::Text;

// A program, by its steps: what it tells of a start, and of a group.
pub trait Steps {
    // Which of the two it is.
    ghost program: { programs.Program };

    // The sections are whole: the first pair's number starts the run.
    fn tell_start(&self, text: &mut Text, size: u32, bytes: &[u8]) -> Option<Reader>
        requires { (longest_text ≤ room text.old) × (16 ≤ length bytes.now) }
        ensures { Tells (start_of program size (pair_at bytes.now 0)) text.old text.new result };

    // The group of pair i, counted from 0, with its image, or without where the input was too short for it.
    fn tell_group(
        &self,
        text: &mut Text,
        reader: Reader,
        image: Option<&[u8]>,
        bytes: &[u8],
        i: usize,
    ) -> Option<Reader>
        requires { (longest_text ≤ room text.old) × ((12 + 4 * (i + 1) ≤ length bytes.now) × (i ≤ most_groups)) }
        ensures { Tells (group_of program i reader (is_some image.entry) (image_of image.entry) (pair_at bytes.now i)) text.old text.new result };
}

#[derive(Clone, Copy, Debug, PartialEq, Eq)]
pub struct Lister;

impl Steps for Lister {
    ghost program = { programs.Lister };

    fn tell_start(&self, text: &mut Text, size: u32, bytes: &[u8]) -> Option<Reader> {
        telling::tell_start(text, size, bytes)
    }

    fn tell_group(
        &self,
        text: &mut Text,
        reader: Reader,
        image: Option<&[u8]>,
        bytes: &[u8],
        i: usize,
    ) -> Option<Reader> {
        telling::tell_group(text, reader, image, bytes, i)
    }
}

#[derive(Clone, Copy, Debug, PartialEq, Eq)]
pub struct Explainer;

impl Steps for Explainer {
    ghost program = { programs.Explainer };

    fn tell_start(&self, text: &mut Text, size: u32, bytes: &[u8]) -> Option<Reader> {
        explaining::tell_start(text, size, bytes)
    }

    fn tell_group(
        &self,
        text: &mut Text,
        reader: Reader,
        image: Option<&[u8]>,
        bytes: &[u8],
        i: usize,
    ) -> Option<Reader> {
        explaining::tell_group(text, reader, image, bytes, i)
    }
}

// What a program tells of a start, and of a group.
pub fn tell_start_of<P: Steps>(
    program: &P,
    text: &mut Text,
    size: u32,
    bytes: &[u8],
) -> Option<Reader>
    requires { (longest_text ≤ room text.old) × (16 ≤ length bytes.now) }
    ensures { Tells (start_of P.program size (pair_at bytes.now 0)) text.old text.new result }
{
    program.tell_start(text, size, bytes)
}

pub fn tell_group_of<P: Steps>(
    program: &P,
    text: &mut Text,
    reader: Reader,
    image: Option<&[u8]>,
    bytes: &[u8],
    i: usize,
) -> Option<Reader>
    requires { (longest_text ≤ room text.old) × ((12 + 4 * (i + 1) ≤ length bytes.now) × (i ≤ most_groups)) }
    ensures { Tells (group_of P.program i reader (is_some image.entry) (image_of image.entry) (pair_at bytes.now i)) text.old text.new result }
{
    program.tell_group(text, reader, image, bytes, i)
}

// A program, by what it tells where the two differ. `StepsOf` makes its steps, for a run.
pub trait Program {
    // Which of the two it is.
    ghost program: { programs.Program };

    // A start that is refused.
    fn tell_start_refused(&self, text: &mut Text, refusal: Refusal, first: u32)
        requires { longest_text ≤ room text.old }
        ensures { Tells (refused_start_of program (refusal_number refusal) first) text.old text.new None };

    // The i-th group of the file, whose image is whole.
    fn tell_read(
        &self,
        text: &mut Text,
        i: u32,
        reader: Reader,
        image: &[u8],
        pair: Pair,
    ) -> Option<Reader>
        requires { longest_text ≤ room text.old }
        ensures { Tells (read_of program i reader image.now pair) text.old text.new result };
}

impl Program for Lister {
    ghost program = { programs.Lister };

    fn tell_start_refused(&self, text: &mut Text, refusal: Refusal, _first: u32) {
        lines::add_refusal(text, refusal.number(), 0);
    }

    fn tell_read(
        &self,
        text: &mut Text,
        _i: u32,
        reader: Reader,
        image: &[u8],
        pair: Pair,
    ) -> Option<Reader> {
        telling::tell_read(text, reader, image, pair)
    }
}

impl Program for Explainer {
    ghost program = { programs.Explainer };

    fn tell_start_refused(&self, text: &mut Text, refusal: Refusal, first: u32) {
        explaining::tell_start_refused(text, refusal, first)
    }

    fn tell_read(
        &self,
        text: &mut Text,
        i: u32,
        reader: Reader,
        image: &[u8],
        pair: Pair,
    ) -> Option<Reader> {
        explaining::tell_read(text, i, reader, image, pair)
    }
}

// The sections are whole: the first pair's number starts the run. Nothing is told of a start that is accepted.
pub fn tell_start<P: Program>(
    program: &P,
    text: &mut Text,
    size: u32,
    bytes: &[u8],
) -> Option<Reader>
    requires { (longest_text ≤ room text.old) × (16 ≤ length bytes.now) }
    ensures { Tells (start_of P.program size (pair_at bytes.now 0)) text.old text.new result }
{
    let first = sections::pair_at(bytes, 0);
    match Reader::start(size, first.number) {
        Ok(reader) => Some(reader),
        Err(refusal) => {
            program.tell_start_refused(text, refusal, first.number);
            None
        }
    }
}

// The group of pair i, counted from 0, with its image, or without where the input was too short for it.
pub fn tell_group<P: Program>(
    program: &P,
    text: &mut Text,
    reader: Reader,
    image: Option<&[u8]>,
    bytes: &[u8],
    i: usize,
) -> Option<Reader>
    requires { (longest_text ≤ room text.old) × ((12 + 4 * (i + 1) ≤ length bytes.now) × (i ≤ most_groups)) }
    ensures { Tells (group_of P.program i reader (is_some image.entry) (image_of image.entry) (pair_at bytes.now i)) text.old text.new result }
{
    let Some(image) = image else {
        telling::tell_bad(text);
        return None;
    };
    let pair = sections::pair_at(bytes, i);
    program.tell_read(text, i as u32 + 1, reader, image, pair)
}

// The steps of a program that says only where it differs.
#[derive(Clone, Copy, Debug, PartialEq, Eq)]
pub struct StepsOf<P> {
    pub program: P,
}

impl<P: Program> Steps for StepsOf<P> {
    ghost program = { P.program };

    fn tell_start(&self, text: &mut Text, size: u32, bytes: &[u8]) -> Option<Reader> {
        tell_start(&self.program, text, size, bytes)
    }

    fn tell_group(
        &self,
        text: &mut Text,
        reader: Reader,
        image: Option<&[u8]>,
        bytes: &[u8],
        i: usize,
    ) -> Option<Reader> {
        tell_group(&self.program, text, reader, image, bytes, i)
    }
}

#[cfg(test)]
mod tests;
