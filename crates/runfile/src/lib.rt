// A run file read from standard input, step by step: what each step needs is read, what the program tells of it is written, until one stops
// the run. After a refusal no more is read. After the last image one byte is asked for, which must not be there. Both programs are this,
// and differ in what they tell. `main` hands in the two streams. A read that fails is taken as the end of the input; a write that fails
// stops the run.
#![tactic(auto)]

pub mod input;
pub mod output;

ghost use Rattle.std.specs.Prelude.{◌<◌};
ghost use Rattle.sections.specs.Sections.{pair_at};
ghost use Rattle.runfile.specs.Follows.{Follows};

use input::WholeSections;
use output::TEXT_LENGTH;
use programs::Steps;
use reader::Reader;
use std::io::{Read, Write};
use words::Text;

// A program, with what it reads from and writes to.
#[derive(Drop)]
pub struct Run<P, R, W> {
    pub program: P,
    pub stdin: R,
    pub stdout: W,
}

impl<P: Steps, R: Read, W: Write> Run<P, R, W> {
    // One group: its image is read, and what is told of it is written. Where that fails the run stops, so that a listing may be cut
    // off and never has a hole.
    fn group(&mut self, reader: Reader, sections: &WholeSections, i: usize) -> Option<Reader>
        requires { i < sections.now.groups }
        ensures { Follows P.program i reader sections.now.size (pair_at sections.now.bytes i) result }
    {
        let size = sections.size as usize;
        let mut buffer = io::buffer();
        let image = match input::read_whole(&mut self.stdin, &mut buffer[..size]) {
            Ok(()) => Some(&buffer[..size]),
            Err(_) => None,
        };
        let mut bytes = [0u8; TEXT_LENGTH];
        let mut text = Text::new(&mut bytes);
        let then = programs::tell_group_of(
            &self.program,
            &mut text,
            reader,
            image,
            &sections.bytes,
            i,
        );
        output::say(&mut self.stdout, text.as_bytes()).ok()?;
        then
    }

    // After the last group: extra bytes, or the end.
    fn end(&mut self, reader: Reader) {
        let mut more = [0u8; 1];
        let extra = input::read_whole(&mut self.stdin, &mut more).is_ok();
        let mut bytes = [0u8; TEXT_LENGTH];
        let mut text = Text::new(&mut bytes);
        telling::tell_end(&mut text, reader, extra);
        output::say(&mut self.stdout, text.as_bytes()).ok();
    }

    // The groups one by one, until one stops the run.
    fn groups(&mut self, reader: Reader, sections: &WholeSections) -> Option<Reader> {
        let mut state = reader;
        for i in 0..sections.groups as usize {
            state = self.group(state, sections, i)?;
        }
        Some(state)
    }

    // The run after its sections.
    fn images(&mut self, sections: &WholeSections) {
        let mut bytes = [0u8; TEXT_LENGTH];
        let mut text = Text::new(&mut bytes);
        let started = programs::tell_start_of(
            &self.program,
            &mut text,
            sections.size,
            &sections.bytes,
        );
        output::say(&mut self.stdout, text.as_bytes()).ok();
        let Some(first) = started else {
            return;
        };
        if let Some(last) = self.groups(first, sections) {
            self.end(last);
        }
    }

    // The sections are not what document 01 asks for.
    fn bad(&mut self) {
        let mut bytes = [0u8; TEXT_LENGTH];
        let mut text = Text::new(&mut bytes);
        telling::tell_bad(&mut text);
        output::say(&mut self.stdout, text.as_bytes()).ok();
    }

    // The whole run.
    pub fn go(&mut self) {
        match input::read_sections(&mut self.stdin) {
            Some(sections) => self.images(&sections),
            None => self.bad(),
        }
    }
}

#[cfg(test)]
mod tests;
