// What the explainer tells where a run is refused, added to a text, and how the run goes on after it. Of what is not refused it tells nothing.
// The lines of a run that ends without a refusal are the lister's own (telling).
#![tactic(auto)]

ghost use Rattle.std.specs.Prelude.{◌+◌, ◌*◌, ◌≤◌, length, is_some, None};
ghost use Rattle.answer.specs.Numbers.{refusal_number};
ghost use Rattle.words.specs.Added.{room};
ghost use Rattle.sections.specs.Sections.{most_groups, pair_at};
ghost use Rattle.telling.specs.Telling.{last, image_of, longest_text, Tells};
ghost use Rattle.reason_lines.specs.Lines.{refused_lines};
ghost use Rattle.explaining.specs.Steps.{start_explained, explain_start, explain_read, explain_group};

use answer::refusals::{Numbered, Refusal};
use explain::Explanation;
use group::Group;
use reader::{Read, Reader};
use reason_lines::Explained;
use reasons::Reason;
use sections::Pair;
use words::Text;

// The lister's room for rows: three numbers for each entry of a group of 4,096 bytes that has the most, 1,016; and its bytes.
const ROW_NUMBERS: usize = 3048;

const ROW_BYTES: usize = 12192;

// A start that is refused, and why.
pub fn tell_start_refused(text: &mut Text, refusal: Refusal, first: u32)
    requires { longest_text ≤ room text.old }
    ensures { Tells (last (refused_lines 1 (start_explained (refusal_number refusal) first))) text.old text.new None }
{
    let x = Explained {
        refusal: refusal.number(),
        place: 0,
        offset: 0,
        why: Reason::of(first as u64, 1, Group::LAST_NUMBER as u64),
    };
    reason_lines::add_refused(text, 1, x);
}

// The sections are whole: the first pair's number starts the run.
pub fn tell_start(text: &mut Text, size: u32, bytes: &[u8]) -> Option<Reader>
    requires { (longest_text ≤ room text.old) × (16 ≤ length bytes.now) }
    ensures { Tells (explain_start size (pair_at bytes.now 0)) text.old text.new result }
{
    let first = sections::pair_at(bytes, 0);
    match Reader::start(size, first.number) {
        Ok(state) => Some(state),
        Err(refusal) => {
            tell_start_refused(text, refusal, first.number);
            None
        }
    }
}

// The i-th group of the file is read, and explained where it is refused.
pub fn tell_read(
    text: &mut Text,
    i: u32,
    reader: Reader,
    image: &[u8],
    pair: Pair,
) -> Option<Reader>
    requires { longest_text ≤ room text.old }
    ensures { Tells (explain_read i reader image.now pair.number pair.entries) text.old text.new result }
{
    match reader.judge(image, pair.number, pair.entries, ROW_NUMBERS) {
        Ok(Read::Accepted(next)) => Some(next),
        Ok(Read::Repeated) => Some(reader),
        Err(_) => {
            // What is refused has an explanation, so that the run never stops here without a word.
            let x = Explanation::of(reader, image, pair.number, pair.entries, ROW_BYTES)?;
            let numbers = Explained {
                refusal: x.refusal.number(),
                place: x.place,
                offset: x.offset,
                why: x.why,
            };
            reason_lines::add_refused(text, i, numbers);
            None
        }
    }
}

// The group of pair i, counted from 0, with its image, or without where the input was too short for it.
pub fn tell_group(
    text: &mut Text,
    reader: Reader,
    image: Option<&[u8]>,
    bytes: &[u8],
    i: usize,
) -> Option<Reader>
    requires { (longest_text ≤ room text.old) × ((12 + 4 * (i + 1) ≤ length bytes.now) × (i ≤ most_groups)) }
    ensures { Tells (explain_group (i + 1) reader (is_some image.entry) (image_of image.entry) (pair_at bytes.now i)) text.old text.new result }
{
    let Some(image) = image else {
        telling::tell_bad(text);
        return None;
    };
    let pair = sections::pair_at(bytes, i);
    tell_read(text, i as u32 + 1, reader, image, pair)
}
