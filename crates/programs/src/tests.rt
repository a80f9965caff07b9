// What a program tells that says only where it differs, by its parts and by its steps: document 01, "Case A", and the refusals, the short
// image and the lines of a reason that stand in documents 01 and 02. The lines are worked out from there.
use super::*;
use std::process::Abort;

const TEXT_LENGTH: usize = 32768;

// Case A: the sections, and the image of its only group.
const SECTIONS: [u8; 20] = [0, 0, 0, 1, 0, 0, 0, 64, 0, 0, 0, 1, 0, 1, 0, 3, 0, 0, 0, 64];

fn image() -> [u8; 64] {
    let mut image = [0u8; 64];
    image[..20].fill(0x41);
    image[20..32].copy_from_slice(&[0x80, 0, 0, 0x2C, 0x07, 0, 0, 0, 0x63, 0, 0, 0x14]);
    image
}

// A start by the parts of a program, and by its steps.
fn start_tells<P: Program + Copy>(
    rt: &impl Abort,
    program: P,
    bytes: &[u8; 20],
    words: &[u8],
) -> Option<Reader> {
    let mut memory = [0u8; TEXT_LENGTH];
    let mut text = Text::new(&mut memory);
    let then = tell_start(&program, &mut text, 64, bytes);
    assert_eq!(rt; text.as_bytes(), words);
    let mut memory = [0u8; TEXT_LENGTH];
    let mut text = Text::new(&mut memory);
    let stepped = tell_start_of(&StepsOf { program }, &mut text, 64, bytes);
    assert_eq!(rt; text.as_bytes(), words);
    assert_eq!(rt; stepped, then);
    then
}

// So a group.
fn group_tells<P: Program + Copy>(
    rt: &impl Abort,
    program: P,
    reader: Reader,
    image: Option<&[u8]>,
    bytes: &[u8; 20],
    words: &[u8],
) -> Option<Reader> {
    let mut memory = [0u8; TEXT_LENGTH];
    let mut text = Text::new(&mut memory);
    let then = tell_group(&program, &mut text, reader, image, bytes, 0);
    assert_eq!(rt; text.as_bytes(), words);
    let mut memory = [0u8; TEXT_LENGTH];
    let mut text = Text::new(&mut memory);
    let stepped = tell_group_of(&StepsOf { program }, &mut text, reader, image, bytes, 0);
    assert_eq!(rt; text.as_bytes(), words);
    assert_eq!(rt; stepped, then);
    then
}

// The run of case A as it starts: nothing is told of it.
fn begun(rt: &impl Abort) -> Reader {
    let started = start_tells(rt, Lister, &SECTIONS, b"");
    started.expect(rt, "the run of case A starts")
}

// The parts by themselves: a start that is refused, and a group whose image is whole.
fn parts_tell<P: Program>(
    rt: &impl Abort,
    program: &P,
    reader: Reader,
    refused: &[u8],
    read: &[u8],
) {
    let mut memory = [0u8; TEXT_LENGTH];
    let mut text = Text::new(&mut memory);
    program.tell_start_refused(&mut text, Refusal::First, 0);
    assert_eq!(rt; text.as_bytes(), refused);
    let mut memory = [0u8; TEXT_LENGTH];
    let mut text = Text::new(&mut memory);
    let pair = Pair {
        number: 1,
        entries: 3,
    };
    let then = program.tell_read(&mut text, 1, reader, &image(), pair);
    assert_eq!(rt; text.as_bytes(), read);
    assert!(rt; then.is_some());
}

// "The first pair's number starts the run", 1 in case A: the lister tells its group, and the explainer nothing.
#[test]
fn tells_case_a(rt: HostRuntime) {
    let image = image();
    let listed = b"group 1 entries 3\nentire 0 20\nseparator 20 0\nskip 20 44\n";
    let reader = begun(&rt);
    let then = group_tells(&rt, Lister, reader, Some(&image), &SECTIONS, listed);
    assert!(rt; then.is_some());
    let then = group_tells(&rt, Explainer, reader, Some(&image), &SECTIONS, b"");
    assert!(rt; then.is_some());
    let explained = start_tells(&rt, Explainer, &SECTIONS, b"");
    assert_eq!(rt; explained, Some(reader));
}

// "A refusal prints `refused R at K` and stops"; the explainer gives its reason, and counts groups from 1.
#[test]
fn tells_refusals(rt: HostRuntime) {
    let mut none = SECTIONS;
    none[13] = 0;
    let then = start_tells(&rt, Lister, &none, b"refused 3 at 0\n");
    assert!(rt; then.is_none());
    let why =
        b"refused 3 at 0\ngroup 1: the first number is out of range\nfound 0, allowed 1 to 65535\n";
    let then = start_tells(&rt, Explainer, &none, why);
    assert!(rt; then.is_none());
    let reader = begun(&rt);
    let mut another = SECTIONS;
    another[13] = 2;
    let image = image();
    let refused = b"refused 5 at 0\n";
    let then = group_tells(&rt, Lister, reader, Some(&image), &another, refused);
    assert!(rt; then.is_none());
    let why = b"refused 5 at 0\ngroup 1: the number is not the next\nfound 2, allowed 1 to 1\n";
    let then = group_tells(&rt, Explainer, reader, Some(&image), &another, why);
    assert!(rt; then.is_none());
}

// "short input .. print `bad run file` at that moment and stop"
#[test]
fn tells_a_short_image(rt: HostRuntime) {
    let reader = begun(&rt);
    let then = group_tells(&rt, Lister, reader, None, &SECTIONS, b"bad run file\n");
    assert!(rt; then.is_none());
    let then = group_tells(&rt, Explainer, reader, None, &SECTIONS, b"bad run file\n");
    assert!(rt; then.is_none());
}

#[test]
fn tells_the_parts(rt: HostRuntime) {
    let reader = begun(&rt);
    let listed = b"group 1 entries 3\nentire 0 20\nseparator 20 0\nskip 20 44\n";
    parts_tell(&rt, &Lister, reader, b"refused 3 at 0\n", listed);
    let why =
        b"refused 3 at 0\ngroup 1: the first number is out of range\nfound 0, allowed 1 to 65535\n";
    parts_tell(&rt, &Explainer, reader, why, b"");
}
