// A whole run from memory, of a program by its own steps and by those of `StepsOf`: document 01, "Case A", what the explainer prints of it,
// and a run file that is cut short. The lines are worked out from there.
use super::*;
use programs::{Explainer, Lister, StepsOf};
use std::process::Abort;

// "00 00 00 01, 00 00 00 40, 00 00 00 01, 00 01 00 03, 00 00 00 40 and that image"
fn case_a() -> [u8; 84] {
    let mut input = [0u8; 84];
    input[..20].copy_from_slice(&[0, 0, 0, 1, 0, 0, 0, 64, 0, 0, 0, 1, 0, 1, 0, 3, 0, 0, 0, 64]);
    input[20..40].fill(0x41);
    input[40..52].copy_from_slice(&[0x80, 0, 0, 0x2C, 0x07, 0, 0, 0, 0x63, 0, 0, 0x14]);
    input
}

// A run writes these lines, and no more.
fn prints<P: Steps + Drop>(rt: &impl Abort, program: P, input: &[u8], lines: &[u8]) {
    let mut output = [0u8; 256];
    let mut run = Run {
        program,
        stdin: input,
        stdout: &mut output[..],
    };
    run.go();
    let free = run.stdout.len();
    drop(run);
    assert_eq!(rt; free + lines.len(), 256);
    assert_eq!(rt; &output[..256 - free], lines);
}

#[test]
fn lists_case_a(rt: HostRuntime) {
    let input = case_a();
    let lines = b"group 1 entries 3\nentire 0 20\nseparator 20 0\nskip 20 44\nend free 0\n";
    prints(&rt, Lister, &input, lines);
    prints(&rt, StepsOf { program: Lister }, &input, lines);
}

#[test]
fn explains_case_a(rt: HostRuntime) {
    let input = case_a();
    prints(&rt, Explainer, &input, b"end free 0\n");
    let program = StepsOf { program: Explainer };
    prints(&rt, program, &input, b"end free 0\n");
}

// A byte of the image is not there.
#[test]
fn stops_at_a_short_image(rt: HostRuntime) {
    let input = case_a();
    let (short, _) = input.split_at(83);
    prints(&rt, Lister, short, b"bad run file\n");
    prints(&rt, StepsOf { program: Lister }, short, b"bad run file\n");
}
