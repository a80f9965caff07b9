// The lines that are printed, each added to the end of a text. Each function has a `requires` for the room that its lines need at most.
#![tactic(auto)]

ghost use Rattle.std.specs.Prelude.{◌+◌, ◌*◌, ◌≤◌, ◌≡◌, ◌++◌, length};
ghost use Rattle.words.specs.Added.{room, Added};
ghost use Rattle.lines.specs.Text.{ending, group_line, row_line, row_lines, group_lines, repeat_line, refusal_line, end_line, bad_line};

use group::Phase;
use words::Text;

// The words that end a run in a phase.
#[tactic(auto, unfolding(crate::specs::Text::ending))]
fn ending(phase: Phase) -> &'static [u8]
    ensures words { result.now ≡ ending phase }
    ensures few { length result.now ≤ 10 }
{
    match phase {
        Phase::Free => b"end free",
        Phase::Inside => b"end inside",
        Phase::Owed => b"end owed",
    }
}

// One row's line: name, offset, count.
fn add_row(text: &mut Text, kind: u32, offset: u32, count: u32)
    requires { 32 ≤ room text.old }
    ensures { Added 32 text.old (row_line kind offset count) text.new }
{
    text.add_kind(kind as u64);
    text.add_field(offset);
    text.add_field(count);
    text.add_byte(b'\n');
}

// The lines of the first n rows.
#[tactic(auto, using(crate::proofs::RowLaws::no_rows, crate::proofs::RowLaws::one_row_more, std::proofs::lemmas::Grind::common_steps))]
fn add_rows(text: &mut Text, n: usize, rows: &[u32])
    requires { (32 * n ≤ room text.old) × (3 * n ≤ length rows.now) }
    ensures { Added (32 * n) text.old (row_lines n rows.now) text.new }
{
    for i in 0..n {
        add_row(text, rows[3 * i], rows[3 * i + 1], rows[3 * i + 2]);
    }
}

// The line of a group: its number and its entry count.
fn add_head(text: &mut Text, number: u32, entries: u32)
    requires { 36 ≤ room text.old }
    ensures { Added 36 text.old (group_line number entries) text.new }
{
    text.add_labelled(b"group", number);
    text.add_labelled(b" entries", entries);
    text.add_byte(b'\n');
}

// All lines of a group.
#[tactic(auto, unfolding(crate::specs::Text::group_lines))]
pub fn add_group(text: &mut Text, number: u32, entries: u32, rows: &[u32])
    requires { (36 + 32 * entries ≤ room text.old) × (3 * entries ≤ length rows.now) }
    ensures { Added (36 + 32 * entries) text.old (group_lines number entries rows.now) text.new }
{
    add_head(text, number, entries);
    add_rows(text, entries as usize, rows);
}

// The line of a repeat.
#[tactic(auto, unfolding(crate::specs::Text::repeat_line))]
pub fn add_repeat(text: &mut Text, number: u32)
    requires { 18 ≤ room text.old }
    ensures { Added 18 text.old (repeat_line number) text.new }
{
    text.add_labelled(b"repeat", number);
    text.add_byte(b'\n');
}

// The line of a refusal.
pub fn add_refusal(text: &mut Text, refusal: u32, place: u32)
    requires { 33 ≤ room text.old }
    ensures { Added 33 text.old (refusal_line refusal place) text.new }
{
    text.add_labelled(b"refused", refusal);
    text.add_labelled(b" at", place);
    text.add_byte(b'\n');
}

// The line that ends a run.
pub fn add_end(text: &mut Text, phase: Phase, sum: u32)
    requires { 22 ≤ room text.old }
    ensures { Added 22 text.old (end_line phase sum) text.new }
{
    text.add(ending(phase));
    text.add_field(sum);
    text.add_byte(b'\n');
}

// The line of a run that is not what document 01 asks for.
#[tactic(auto, unfolding(crate::specs::Text::bad_line))]
pub fn add_bad(text: &mut Text)
    requires { 13 ≤ room text.old }
    ensures { Added 13 text.old bad_line text.new }
{
    text.add(b"bad run file\n");
}
