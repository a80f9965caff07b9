// The lines of a refusal, each added to the end of a text. Each function has a `requires` for the room that it needs at most.
#![tactic(auto)]

ghost use Rattle.std.specs.Prelude.{◌+◌, ◌≤◌, ◌<◌, ◌≡◌, cond, [], ◌++◌, length};
ghost use Rattle.words.specs.Added.{room, Added};
ghost use Rattle.words.specs.Words.{ascii, kind_name};
ghost use Rattle.reasons.specs.Truth.{is_permitted};
ghost use Rattle.explain.specs.Explanation.{explanation};
ghost use Rattle.reason_lines.specs.Lines.{wrong, byte_of, where_line, limits, permitted_names, found_words, found_line, refused_lines};

use reasons::Reason;
use words::Text;

// What is explained, in numbers: the refusal, whichever it is, its place, the byte offset of that entry, and why.
#[derive(Clone, Copy, Debug, PartialEq, Eq)]
pub struct Explained {
    pub refusal: u32,
    pub place: u32,
    pub offset: u32,
    pub why: Reason,
}

// What is wrong, in words.
#[tactic(auto, unfolding(crate::specs::Lines::wrong))]
fn wrong(refusal: u32) -> &'static [u8]
    ensures words { result.now ≡ wrong refusal }
    ensures few { length result.now ≤ 40 }
{
    match refusal {
        3 => b"the first number is out of range",
        5 => b"the number is not the next",
        6 => b"the entry count is out of range",
        8 => b"no entry has this flag",
        9 => b"bit b4 went out",
        10 => b"this kind may not stand here",
        12 => b"the data would pass into the table",
        13 => b"the skip count is wrong",
        19 => b"a part of no bytes",
        20 => b"a separator above 1",
        21 => b"the record is too long",
        22 => b"the total is not the sum of its parts",
        23 => b"the total had room here",
        _ => b"",
    }
}

// The entry's byte, where there is an entry.
#[tactic(auto, unfolding(crate::specs::Lines::byte_of))]
fn add_byte_of(text: &mut Text, x: Explained)
    requires { 16 ≤ room text.old }
    ensures { Added 16 text.old (byte_of (explanation x.refusal x.place x.offset x.why)) text.new }
{
    if x.place != 0 {
        text.add_labelled(b" byte", x.offset);
    }
}

// Which group, which byte, and what is wrong.
#[tactic(auto, unfolding(crate::specs::Lines::where_line))]
fn add_where(text: &mut Text, i: u32, x: Explained)
    requires { 75 ≤ room text.old }
    ensures { Added 75 text.old (where_line i (explanation x.refusal x.place x.offset x.why)) text.new }
{
    text.add_labelled(b"group", i);
    add_byte_of(text, x);
    text.add(b": ");
    text.add(wrong(x.refusal));
    text.add_byte(b'\n');
}

// The least and the greatest allowed.
#[tactic(auto, unfolding(crate::specs::Lines::limits))]
fn add_limits(text: &mut Text, why: Reason)
    requires { 54 ≤ room text.old }
    ensures { Added 54 text.old (limits why) text.new }
{
    if why.least <= why.greatest {
        text.add(b", allowed ");
        text.add_long(why.least);
        text.add(b" to ");
        text.add_long(why.greatest);
    } else {
        text.add(b", none allowed");
    }
}

// A kind's name behind a space, where it is permitted.
fn add_permitted(text: &mut Text, why: Reason, kind: u64)
    requires { (10 ≤ room text.old) × ((1 ≤ kind) × (kind ≤ 64)) }
    ensures { Added 10 text.old (cond (is_permitted why kind) (ascii " " ++ kind_name kind) []) text.new }
{
    if (why.kinds >> (kind - 1)) % 2 == 1 {
        text.add_byte(b' ');
        text.add_kind(kind);
    }
}

// The permitted kinds by name.
#[tactic(auto, using(crate::proofs::LineLaws::no_names, crate::proofs::LineLaws::one_name_more, std::proofs::lemmas::Grind::common_steps), unfolding(crate::specs::Lines::permitted_names))]
fn add_kinds(text: &mut Text, why: Reason)
    requires { 70 ≤ room text.old }
    ensures { Added 70 text.old (permitted_names why) text.new }
{
    if why.kinds == 0 {
        text.add(b" none");
        return;
    }
    for i in 0..7 {
        add_permitted(text, why, i + 1);
    }
}

// What was found, and what is allowed.
#[tactic(auto, unfolding(crate::specs::Lines::found_words))]
fn add_found_words(text: &mut Text, refusal: u32, why: Reason)
    requires { 90 ≤ room text.old }
    ensures { Added 90 text.old (found_words refusal why) text.new }
{
    match refusal {
        10 => {
            text.add_kind(why.found);
            text.add(b", permitted");
            add_kinds(text, why);
        }
        8 => text.add_long(why.found),
        _ => {
            text.add_long(why.found);
            add_limits(text, why);
        }
    }
}

#[tactic(auto, unfolding(crate::specs::Lines::found_line))]
fn add_found(text: &mut Text, x: Explained)
    requires { 97 ≤ room text.old }
    ensures { Added 97 text.old (found_line (explanation x.refusal x.place x.offset x.why)) text.new }
{
    text.add(b"found ");
    add_found_words(text, x.refusal, x.why);
    text.add_byte(b'\n');
}

// The lister's own line, and then the reason in two.
#[tactic(auto, unfolding(crate::specs::Lines::refused_lines))]
pub fn add_refused(text: &mut Text, i: u32, x: Explained)
    requires { 205 ≤ room text.old }
    ensures { Added 205 text.old (refused_lines i (explanation x.refusal x.place x.offset x.why)) text.new }
{
    lines::add_refusal(text, x.refusal, x.place);
    add_where(text, i, x);
    add_found(text, x);
}
