// What each line of a text holds.
ghost use Rattle.std.specs.Prelude.{◌≡◌, ◌≤◌};
ghost use Rattle.jobs.specs.Layout.{has_words, rule_at};
ghost use Rattle.jobs.specs.Reading.{line_at, place_lines};

use lines::{Form, Found, read_line};

// What a line holds: its key, with the equals sign, and the form of its value.
#[derive(Clone, Copy)]
struct Rule {
    key: &'static [u8],
    form: Form,
}

impl Rule {
    // A decimal number, no larger than is said.
    fn number(key: &'static [u8], most: u64) -> Rule
        ensures key { result.key.now ≡ key.now }
        ensures form { result.form ≡ Form.Number most }
    {
        Rule {
            key,
            form: Form::Number(most),
        }
    }

    // A word of 64 bits.
    fn word(key: &'static [u8]) -> Rule
        ensures key { result.key.now ≡ key.now }
        ensures form { result.form ≡ Form.Word }
    {
        Rule {
            key,
            form: Form::Word,
        }
    }
}

// Whether each x is followed by a w.
#[tactic(auto, unfolding(crate::specs::Layout::has_words))]
pub fn has_words(mode: u64) -> bool
    ensures { result ≡ has_words mode }
{
    mode == 7 || mode == 8
}

// The rule of line i: of the six lines before the places, and from there on x, which with words takes turns
// with w.
#[tactic(auto, using(crate::proofs::Rules::place_rule_lem), unfolding(crate::specs::Layout::rule_at))]
fn rule_at(i: usize, words: bool) -> Rule
    ensures key { result.key.now ≡ (rule_at words i).key }
    ensures form { result.form ≡ (rule_at words i).form }
{
    match i {
        0 => Rule::number(b"p=", 9999),
        1 => Rule::number(b"emax=", 9999),
        2 => Rule::number(b"sub=", 1),
        3 => Rule::number(b"mode=", 9999),
        4 => Rule::number(b"r=", 9999),
        5 => Rule::number(b"n=", 1024),
        _ if words && i % 2 == 1 => Rule::word(b"w="),
        _ => Rule::word(b"x="),
    }
}

// The line i that a text begins with.
pub(crate) fn read_at(s: &[u8], i: usize, words: bool) -> Option<Found>
    ensures { result ≡ line_at words i s.now }
{
    let rule = rule_at(i, words);
    read_line(s, rule.key, rule.form)
}

// How many lines n places take.
#[tactic(auto, unfolding(crate::specs::Reading::place_lines))]
pub(crate) fn place_lines(words: bool, n: u64) -> usize
    requires { n ≤ 1024 }
    ensures lines { result ≡ place_lines words n }
    ensures few { result ≤ 2048 }
{
    if words { n as usize * 2 } else { n as usize }
}
