// Reading a text, line after line.
ghost use Rattle.std.specs.Prelude.{◌≡◌, suc, ◌+◌, ◌-◌, ◌≤◌, ◌<◌, length, drop, IfOk, IfErr};
ghost use Rattle.std.proofs.lemmas.List.Edits.{sets};
ghost use Rattle.laws.specs.Lists.{over};
ghost use Rattle.jobs.specs.Reading.{read_from, values_in, reading};

use super::BadLine;
use super::layout::{has_words, place_lines, read_at};

// The six lines before the places, and those among them that say the mode and how many places there are.
const HEADS: usize = 6;

const MODE: usize = 3;

const PLACES: usize = 5;

// The lines from `first` up to `last`, with which the text begins, as far as they are as laid out: line i's
// value to place i of values. The text behind them, or the first bad one.
fn read_lines<'a>(
    text: &'a [u8],
    first: usize,
    last: usize,
    words: bool,
    values: &mut [u64],
) -> Result<&'a [u8], BadLine>
    requires order { first ≤ last }
    requires room { last ≤ length values.old }
    ensures good { let lines = read_from words first (last - first) text.now in IfOk result (λ rest. (length lines.values ≡ last - first) × (rest.now ≡ drop lines.used text.now)) }
    ensures bad { let lines = read_from words first (last - first) text.now in IfErr result (λ bad. (length lines.values < last - first) × (bad.line ≡ suc (first + length lines.values))) }
    ensures written { values.new ≡ sets values.old first (read_from words first (last - first) text.now).values }
{
    let mut rest = text;
    for i in first..last {
        let Some(found) = read_at(rest, i, words) else {
            return Err(BadLine::behind(i));
        };
        values[i] = found.value;
        rest = &rest[found.used..];
    }
    Ok(rest)
}

// The values of the lines, as far as these are as laid out, to the start of values, whose end stays as it
// was; and whether that is all of the text, or else its first bad line.
pub fn read_job(text: &[u8], values: &mut [u64; 2054]) -> Result<(), BadLine>
    ensures answer { result ≡ reading text.now }
    ensures written { values.new ≡ over (values_in text.now) values.old }
{
    let places = read_lines(text, 0, HEADS, false, values)?;
    let words = has_words(values[MODE]);
    let last = HEADS + place_lines(words, values[PLACES]);
    let rest = read_lines(places, HEADS, last, words, values)?;
    if rest.is_empty() {
        Ok(())
    } else {
        Err(BadLine::behind(last))
    }
}
