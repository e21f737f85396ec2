// Running a job.
ghost use Rattle.std.specs.Prelude.{cond, [], ◌≡◌, ◌+◌, ◌*◌, ◌≤◌, ◌<◌, length, get_or, replicate};
ghost use Rattle.laws.specs.Lists.{tab, over};
ghost use Rattle.jobs.specs.Reading.{job_of, words_in};
ghost use Rattle.jobtext.specs.Runs.{answer_of, answer_to};
ghost use Rattle.jobtext.specs.Answers.{printed};
ghost use Rattle.arrays.specs.Rounding.{reported, afterwards};

use super::answers::{print_outcome, print_refused};
use super::page::Page;
use arrays::round_array;
use grid::Format;
use jobs::{has_words, read_job};
use lines::lay_over;
use refusals::Refusal;

// Every entry of values from one place on, so many apart, to the entries of out. The places are reckoned:
// in a `for` over a `zip` of `out.iter_mut()` no invariant can say what is written.
fn spread(values: &[u64; 2054], from: usize, apart: usize, out: &mut [u64])
    requires { from + length out.old * apart < 2054 + apart }
    ensures { out.new ≡ tab (length out.old) (λ i. get_or values.now (from + i * apart) 0) }
{
    for (i, entry) in out.iter_mut().enumerate() {
        *entry = values[from + i * apart];
    }
}

// Prints the answer to the array call with these arguments.
fn run_arrays(
    format: Format,
    mode: u64,
    r: u64,
    words: &[u64],
    xs: &[u64],
    ys: &mut [u64],
    page: &mut Page,
)
    requires many { length ys.old ≤ 1024 }
    requires empty { page.old ≡ [] }
    ensures { page.new ≡ printed (reported format mode r words.now xs.now ys.old) (afterwards format mode r words.now xs.now ys.old) }
{
    let outcome = round_array(format, mode, r, words, xs, ys);
    print_outcome(outcome, ys, page);
}

// Prints the answer to the job with these values, whose inputs lie so far apart.
fn run_places(
    values: &[u64; 2054],
    apart: usize,
    xs: &mut [u64],
    ws: &mut [u64],
    ys: &mut [u64],
    page: &mut Page,
)
    requires many { get_or values.now 5 0 ≤ 1024 }
    requires apart { apart ≡ cond (words_in values.now) 2 1 }
    requires inputs { length xs.old ≡ get_or values.now 5 0 }
    requires words { length ws.old ≡ cond (words_in values.now) (get_or values.now 5 0) 0 }
    requires outputs { ys.old ≡ replicate (get_or values.now 5 0) 0 }
    requires empty { page.old ≡ [] }
    ensures { page.new ≡ answer_of (job_of values.now) }
{
    let [p, emax, sub, mode, r, ..] = *values;
    let format = Format {
        p,
        emax,
        sub: sub == 1,
    };
    spread(values, 6, apart, xs);
    spread(values, 7, 2, ws);
    run_arrays(format, mode, r, ws, xs, ys, page);
}

// Prints the answer to the job with these values. Its arrays have room for the most inputs, since there is no heap.
fn run_values(values: &[u64; 2054], page: &mut Page)
    requires many { get_or values.now 5 0 ≤ 1024 }
    requires empty { page.old ≡ [] }
    ensures { page.new ≡ answer_of (job_of values.now) }
{
    let [_, _, _, mode, _, count, ..] = *values;
    let n = count as usize;
    let mut xs = [0u64; 1024];
    let mut ws = [0u64; 1024];
    let mut ys = [0u64; 1024];
    if has_words(mode) {
        run_places(values, 2, &mut xs[..n], &mut ws[..n], &mut ys[..n], page);
    } else {
        run_places(values, 1, &mut xs[..n], &mut [], &mut ys[..n], page);
    }
}

// Prints the answer to the text.
fn print_answer(text: &[u8], page: &mut Page)
    requires { page.old ≡ [] }
    ensures { page.new ≡ answer_to text.now }
{
    let mut values = [0u64; 2054];
    match read_job(text, &mut values) {
        Ok(()) => run_values(&values, page),
        Err(bad) => print_refused(Refusal::JobText, bad.line, page),
    }
}

// The answer to the text, at the start of out, whose end stays as it was, and the answer's length. Where
// the answer is longer than out, all of out stays as it was.
pub fn run_job(text: &[u8], out: &mut [u8]) -> usize
    ensures answer { result ≡ length (answer_to text.now) }
    ensures written { out.new ≡ over (answer_to text.now) out.old }
{
    let mut page = Page::new();
    print_answer(text, &mut page);
    let answer = page.bytes();
    lay_over(out, answer);
    answer.len()
}
