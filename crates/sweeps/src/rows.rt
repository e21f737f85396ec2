// The second table: what is kept and what is added, by the place and by one bit that the mode looks at. A row
// has four words: the digits that are kept, what is added before, what is added behind, and one that is unused. A place
// below 64 is asked for as in quick.rt.
ghost use Rattle.std.specs.Prelude.{◌≡◌, ◌+◌, ◌*◌, ◌<◌, ◌≤◌};
ghost use Rattle.sweeps.specs.Rules.{Painted};
ghost use Rattle.sweeps.specs.Rows.{bit_of, last_digit, adds_share, added_before, added_behind, row_of, first_place, row_table, added_by, by_row};

use magnitudes::{Mode, Settings, increment_at, overflows_to_infinity};
use patterns::INFINITY;

// All bits.
const ALL: u64 = 0xFFFF_FFFF_FFFF_FFFF;

// The one bit, of the pattern or of the word, by which the mode's increment differs at place d.
fn bit_of(mode: Mode, word: u64, x: u64, d: u64) -> u64
    requires { d < 64 }
    ensures is { result ≡ bit_of mode word x d }
    ensures small { result < 2 }
{
    match mode {
        Mode::TiesToEven => (x >> d) % 2,
        Mode::TiesToZero => 0,
        Mode::TiesAway => 0,
        Mode::TowardZero => 0,
        Mode::TowardPlus => x >> 63,
        Mode::TowardMinus => x >> 63,
        Mode::ToOdd => (x >> d) % 2,
        Mode::Stochastic(_) => 0,
        Mode::EvenChance => word % 2,
    }
}

// Lo's m as far as it matters. At place 52 it is the one in front of the fraction.
fn last_digit(d: u64, bit: u64) -> u64
    ensures { result ≡ last_digit d bit }
{
    if d == 52 {
        return 1;
    }
    bit
}

// Whether the mode adds a share of the place, by the word: stochastic rounding does.
#[tactic(auto, using(crate::proofs::RowWords::no_share), unfolding(crate::specs::Rows::adds_share))]
fn adds_share(mode: Mode) -> bool
    ensures { result ≡ adds_share mode }
{
    matches!(mode, Mode::Stochastic(_))
}

// What is added before the digits below place d are cleared: the increment by the bit, or the digits that a
// share may have; and nothing where the sign alone is kept.
fn added_before(mode: Mode, d: u64, bit: u64) -> u64
    requires { d < 64 }
    ensures { result ≡ added_before mode d bit }
{
    if d == 63 {
        return 0;
    }
    if adds_share(mode) {
        return (1 << d) - 1;
    }
    increment_at(mode, bit == 1, last_digit(d, bit), d, bit)
}

// What is added behind: where the sign alone is kept, what a magnitude from T on becomes.
fn added_behind(s: Settings, d: u64, bit: u64) -> u64
    ensures { result ≡ added_behind s d bit }
{
    let mode = s.mode;
    if d < 63 {
        return 0;
    }
    if overflows_to_infinity(mode, bit == 1) {
        return INFINITY;
    }
    s.xmax
}

// Row i written: the one of place i / 2 and of bit i % 2.
fn put_row(s: Settings, rows: &mut [u64; 512], i: usize)
    requires { i < 128 }
    ensures { Painted (row_of s) (4 * i) (4 * (i + 1)) rows.old rows.new }
{
    let mode = s.mode;
    let at = 4 * i;
    let d = (i / 2) as u64;
    let bit = (i % 2) as u64;
    rows[at] = ALL - ((1 << d) - 1);
    rows[at + 1] = added_before(mode, d, bit);
    rows[at + 2] = added_behind(s, d, bit);
    rows[at + 3] = 0;
}

// The rows from `from` to below `to` written, one after the other.
fn put_rows(s: Settings, rows: &mut [u64; 512], from: usize, to: usize)
    requires starts { from ≤ to }
    requires ends { to ≤ 128 }
    ensures { Painted (row_of s) (4 * from) (4 * to) rows.old rows.new }
{
    for i in from..to {
        put_row(s, rows, i);
    }
}

// The rows from `from` to below `to` blanked: no number has their places.
fn blank_rows(rows: &mut [u64; 512], from: usize, to: usize)
    requires starts { from ≤ to }
    requires ends { to ≤ 128 }
    ensures { Painted (λ k. 0) (4 * from) (4 * to) rows.old rows.new }
{
    rows[4 * from..4 * to].fill(0);
}

// The first place past 0 that a number may have: the cut, but at least 1 and at most 53.
#[tactic(auto, unfolding(crate::specs::Rows::first_place))]
fn first_place(cut: u64) -> usize
    ensures { result ≡ first_place cut }
{
    cut.clamp(1, 53) as usize
}

// The table for the settings, written from the first row to the last, two rows a place: those of place 0, of the
// places from the cut to 52, and of 63, and blank ones between.
pub fn fill_rows(s: Settings, rows: &mut [u64; 512])
    ensures { rows.new ≡ row_table s }
{
    let first = 2 * first_place(s.cut);
    put_rows(s, rows, 0, 2);
    blank_rows(rows, 2, first);
    put_rows(s, rows, first, 106);
    blank_rows(rows, 106, 126);
    put_rows(s, rows, 126, 128);
}

// What is added of a row's word, by the random word where the mode adds a share.
fn added_by(mode: Mode, row: u64, word: u64, d: u64) -> u64
    requires { d < 64 }
    ensures { result ≡ added_by mode row word d }
{
    if adds_share(mode) {
        return increment_at(mode, false, 0, d, word) & row;
    }
    row
}

// The pattern x rounded by the row of the place.
#[tactic(auto, unfolding(crate::specs::Rows::by_row))]
pub fn by_row(mode: Mode, rows: &[u64; 512], place: u64, word: u64, x: u64) -> u64
    ensures { result ≡ by_row mode rows.now place word x }
{
    let d = place % 64;
    let at = (8 * d + 4 * bit_of(mode, word, x, d)) as usize;
    let sum = x.wrapping_add(added_by(mode, rows[at + 1], word, d));
    (sum & rows[at]).wrapping_add(rows[at + 2])
}
