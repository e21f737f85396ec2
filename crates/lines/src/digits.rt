// Digits: what a byte is worth, the byte of a digit, and how many digits a number takes.
ghost use Rattle.std.specs.Prelude.{◌≡◌, ◌≤◌, ◌<◌, take};
ghost use Rattle.lines.specs.Numerals.{digit, decimals};
ghost use Rattle.lines.specs.Reading.{digit_in, run, value};

// The digits that a text begins with: how many there are, and what they are worth together.
#[derive(Clone, Copy)]
pub(crate) struct Digits {
    pub count: usize,
    pub value: u64,
}

// The digit in the base that a byte is, decimal or upper-case hexadecimal, if it is one. The library's
// `to_digit` takes lower-case letters too.
#[tactic(auto, using(std::proofs::lemmas::Grind::common_steps), unfolding(crate::specs::Reading::worth, crate::specs::Reading::digit_in))]
fn digit_in(base: u64, byte: u8) -> Option<u64>
    requires { base ≤ 16 }
    ensures { result ≡ digit_in base byte }
{
    let digit = match byte {
        b'0'..=b'9' => (byte - b'0') as u64,
        b'A'..=b'F' => (byte - b'A') as u64 + 10,
        _ => return None,
    };
    if digit < base { Some(digit) } else { None }
}

// The digits in the base that the text begins with, of which no more than `most` are read. The library's
// `parse` wants text that ends behind them, and takes a sign.
pub(crate) fn read_digits(s: &[u8], base: u64, most: usize) -> Digits
    requires base { base ≤ 16 }
    requires most { most ≤ 16 }
    ensures count { result.count ≡ run base most s.now }
    ensures value { result.value ≡ value base 0 (take result.count s.now) }
{
    let looked_at = &s[..s.len().min(most)];
    let mut value = 0;
    for (count, &byte) in looked_at.iter().enumerate() {
        let Some(next) = digit_in(base, byte) else {
            return Digits { count, value };
        };
        value = value * base + next;
    }
    Digits {
        count: looked_at.len(),
        value,
    }
}

// How many decimal digits a number of at most four takes.
#[tactic(auto, unfolding(crate::specs::Numerals::decimals))]
pub(crate) fn decimals(n: u64) -> usize
    ensures { result ≡ decimals n }
{
    match n {
        0..=9 => 1,
        10..=99 => 2,
        100..=999 => 3,
        _ => 4,
    }
}

// The byte of a digit. The library's `from_digit` answers lower-case letters.
#[tactic(auto, unfolding(crate::specs::Numerals::digit))]
pub(crate) fn byte_of(d: u64) -> u8
    requires { d < 16 }
    ensures { result ≡ digit d }
{
    if d < 10 {
        b'0' + d as u8
    } else {
        b'A' + (d - 10) as u8
    }
}
