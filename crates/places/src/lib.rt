// Numbers cut in two at a place, and numbers moved up in their word. Any place may be asked for: past the
// last digit nothing is high, and nothing stays of what is moved past the word. A place is a word, and the
// library's checked shifts take a shorter number, so the place is compared here. The contracts cite the
// definitions in specs/Places.antt. Every function here answers for all inputs.
#![tactic(auto)]

ghost use Rattle.std.specs.Prelude.{◌≡◌};
ghost use Rattle.places.specs.Places.{high, low, moved_up};

// The digits of n from place d on.
pub fn high_part(n: u64, d: u64) -> u64
    ensures { result ≡ high n d }
{
    if d < 64 {
        return n >> d;
    }
    0
}

// The digits of n below place d.
pub fn low_part(n: u64, d: u64) -> u64
    ensures { result ≡ low n d }
{
    if d < 64 {
        return n & ((1 << d) - 1);
    }
    n
}

// w moved up by d places, as far as the word reaches.
pub fn moved_up(w: u64, d: u64) -> u64
    ensures { result ≡ moved_up w d }
{
    if 63 < d {
        return 0;
    }
    w << d
}
