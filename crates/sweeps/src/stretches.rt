// How a whole array is cut into stretches.
ghost use Rattle.std.specs.Prelude.{◌≡◌};
ghost use Rattle.sweeps.specs.Stretches.{stretch_places, stretch_end};

// How many places a stretch has; and the first one, which is short, so that data that does not fit is soon found
// out.
const STRETCH: usize = 256;

const FIRST_STRETCH: usize = 32;

// How many places the stretch from `from` on has.
fn places_from(from: usize) -> usize
    ensures { result ≡ stretch_places from }
{
    if from == 0 {
        return FIRST_STRETCH;
    }
    STRETCH
}

// Where the stretch from `from` on ends, of n places.
#[tactic(auto, unfolding(crate::specs::Stretches::stretch_end))]
pub fn stretch_end(from: usize, n: usize) -> usize
    ensures { result ≡ stretch_end from n }
{
    if n <= from {
        return n;
    }
    let left = n - from;
    let most = places_from(from);
    if left < most {
        return from + left;
    }
    from + most
}
