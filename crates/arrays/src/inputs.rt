// What is rounded: the patterns, and the random words.
ghost use Rattle.std.specs.Prelude.{◌≡◌, ◌≤◌, length};

use words::Entry;

// An array of patterns, and one of random words, which has at least as many. The output is lent apart: with it in here
// each function would have to promise that the other two stay as they are.
#[derive(Drop)]
pub(crate) struct Inputs<'a, T: Entry> {
    pub(crate) words: &'a [T],
    pub(crate) xs: &'a [T],
    ghost enough: { length (T.words xs.now) ≤ length (T.words words.now) },
}

impl<T: Entry> Inputs<'_, T> {
    // The same place, where a loop ends, reckoned by the three arrays' lengths: so the compiler sees that the loop stays
    // within each array, and tests no place.
    #[inline(always)]
    pub(crate) fn place_within(&self, out: &[T], place: usize) -> usize
        requires inputs { place ≤ length (T.words self.now.xs.now) }
        requires outputs { length (T.words out.now) ≡ length (T.words self.now.xs.now) }
        ensures { result ≡ place }
    {
        place
            .min(T::count(self.words))
            .min(T::count(self.xs))
            .min(T::count(out))
    }
}
