// Words that are entries of their own: nothing stands behind the last one.
ghost use Rattle.std.specs.Prelude.{[]};

use super::Entry;

impl Entry for u64 {
    ghost words = { λ entries. entries };

    ghost rest = { λ entries. [] };

    #[inline(always)]
    fn count(entries: &[u64]) -> usize {
        entries.len()
    }

    #[inline(always)]
    fn word_at(entries: &[u64], i: usize) -> u64 {
        if i < Self::count(entries) {
            entries[i]
        } else {
            0
        }
    }

    #[inline(always)]
    fn put(entries: &mut [u64], i: usize, word: u64) {
        if i < Self::count(entries) {
            entries[i] = word;
        }
    }
}
