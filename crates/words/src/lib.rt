// Words in an array: one an entry, or one in eight bytes, the low byte first. A loop over `Entry` serves both. The
// contracts cite the definitions in specs/; start with specs/Lib.antt.
#![tactic(auto)]

ghost use Rattle.std.specs.Prelude.{◌≡◌, ℕ, List, length, get_or, set};

mod bytes;
mod whole;

// What an array of words is made of: words, or bytes.
pub trait Entry: Copy {
    // the words in an array
    ghost words: { List Self → List ℕ };

    // what stands behind the last word
    ghost rest: { List Self → List Self };

    // Returns how many words there are.
    fn count(entries: &[Self]) -> usize
        ensures { result ≡ length (words entries.now) };

    // Returns word i, or 0 where there are fewer.
    fn word_at(entries: &[Self], i: usize) -> u64
        ensures { result ≡ get_or (words entries.now) i 0 };

    // Puts a word in the place of word i, if there is one. Nothing else changes.
    fn put(entries: &mut [Self], i: usize, word: u64)
        ensures written { words entries.new ≡ set (words entries.old) i word }
        ensures rest { rest entries.new ≡ rest entries.old };
}
