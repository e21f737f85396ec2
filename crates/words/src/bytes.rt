// Words among bytes: eight bytes a word, the low one first.
ghost use Rattle.std.specs.Prelude.{◌≡◌, length};
ghost use Rattle.std.specs.Int.{w64, to_le_bytes};
ghost use Rattle.words.specs.Bytes.{words_of, rest_of};

use super::Entry;

// Puts a word in the place of eight bytes. They are written as one array, and not by `copy_from_slice`, since only so a
// loop over words is vectorized; there are eight, so that the array is there.
#[inline(always)]
fn put_bytes(eight: &mut [u8], word: u64)
    requires { length eight.old ≡ 8 }
    ensures { eight.new ≡ to_le_bytes w64 word }
{
    if let Some(array) = eight.as_mut_array::<8>() {
        *array = word.to_le_bytes();
    }
}

impl Entry for u8 {
    ghost words = { words_of };

    ghost rest = { rest_of };

    #[inline(always)]
    fn count(bytes: &[u8]) -> usize {
        bytes.len() / 8
    }

    #[inline(always)]
    fn word_at(bytes: &[u8], i: usize) -> u64 {
        let (words, _) = bytes.as_chunks::<8>();
        if i < Self::count(bytes) {
            u64::from_le_bytes(words[i])
        } else {
            0
        }
    }

    #[inline(always)]
    fn put(bytes: &mut [u8], i: usize, word: u64) {
        if i < Self::count(bytes) {
            let at = 8 * i;
            put_bytes(&mut bytes[at..at + 8], word);
        }
    }
}
