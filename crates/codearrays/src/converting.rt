// The words of an array converted one by one, by a rule that refuses some of them.
ghost use Rattle.std.specs.Prelude.{◌≡◌, ℕ, map, length, OnErr};
ghost use Rattle.reports.specs.Reports.{reported_by, first_refused};
ghost use Rattle.codearrays.specs.Loops.{Follows, words_reported, words_afterwards};

use refusals::Refusal;
use reports::Refused;
use words::Entry;

// Refused at the lowest place whose word cannot be converted.
fn check_all<T: Entry, F: Fn(u64) -> Result<u64, Refusal>>(
    xs: &[T],
    convert: &F,
) -> Result<(), Refused>
    requires { F.IsAlwaysCallable convert.now }
    ensures { (refuses writes : ℕ → ℕ) → Follows (F.post convert.now) refuses writes → reported_by result ≡ first_refused refuses 0 (T.words xs.now) }
{
    for place in 0..T::count(xs) {
        if let Err(refusal) = convert(T::word_at(xs, place)) {
            return Err(Refused {
                refusal,
                place: place as u64,
            });
        }
    }
    Ok(())
}

// Every word converted into out; 0 for one that cannot be.
fn write_all<T: Entry, F: Fn(u64) -> Result<u64, Refusal>>(xs: &[T], out: &mut [T], convert: &F)
    requires callable { F.IsAlwaysCallable convert.now }
    requires long { length (T.words out.old) ≡ length (T.words xs.now) }
    ensures written { (refuses writes : ℕ → ℕ) → Follows (F.post convert.now) refuses writes → T.words out.new ≡ map writes (T.words xs.now) }
    ensures rest { T.rest out.new ≡ T.rest out.old }
{
    for i in 0..T::count(xs) {
        let word = T::word_at(xs, i);
        T::put(out, i, convert(word).unwrap_or(0));
    }
}

// Every word converted into out; or the refusal of the lowest word that cannot be converted, and out as it was.
pub(crate) fn convert_all<T: Entry, F: Fn(u64) -> Result<u64, Refusal>>(
    xs: &[T],
    out: &mut [T],
    convert: F,
) -> Result<(), Refused>
    requires callable { F.IsAlwaysCallable convert }
    requires long { length (T.words out.old) ≡ length (T.words xs.now) }
    ensures answer { (refuses writes : ℕ → ℕ) → Follows (F.post convert) refuses writes → reported_by result ≡ words_reported refuses (T.words xs.now) (T.words out.old) }
    ensures written { (refuses writes : ℕ → ℕ) → Follows (F.post convert) refuses writes → T.words out.new ≡ words_afterwards refuses writes (T.words xs.now) (T.words out.old) }
    ensures rest { T.rest out.new ≡ T.rest out.old }
    ensures kept { OnErr result (out.new ≡ out.old) }
{
    check_all(xs, &convert)?;
    write_all(xs, out, &convert);
    Ok(())
}
