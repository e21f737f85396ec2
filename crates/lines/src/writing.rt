// Writing a line.
ghost use Rattle.std.specs.Prelude.{◌≡◌, ◌≤◌, ◌<◌, [], ◌∷◌, ◌++◌, length};
ghost use Rattle.laws.specs.Lists.{over};
ghost use Rattle.lines.specs.Numerals.{digits};
ghost use Rattle.lines.specs.Lines.{line_feed, base, width, line, taken};

use super::digits::byte_of;
use super::{Form, LINE_FEED};

// The bytes at the start of out, whose end stays as it was; where they are more than out has, all of it
// does.
pub fn lay_over(out: &mut [u8], bytes: &[u8])
    ensures { out.new ≡ over bytes.now out.old }
{
    let size = bytes.len();
    if size <= out.len() {
        out[..size].copy_from_slice(bytes);
    }
}

// The last k digits of n in the base, at the start of out. The library's formats write all digits of n.
fn write_digits(out: &mut [u8], base: u64, k: usize, n: u64)
    requires base { (0 < base) × (base ≤ 16) }
    requires room { k ≤ length out.old }
    ensures { out.new ≡ over (digits base k n) out.old }
{
    let mut rest = n;
    for i in (0..k).rev() {
        out[i] = byte_of(rest % base);
        rest /= base;
    }
}

// The value and its line feed, at the start of out.
fn write_value(out: &mut [u8], form: Form, n: u64, size: usize)
    requires size { size ≡ width form n }
    requires room { size < length out.old }
    ensures { out.new ≡ over (digits (base form) size n ++ (line_feed ∷ [])) out.old }
{
    write_digits(out, form.base(), size, n);
    out[size] = LINE_FEED;
}

// The line at the start of out and how many bytes it takes; or, where it is longer than out, none and out
// as it was. Whether the number is of the form is not looked at: of one with more than four digits the last
// four are written.
pub fn write_line(out: &mut [u8], key: &[u8], form: Form, n: u64) -> Option<usize>
    ensures answer { result ≡ taken (line key.now form n) out.old }
    ensures written { out.new ≡ over (line key.now form n) out.old }
{
    let size = form.width(n);
    let from = key.len();
    if out.len() < from {
        return None;
    }
    if out.len() - from <= size {
        return None;
    }
    lay_over(out, key);
    write_value(&mut out[from..], form, n, size);
    Some(from + size + 1)
}
