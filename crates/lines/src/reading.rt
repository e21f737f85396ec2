// Reading a line.
ghost use Rattle.std.specs.Prelude.{◌≡◌};
ghost use Rattle.lines.specs.Reading.{read_value, read_line};

use super::digits::{Digits, read_digits};
use super::{Form, Found, LINE_FEED};

// The value that a text begins with, with the line feed behind it.
fn read_value(s: &[u8], form: Form) -> Option<Found>
    ensures { result ≡ read_value form s.now }
{
    let Digits { count, value } = read_digits(s, form.base(), form.longest());
    if count != form.width(value) {
        return None;
    }
    if !form.fits(value) {
        return None;
    }
    if *s.get(count)? != LINE_FEED {
        return None;
    }
    Some(Found {
        value,
        used: count + 1,
    })
}

// The line with this key and a value of this form that a text begins with.
pub fn read_line(s: &[u8], key: &[u8], form: Form) -> Option<Found>
    ensures { result ≡ read_line key.now form s.now }
{
    let rest = s.strip_prefix(key)?;
    let found = read_value(rest, form)?;
    Some(Found {
        value: found.value,
        used: key.len() + found.used,
    })
}
