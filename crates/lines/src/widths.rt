// What the forms of values are: their bases, widths and limits.
ghost use Rattle.std.specs.Prelude.{◌≡◌};
ghost use Rattle.lines.specs.Lines.{base, width, fits};
ghost use Rattle.lines.specs.Reading.{longest};

use super::Form;
use super::digits::decimals;

impl Form {
    // The base in which a value is written.
    pub(crate) fn base(self) -> u64
        ensures { result ≡ base self }
    {
        match self {
            Form::Number(_) => 10,
            Form::Word => 16,
        }
    }

    // How many digits a value is written with.
    pub(crate) fn width(self, n: u64) -> usize
        ensures { result ≡ width self n }
    {
        match self {
            Form::Number(_) => decimals(n),
            Form::Word => 16,
        }
    }

    // How many digits of a value are read at most.
    pub(crate) fn longest(self) -> usize
        ensures { result ≡ longest self }
    {
        match self {
            Form::Number(_) => 4,
            Form::Word => 16,
        }
    }

    // Whether a value is of the form.
    #[tactic(auto, unfolding(crate::specs::Lines::fits))]
    pub(crate) fn fits(self, n: u64) -> bool
        ensures { result ≡ fits self n }
    {
        match self {
            Form::Number(most) => n <= most && n < 10000,
            Form::Word => true,
        }
    }
}
