// The refusals of document 01, each by its name. A call that can be refused answers a `Result` with one of them; the number that
// document 01 gives it is asked for where a program in C or a text is answered. The contract cites the definition in
// specs/Refusals.antt. The function answers for all inputs.
#![tactic(auto)]

ghost use Rattle.std.specs.Prelude.{◌≡◌};
ghost use Rattle.refusals.specs.Refusals.{number_of};

// Why a call is refused, in the order of the numbers, 1 to 12.
#[derive(Clone, Copy, Debug, PartialEq, Eq)]
pub enum Refusal {
    // p is outside 2 to 53
    Precision,
    // emax is outside 1 to 1023
    Exponent,
    // the mode is above 8
    Mode,
    // r is outside 1 to 53, in mode 7
    RandomBits,
    // the output is not as long as the input, or a length is no whole number of words
    OutputLength,
    // there are fewer words than inputs, in mode 7 or 8
    WordsLength,
    // the format has no code
    NoCode,
    // the format lacks the pattern
    NotInFormat,
    // the code has more bits than the format's
    CodeTooLarge,
    // the code is no number
    NoNumber,
    // no known format has the number
    UnknownFormat,
    // the text is not laid out as a job text
    JobText,
}

impl Refusal {
    // The number that document 01 gives the refusal.
    pub fn number(self) -> u64
        ensures { result ≡ number_of self }
    {
        match self {
            Refusal::Precision => 1,
            Refusal::Exponent => 2,
            Refusal::Mode => 3,
            Refusal::RandomBits => 4,
            Refusal::OutputLength => 5,
            Refusal::WordsLength => 6,
            Refusal::NoCode => 7,
            Refusal::NotInFormat => 8,
            Refusal::CodeTooLarge => 9,
            Refusal::NoNumber => 10,
            Refusal::UnknownFormat => 11,
            Refusal::JobText => 12,
        }
    }
}
