// What an array call came to: why it is refused and at which place, and the report of that as C has it. See specs/ for what is
// reported, and proofs/ for the laws about the lowest place that is refused.
#![tactic(auto)]

ghost use Rattle.std.specs.Prelude.{◌≡◌};
ghost use Rattle.reports.specs.Reports.{report, at_no_place, reported_by};

use refusals::Refusal;

// Why an array call is refused, and the place that the refusal is about, 0 where it is about none.
#[derive(Clone, Copy, Debug, PartialEq, Eq)]
pub struct Refused {
    pub refusal: Refusal,
    pub place: u64,
}

impl From<Refusal> for Refused {
    ghost from_gives = { λ refusal refused. refused ≡ at_no_place refusal };

    // A refusal that is about no place.
    fn from(refusal: Refusal) -> Refused {
        Refused { refusal, place: 0 }
    }
}

// Number 0, or the number of the call's refusal, and the place that the refusal is about, 0 where it is
// about none. It is laid out as C lays it out, for the entry points that answer it there.
#[repr(C)]
#[derive(Clone, Copy)]
pub struct Report {
    pub number: u64,
    pub place: u64,
}

impl From<Result<(), Refused>> for Report {
    ghost from_gives = { λ outcome report. report ≡ reported_by outcome };

    // What the call came to, by number.
    fn from(outcome: Result<(), Refused>) -> Report {
        match outcome {
            Ok(()) => report_of(0),
            // by `report_of`, which makes every report that has a number
            Err(refused) => Report {
                place: refused.place,
                ..report_of(refused.refusal.number())
            },
        }
    }
}

// The report of a call that is about no place: 0, or the number of its refusal.
pub fn report_of(number: u64) -> Report
    ensures { result ≡ report number }
{
    Report { number, place: 0 }
}
