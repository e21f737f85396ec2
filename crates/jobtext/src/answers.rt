// Printing an answer, line after line, on an empty page that is lent down the calls, so that there is one page at a time.
ghost use Rattle.std.specs.Prelude.{◌≡◌, ◌≤◌, [], length};
ghost use Rattle.refusals.specs.Refusals.{number_of};
ghost use Rattle.reports.specs.Reports.{reported_by};
ghost use Rattle.jobtext.specs.Answers.{accepted, refused, printed};

use super::page::Page;
use lines::Form;
use refusals::Refusal;
use reports::Refused;

// The form of each number in an answer.
const NUMBER: Form = Form::Number(9999);

// Prints the answer to a job that is not refused.
fn print_accepted(ys: &[u64], page: &mut Page)
    requires many { length ys.now ≤ 1024 }
    requires empty { page.old ≡ [] }
    ensures { page.new ≡ accepted ys.now }
{
    page.add(b"status=", NUMBER, 0);
    page.add(b"n=", NUMBER, ys.len() as u64);
    for &y in ys {
        page.add(b"y=", Form::Word, y);
    }
}

// Prints the answer to a refused job.
pub(crate) fn print_refused(refusal: Refusal, place: u64, page: &mut Page)
    requires { page.old ≡ [] }
    ensures { page.new ≡ refused (number_of refusal) place }
{
    page.add(b"status=", NUMBER, refusal.number());
    page.add(b"at=", NUMBER, place);
}

// Prints the answer by what an array call came to, and by its output.
pub(crate) fn print_outcome(outcome: Result<(), Refused>, ys: &[u64], page: &mut Page)
    requires many { length ys.now ≤ 1024 }
    requires empty { page.old ≡ [] }
    ensures { page.new ≡ printed (reported_by outcome) ys.now }
{
    match outcome {
        Ok(()) => print_accepted(ys, page),
        Err(it) => print_refused(it.refusal, it.place, page),
    }
}
