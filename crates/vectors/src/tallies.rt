// How many rows there were, and how many of them agree.
use crate::rows::{Call, Outcome, Row};
use codes::{pack_one, unpack_one};
use grid::Format;
use std::fmt;

// How many rows of one call there were, and how many of them agree.
#[derive(Clone, Copy, Debug, Default)]
struct Count {
    rows: u64,
    right: u64,
}

impl Count {
    // One row more.
    fn count(&mut self, is_right: bool) {
        self.rows = self.rows.wrapping_add(1);
        self.right = self.right.wrapping_add(u64::from(is_right));
    }
}

impl fmt::Display for Count {
    fn fmt<W: fmt::Write>(&self, f: &mut fmt::Formatter<W>) -> fmt::Result {
        write!(f, "rows={} right={}", self.rows, self.right)
    }
}

#[derive(Clone, Copy, Debug, Default)]
pub(crate) struct Tally {
    pack: Count,
    unpack: Count,
    // rows of no known form
    strange: u64,
}

// What the row's call answers.
fn outcome(row: &Row) -> Outcome {
    let format = Format {
        p: row.p,
        emax: row.emax,
        sub: row.sub != 0,
    };
    Outcome::from(match row.call {
        Call::Pack => pack_one(format, row.given),
        Call::Unpack => unpack_one(format, row.given),
    })
}

// Whether the call answers what the row says; if it does not, the row is written out.
fn agrees(out: &mut impl fmt::Write, row: &Row) -> Result<bool, fmt::Error> {
    let outcome = outcome(row);
    if row.due == outcome && row.place == 0 {
        return Ok(true);
    }
    writeln!(
        out,
        "wrong: p={} emax={} sub={} given={:016x} {outcome}",
        row.p, row.emax, row.sub, row.given
    )?;
    Ok(false)
}

impl Tally {
    // One row more of no known form.
    pub(crate) fn count_strange(&mut self) {
        self.strange = self.strange.wrapping_add(1);
    }

    // One row more; none is one of no known form.
    pub(crate) fn count(&mut self, out: &mut impl fmt::Write, row: Option<Row>) -> fmt::Result {
        let Some(row) = row else {
            self.count_strange();
            return Ok(());
        };
        let is_right = agrees(out, &row)?;
        match row.call {
            Call::Pack => self.pack.count(is_right),
            Call::Unpack => self.unpack.count(is_right),
        }
        Ok(())
    }
}

impl fmt::Display for Tally {
    fn fmt<W: fmt::Write>(&self, f: &mut fmt::Formatter<W>) -> fmt::Result {
        writeln!(f, "pack {}", self.pack)?;
        writeln!(f, "unpack {}", self.unpack)?;
        write!(f, "strange rows={}", self.strange)
    }
}
