// Which settings are accepted, and by which number the others are refused.
use crate::rows::print_call;
use std::fmt;

// p and emax, at the ends of their ranges and outside.
pub(crate) fn formats(text: &mut impl fmt::Write) -> fmt::Result {
    let ranges = [
        (2, 15),
        (53, 15),
        (11, 1),
        (11, 1023),
        // 1: p
        (0, 15),
        (1, 15),
        (54, 15),
        (u64::MAX, 15),
        // 2: emax
        (11, 0),
        (11, 1024),
        (11, u64::MAX),
    ];
    for (p, emax) in ranges {
        print_call(text, p, emax, 0, 0)?;
    }
    Ok(())
}

// The mode and r, and which refusal comes first.
pub(crate) fn modes(text: &mut impl fmt::Write) -> fmt::Result {
    let settings = [
        (11, 15, 7, 1),
        (11, 15, 7, 53),
        // only mode 7 looks at r
        (11, 15, 6, 54),
        (11, 15, 8, u64::MAX),
        // 3: the mode
        (11, 15, 9, 1),
        (11, 15, u64::MAX, 1),
        // 4: r in mode 7
        (11, 15, 7, 0),
        (11, 15, 7, 54),
        (11, 15, 7, u64::MAX),
        // the first that applies
        (1, 1024, 9, 0),
        (11, 1024, 9, 0),
        (11, 1024, 7, 0),
    ];
    for (p, emax, mode, r) in settings {
        print_call(text, p, emax, mode, r)?;
    }
    Ok(())
}
