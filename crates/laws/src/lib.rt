// Facts on powers, digits, lists and tables that any crate may cite. There are no functions here: what is
// proved stands in proofs/, a subject a file, and proofs/Lib.antt lists the subjects.
#![tactic(auto)]
