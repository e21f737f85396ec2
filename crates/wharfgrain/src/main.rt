// The job program: a job text on standard input, its answer on standard output. No contract can say what
// is read or written; what is done with it is in the library.
#![tactic(auto)]

// Of standard input 65,536 bytes are read, or what there is: no job's text is that long, and what may
// follow does not change the answer. The kit's io has no errors: what cannot be read ends the text, and
// where the output is closed the program ends as ever, so std's reading and writing would be no plainer.
fn main() {
    let mut text = io::large_buffer();
    let got = io::read_full(0, &mut text);
    let mut answer = [0u8; 19472];
    let size = jobtext::run_job(&text[..got], &mut answer);
    io::write_all(1, &answer[..size]);
}
