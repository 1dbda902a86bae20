// Reads a show file from standard input and writes why it is refused to standard output: a line, and a sentence for the telephone.
// A failed read or write is told on standard error.
// `calculator` is its twin: one function for both would be lent the call, which takes a `requires`, and no public function of the project has one.
#![tactic(auto)]

use explain::{TEXT_MOST, explain};
use input::read_all;
use showfile::Reading;

// A byte more than the longest file: a file that fills this is refused for its length, whatever follows.
const ROOM: usize = Reading::FILE_MOST + 1;

fn main(rt: HostRuntime) {
    let mut room = [0u8; ROOM];
    let came = read_all(&mut rt.stdin(), &mut room);
    if came.failed {
        let _ = rt.eprint("why: standard input could not be read\n");
        return;
    }
    let mut text = [0u8; TEXT_MOST];
    let said = explain(&room[..came.len], &mut text);
    if rt.write_all(&text[..said.len]).is_err() {
        let _ = rt.eprint("why: the answer could not be written\n");
    }
}
