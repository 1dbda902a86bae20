// Reads a show file from standard input and writes what the desk says of it to standard output.
// A failed read or write is told on standard error.
// `why` is its twin: one function for both would be lent the call, which takes a `requires`, and no public function of the project has one.
#![tactic(auto)]

use input::read_all;
use report::{TEXT_MOST, report};
use showfile::Reading;

// A byte more than the longest file: a file that fills this is refused for its length, whatever follows.
const ROOM: usize = Reading::FILE_MOST + 1;

fn main(rt: HostRuntime) {
    let mut room = [0u8; ROOM];
    let came = read_all(&mut rt.stdin(), &mut room);
    if came.failed {
        let _ = rt.eprint("calculator: standard input could not be read\n");
        return;
    }
    let mut text = [0u8; TEXT_MOST];
    let told = report(&room[..came.len], &mut text);
    if rt.write_all(&text[..told.len]).is_err() {
        let _ = rt.eprint("calculator: the answer could not be written\n");
    }
}
