// What a reader gives, as standard input, read into a lent room: where it stands, and what stays as it was. Of a reader whose bytes are
// known the contracts say which came; of standard input nobody knows them.
#![tactic(auto)]

ghost use Rattle.std.specs.Prelude.{◌≡◌, true, false, ◌-◌, ◌<◌, ◌≤◌, length, take, drop};
ghost use Rattle.std.specs.Io.KnownBytes.{Consumes, IsAtEnd};

use std::io::Read;

// How many bytes came, and whether a read failed. Two fields and no `Result`: a read may fail after bytes came, and both are told
// (clause `bytes` of `read_all`, must-fail edit failed_where_bytes_came).
#[derive(Clone, Copy)]
pub struct Came {
    pub len: usize,
    pub failed: bool,
}

// Reads until the input ends, the room is full or a read fails: a pipe may give its bytes in pieces.
pub fn read_all<R: Read>(input: &mut R, room: &mut [u8]) -> Came
    ensures len_in_bounds { result.len ≤ length room.new }
    ensures bytes { Consumes (R.remaining input.old) (R.remaining input.new) (take result.len room.new) }
    ensures end { result.failed ≡ false → result.len < length room.new → IsAtEnd (R.remaining input.new) }
{
    // No `for`: each read gives as many bytes as came.
    let mut at = 0;
    while at < room.len() {
        let came = read_at(input, room, at);
        if came.len == 0 {
            return Came {
                len: at,
                failed: came.failed,
            };
        }
        at += came.len;
    }
    Came {
        len: at,
        failed: false,
    }
}

// One read, from `at` on; no bytes at the end of the input or of the room, or where the read failed. What stands before `at` stays.
pub fn read_at<R: Read>(input: &mut R, room: &mut [u8], at: usize) -> Came
    ensures len_in_bounds { result.len ≤ length room.new - at }
    ensures room_unchanged { take at room.new ≡ take at room.old }
    ensures len_value { result.failed ≡ true → result.len ≡ 0 }
    ensures bytes { Consumes (R.remaining input.old) (R.remaining input.new) (take result.len (drop at room.new)) }
    ensures end { result.failed ≡ false → result.len ≡ 0 → at < length room.new → IsAtEnd (R.remaining input.new) }
{
    if room.len() < at {
        return Came {
            len: 0,
            failed: false,
        };
    }
    let got = input.read(&mut room[at..]);
    Came {
        failed: got.is_err(),
        len: got.unwrap_or(0),
    }
}
