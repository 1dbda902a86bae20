// There and back: a show written and read again, a file read and written again. docs/RULES.md, section 6.
#![tactic(auto)]

ghost use Rattle.std.specs.Prelude.{◌≡◌, length};
ghost use Rattle.showfile_write.specs.Answers.{buffer_of};
ghost use Rattle.showfile_copy.specs.Trips.{reread_of, copied_of, copy_of};

use show::Show;
use showfile::{Reading, Written, read, refused};
use showfile_write::write;

// Writes a show and reads it again: what a server will find in the file.
pub fn reread(show: Show, note: &[u8], buffer: &mut [u8]) -> Reading
    ensures value { result ≡ reread_of show note.now (length buffer.old) }
    ensures buffer_after { buffer.new ≡ buffer_of show note.now buffer.old }
{
    let wrote = write(show, note, buffer);
    if let Err(why) = wrote.check {
        return refused(why);
    }
    read(&buffer[..wrote.len])
}

// Reads a file and writes what it read: the same bytes; or 1 to 7, then 16.
pub fn copy(file: &[u8], buffer: &mut [u8]) -> Written
    ensures value { result ≡ copied_of file.now (length buffer.old) }
    ensures buffer_after { buffer.new ≡ copy_of file.now buffer.old }
{
    let got = read(file);
    if let Err(why) = got.check {
        return Written {
            check: Err(why),
            len: 0,
        };
    }
    write(got.show, &file[..got.note], buffer)
}
