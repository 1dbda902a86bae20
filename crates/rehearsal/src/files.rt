// Files that are read and written again, and shows that are written and read again, with every byte of the buffer that is lent.
use crate::answers::{Answer, Faults, alike, tell_faulty, tell_show, told_of};
use crate::given::{BYTES, Bytes};
use crate::output::Page;
use parse::same;
use show::Show;
use show::refusal::Refusal;
use showfile_copy::{copy, reread};
use showfile_write::write;
use std::io;

// A buffer in hex, with what stands around it.
type Wide = Page<{ WIDE }>;

const WIDE: usize = 2 * BYTES + 256;

// ---- a buffer that is lent

// Before a call byte i is (7 i + 3) mod 256, so that a byte that should stay as it was is seen to change.
pub(crate) fn fill(buffer: &mut [u8]) {
    for (i, b) in buffer.iter_mut().enumerate() {
        *b = before(i);
    }
}

// Whether it holds that still, from a place on.
pub(crate) fn filled(buffer: &[u8], from: usize) -> bool {
    buffer
        .iter()
        .enumerate()
        .skip(from)
        .all(|(i, &b)| b == before(i))
}

fn before(i: usize) -> u8 {
    ((i % 256 * 7 + 3) % 256) as u8
}

// ---- a file

pub(crate) fn tell_file(rt: &impl Print, hex: &[u8]) -> io::Result<()> {
    let bytes = Bytes::of(hex);
    let file = bytes.as_slice();
    let reading = showfile::read(file);
    if let Err(why) = reading.check {
        return tell_faulty(rt, Answer::Refused(why), unread_faults(why, file));
    }
    tell_show(rt, b" -> read ", reading.show)?;
    tell_note(rt, file)?;
    tell_copies(rt, file)
}

fn tell_note(rt: &impl Print, file: &[u8]) -> io::Result<()> {
    let mut page = Wide::new();
    page.put(b" ", &[]);
    page.put_bytes(showfile::note(file));
    page.tell(rt)
}

// A refused file has no note and is not copied either.
fn unread_faults(why: Refusal, file: &[u8]) -> Faults {
    let second = copied(file, file.len());
    Faults {
        note: !showfile::note(file).is_empty(),
        unlike: !alike(why, second.check),
        changed: !second.kept,
        ..Faults::default()
    }
}

// The file written again into a buffer of its length, and into one that is a byte shorter: this must be refused, and change nothing.
fn tell_copies(rt: &impl Print, file: &[u8]) -> io::Result<()> {
    let whole = copied(file, file.len());
    let short = copied(file, file.len().saturating_sub(1));
    let [number, place] = short.check.err().map_or([0, 0], told_of);
    let mut page = Page::<128>::new();
    page.put(b" copy #", &[whole.len as u64]);
    page.put_if(whole.same, b" same");
    page.put_if(!whole.same, b" differs");
    page.put(b" short # #", &[number, place]);
    let faults = Faults {
        changed: !short.kept,
        ..Faults::default()
    };
    faults.put(&mut page);
    page.tell(rt)
}

// What a copy into so much of a buffer was answered, whether it is the same as the file, and whether no byte was changed: looked at of a
// refusal too.
#[derive(Clone, Copy)]
struct Copying {
    check: Result<(), Refusal>,
    len: usize,
    same: bool,
    kept: bool,
}

fn copied(file: &[u8], room: usize) -> Copying {
    let mut buffer = [0u8; BYTES];
    copied_in(file, &mut buffer[..room.min(BYTES)])
}

fn copied_in(file: &[u8], buffer: &mut [u8]) -> Copying {
    fill(buffer);
    let wrote = copy(file, buffer);
    Copying {
        check: wrote.check,
        len: wrote.len,
        same: same(buffer, file),
        kept: filled(buffer, 0),
    }
}

// ---- a show in memory

pub(crate) fn tell_written(rt: &impl Print, show: Show, hex: &[u8], room: usize) -> io::Result<()> {
    let note = Bytes::of(hex);
    let mut buffer = [0u8; BYTES];
    tell_noted(rt, show, note.as_slice(), &mut buffer[..room.min(BYTES)])
}

fn tell_noted(rt: &impl Print, show: Show, note: &[u8], buffer: &mut [u8]) -> io::Result<()> {
    fill(buffer);
    let wrote = write(show, note, buffer);
    if let Err(why) = wrote.check {
        return tell_unwritten(rt, why, show, note, buffer);
    }
    tell_wrote(rt, wrote.len, buffer)?;
    tell_again(rt, show, note, buffer)
}

fn tell_wrote(rt: &impl Print, len: usize, buffer: &[u8]) -> io::Result<()> {
    let mut page = Wide::new();
    page.put(b" -> wrote # ", &[len as u64]);
    page.put_bytes(buffer);
    page.tell(rt)
}

// A refused show is not written on the way to being read again either; the buffer is that after both calls.
fn tell_unwritten(
    rt: &impl Print,
    why: Refusal,
    show: Show,
    note: &[u8],
    buffer: &mut [u8],
) -> io::Result<()> {
    let second = reread(show, note, buffer);
    let faults = Faults {
        unlike: !alike(why, second.check),
        ..Faults::default()
    };
    let mut page = Wide::new();
    Answer::Refused(why).put(&mut page);
    page.put(b" ", &[]);
    page.put_bytes(buffer);
    faults.put(&mut page);
    page.tell(rt)
}

// The show written into a fresh buffer and read again; zeros where that is refused.
fn tell_again(rt: &impl Print, show: Show, note: &[u8], buffer: &mut [u8]) -> io::Result<()> {
    fill(buffer);
    let reading = reread(show, note, buffer);
    let mut page = Page::<64>::new();
    page.put(b" #\n", &[reading.note as u64]);
    tell_show(rt, b" reread ", reading.show)?;
    page.tell(rt)
}
