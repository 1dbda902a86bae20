// What is written: a page is put together, and told. An `Err`: something could not be written.
use std::io;
use text_forms::hex::put_hex;
use text_forms::put_form;

pub(crate) fn say(rt: &impl Print, bytes: &[u8]) -> io::Result<()> {
    rt.write_all(bytes)
}

pub(crate) fn complain(rt: &impl Eprint, line: &str) {
    let _ = rt.eprint(line);
}

// N bytes, and where what is put on them ends: there is no heap. What no longer fits is not put. Forms with # are those of the library
// text_forms: with `Display` and `write!` in their place, each text would have a `Result` to hand on, of a write to memory that does not fail.
#[derive(Clone, Copy)]
pub(crate) struct Page<const N: usize> {
    bytes: [u8; N],
    end: usize,
}

impl<const N: usize> Page<N> {
    pub(crate) fn new() -> Page<N> {
        Page {
            bytes: [0; N],
            end: 0,
        }
    }

    // A text, with a number in the place of each #.
    pub(crate) fn put(&mut self, form: &[u8], numbers: &[u64]) {
        self.end = put_form(&mut self.bytes, self.end, form, numbers);
    }

    // In hex, a dash for none.
    pub(crate) fn put_bytes(&mut self, bytes: &[u8]) {
        self.end = put_hex(&mut self.bytes, self.end, bytes);
    }

    // With commas between, a dash for none.
    pub(crate) fn put_list(&mut self, numbers: &[u64]) {
        if numbers.is_empty() {
            self.put(b"-", &[]);
        }
        for (i, &n) in numbers.iter().enumerate() {
            self.put_if(i != 0, b",");
            self.put(b"#", &[n]);
        }
    }

    pub(crate) fn put_if(&mut self, there: bool, word: &[u8]) {
        if there {
            self.put(word, &[]);
        }
    }

    // Cut to the page: that the end lies on it is so by the contract of `put_form`, and would take a lemma here.
    pub(crate) fn tell(&self, rt: &impl Print) -> io::Result<()> {
        say(rt, &self.bytes[..self.end.min(N)])
    }
}
