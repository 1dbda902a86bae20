// The line that tells the whole run record.
use crate::output::Page;
use run::Run;
use std::io;

// One of the five lists of a run, and its letter.
#[derive(Clone, Copy)]
struct List {
    name: u8,
    numbers: [u64; 16],
}

impl List {
    fn new(name: u8, numbers: [u64; 16]) -> List {
        List { name, numbers }
    }
}

// A line's page: the longest record has fewer bytes.
type Line = Page<4096>;

pub(crate) fn tell_record(rt: &impl Print, run: Run) -> io::Result<()> {
    let mut page = Line::new();
    let used = run.show.playing.min(16);
    let lists = lists_of(run);
    put_cycle(&mut page, run);
    put_used(&mut page, used, &lists);
    put_unused(&mut page, used, &lists);
    page.tell(rt)
}

fn lists_of(run: Run) -> [List; 5] {
    [
        List::new(b'M', run.counts.map(u64::from)),
        List::new(b'P', run.states.map(|s| s.put)),
        List::new(b'G', run.states.map(|s| s.taken)),
        List::new(b'C', run.states.map(|s| s.clock)),
        List::new(b'O', run.order.map(u64::from)),
    ]
}

fn put_cycle(page: &mut Line, run: Run) {
    page.put(
        b"= started=# place=# left=# under=",
        &[run.started as u64, run.place as u64, run.left as u64],
    );
    match run.underway {
        None => page.put(b"-", &[]),
        Some(session) => page.put(b"#", &[session as u64]),
    }
}

fn put_used(page: &mut Line, used: usize, lists: &[List]) {
    for list in lists {
        page.put(&[b' ', list.name, b'='], &[]);
        page.put_list(&list.numbers[..used.min(16)]);
    }
}

// The unused places that are not zero.
fn put_unused(page: &mut Line, used: usize, lists: &[List]) {
    let mut none = true;
    page.put(b" X=", &[]);
    for list in lists {
        for (i, &value) in list.numbers.iter().enumerate().skip(used) {
            if value != 0 {
                page.put_if(!none, b",");
                page.put(&[list.name, b'#', b':', b'#'], &[i as u64, value]);
                none = false;
            }
        }
    }
    page.put_if(none, b"-");
    page.put(b"\n", &[]);
}
