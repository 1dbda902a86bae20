// One field of a run record overwritten.
use crate::asked::Field;
use crate::given::{low, number_from_end};
use run::Run;

// The last number of the line is the value; before it stands the index of a field that there are several of. The line was tested for both.
// A read under way is one where there is a number.
pub(crate) fn poke(run: Run, field: Field, line: &[u8]) -> Run {
    let number = number_from_end(line, 1);
    let value = number.unwrap_or(0);
    let n = low(value);
    let i = number_from_end(line, 2).unwrap_or(0) as usize % 16;
    let mut next = run;
    match field {
        Field::Started => next.started = value == 1,
        Field::Place => next.place = value as usize,
        Field::Left => next.left = n,
        Field::Under => next = run.with_cycle(
            run.place,
            run.left,
            number.map(|session| session as usize),
        ),
        Field::Block => next.show.drive.block = n,
        Field::Cylinder => next.show.drive.cylinder = n,
        Field::Laid => next.show.laid = value as usize,
        Field::Playing => next.show.playing = value as usize,
        Field::Longest => next.show.layouts[i % 8].longest = n,
        Field::Track => next.show.layouts[i % 8].track = n,
        Field::Time => next.show.layouts[i % 8].time = n,
        Field::Rotation => next.show.layouts[i % 8].rotation = n,
        Field::Rate => next.show.sessions[i].rate = n,
        Field::Cushion => next.show.sessions[i].cushion = n,
        Field::Buffer => next.show.sessions[i].buffer = n,
        Field::Layout => next.show.sessions[i].layout = n,
        Field::Count => next.counts[i] = n,
        Field::Put => next.states[i].put = value,
        Field::Taken => next.states[i].taken = value,
        Field::Clock => next.states[i].clock = value,
        Field::Order => next.order[i] = n,
    }
    next
}
