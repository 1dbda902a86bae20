// The numbers we say no with: docs/RULES.md, section 4.
ghost use Rattle.std.specs.Prelude.{◌≡◌};
ghost use Rattle.show.specs.Refusals.{told_of};

// A case for each number; 6 and 7 carry the place of their lowest offender.
#[derive(Clone, Copy)]
pub enum Refusal {
    FileLength,
    Counts,
    Distances,
    NoteLength,
    DriveLimits,
    LayoutLimits(usize),
    SessionLimits(usize),
    NoSet,
    NoSession,
    TooMuch,
    TooLong,
    NotStarted,
    ReadUnderway,
    PutLimit,
    NegativeSlack,
    BufferShort,
    NothingUnderway,
    AlreadyStarted,
    Damaged,
}

// How a refusal is told: its number, and the place, which is 0 but for 6 and 7. Numbers, since `told_of` in the contract, the desk and the
// calls for C know refusals by them; `told` is no `From`, so that the pages can name it.
#[derive(Clone, Copy)]
pub struct Told {
    pub number: u32,
    pub place: usize,
}

impl Refusal {
    pub fn told(self) -> Told
        ensures { result ≡ told_of self }
    {
        let place = 0;
        match self {
            Refusal::FileLength => Told { number: 1, place },
            Refusal::Counts => Told { number: 2, place },
            Refusal::Distances => Told { number: 3, place },
            Refusal::NoteLength => Told { number: 4, place },
            Refusal::DriveLimits => Told { number: 5, place },
            Refusal::LayoutLimits(place) => Told { number: 6, place },
            Refusal::SessionLimits(place) => Told { number: 7, place },
            Refusal::NoSet => Told { number: 8, place },
            Refusal::NoSession => Told { number: 9, place },
            Refusal::TooMuch => Told { number: 10, place },
            Refusal::TooLong => Told { number: 11, place },
            Refusal::NotStarted => Told { number: 12, place },
            Refusal::ReadUnderway => Told { number: 13, place },
            Refusal::PutLimit => Told { number: 14, place },
            Refusal::NegativeSlack => Told { number: 15, place },
            Refusal::BufferShort => Told { number: 16, place },
            Refusal::NothingUnderway => Told { number: 17, place },
            Refusal::AlreadyStarted => Told { number: 18, place },
            Refusal::Damaged => Told { number: 19, place },
        }
    }
}
