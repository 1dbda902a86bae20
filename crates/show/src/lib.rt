// A show: one drive, its layouts and its sessions, the limits of each, and the test of a whole show.
#![tactic(auto)]

pub mod refusal;

ghost use Rattle.std.specs.Prelude.{◌≡◌};
ghost use Rattle.show.specs.Limits.{Tells, DriveWithin, LayoutWithin, SessionWithin, CountsWithin, no_show};
ghost use Rattle.show.specs.Checks.{show_check};

use crate::refusal::Refusal;

// A and N of the rules: bytes in a block, blocks on a cylinder.
#[derive(Clone, Copy)]
pub struct Drive {
    pub block: u32,
    pub cylinder: u32,
}

// Where a clip lies on the disk, by its four times in µs.
#[derive(Clone, Copy)]
pub struct Layout {
    pub longest: u32,
    pub track: u32,
    pub time: u32,
    pub rotation: u32,
}

// R, Y and B of a clip, and the number of its layout.
#[derive(Clone, Copy)]
pub struct Session {
    pub rate: u32,
    pub cushion: u32,
    pub buffer: u32,
    pub layout: u32,
}

// The first `laid` layouts and the first `playing` sessions are the show; the places above are not looked at.
// Arrays by value with their counts beside them: a rule of the project (docs/DECISIONS.md, "Forms"), and no heap.
#[derive(Clone, Copy)]
pub struct Show {
    pub drive: Drive,
    pub layouts: [Layout; 8],
    pub laid: usize,
    pub sessions: [Session; 16],
    pub playing: usize,
}

impl Drive {
    pub const BLOCK_LEAST: u32 = 512;

    pub const BLOCK_MOST: u32 = 65_536;

    pub const BLOCK_STEP: u32 = 512;

    pub const CYLINDER_LEAST: u32 = 1;

    pub const CYLINDER_MOST: u32 = 65_536;

    pub fn within(self) -> bool
        ensures { Tells result (DriveWithin self) }
    {
        (Drive::BLOCK_LEAST..=Drive::BLOCK_MOST).contains(&self.block)
            && self.block % Drive::BLOCK_STEP == 0
            && (Drive::CYLINDER_LEAST..=Drive::CYLINDER_MOST).contains(&self.cylinder)
    }
}

impl Layout {
    pub const LONGEST_MOST: u32 = 1_000_000;

    pub const TIME_LEAST: u32 = 1;

    pub const TIME_MOST: u32 = 1_000_000;

    pub const ROTATION_MOST: u32 = 1_000_000;

    pub fn within(self) -> bool
        ensures { Tells result (LayoutWithin self) }
    {
        self.longest <= Layout::LONGEST_MOST
            && self.track <= self.longest
            && (Layout::TIME_LEAST..=Layout::TIME_MOST).contains(&self.time)
            && self.rotation <= Layout::ROTATION_MOST
    }
}

impl Session {
    pub const RATE_LEAST: u32 = 1;

    pub const RATE_MOST: u32 = 100_000_000;

    pub const CUSHION_LEAST: u32 = 1;

    pub const CUSHION_MOST: u32 = 16_777_216;

    pub const BUFFER_LEAST: u32 = 1;

    pub const BUFFER_MOST: u32 = 1_073_741_824;

    // `laid` is the show's layout count.
    pub fn within(self, laid: usize) -> bool
        ensures { Tells result (SessionWithin laid self) }
    {
        (Session::RATE_LEAST..=Session::RATE_MOST).contains(&self.rate)
            && (Session::CUSHION_LEAST..=Session::CUSHION_MOST).contains(&self.cushion)
            && (Session::BUFFER_LEAST..=Session::BUFFER_MOST).contains(&self.buffer)
            && (self.layout as usize) < laid
    }
}

impl Show {
    pub const LAID_LEAST: usize = 1;

    pub const LAID_MOST: usize = 8;

    pub const PLAYING_MOST: usize = 16;

    // Zeros throughout, for an answer that has no show. By its fields, as `no_show` in the contract is; a derived `Default` would be a second name.
    pub fn nothing() -> Show
        ensures { result ≡ no_show }
    {
        let layout = Layout {
            longest: 0,
            track: 0,
            time: 0,
            rotation: 0,
        };
        let session = Session {
            rate: 0,
            cushion: 0,
            buffer: 0,
            layout: 0,
        };
        Show {
            drive: Drive {
                block: 0,
                cylinder: 0,
            },
            layouts: [layout; 8],
            laid: 0,
            sessions: [session; 16],
            playing: 0,
        }
    }

    // The test of refusal 2 alone, for whoever has the counts before the show.
    pub fn counts_within(laid: usize, playing: usize) -> bool
        ensures { Tells result (CountsWithin laid playing) }
    {
        (Show::LAID_LEAST..=Show::LAID_MOST).contains(&laid) && playing <= Show::PLAYING_MOST
    }

    // The tests of refusals 2, 5, 6 and 7, in this order. Both loops stand here so that neither copies the show.
    pub fn check(self) -> Result<(), Refusal>
        ensures { result ≡ show_check self }
    {
        if !Show::counts_within(self.laid, self.playing) {
            return Err(Refusal::Counts);
        }
        if !self.drive.within() {
            return Err(Refusal::DriveLimits);
        }
        for (i, layout) in self.layouts[..self.laid].iter().enumerate() {
            if !layout.within() {
                return Err(Refusal::LayoutLimits(i));
            }
        }
        for (k, session) in self.sessions[..self.playing].iter().enumerate() {
            if !session.within(self.laid) {
                return Err(Refusal::SessionLimits(k));
            }
        }
        Ok(())
    }
}
