// The cycle, when a block has come: numbers only, so that no run is copied.
ghost use Rattle.std.specs.Prelude.{◌≡◌, ◌<◌};
ghost use Rattle.playback.specs.Parts.{place_after, counted_off};

// The place stays while blocks are left; after the last place comes the first.
pub(crate) fn place_after(place: usize, left: u32, playing: usize) -> usize
    requires { place < playing }
    ensures { result ≡ place_after place left playing }
{
    if 1 < left {
        place
    } else {
        (place + 1) % playing
    }
}

// One block fewer is left; at none left the next operation's.
pub(crate) fn count_off(left: u32, fresh: u32) -> u32
    ensures { result ≡ counted_off left fresh }
{
    if 1 < left { left - 1 } else { fresh }
}
