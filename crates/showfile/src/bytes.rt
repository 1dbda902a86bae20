// Numbers in a file, the lowest byte first: of two bytes and of four, each by the library's own call.
ghost use Rattle.std.specs.Prelude.{◌≡◌, ◌≤◌, length};
ghost use Rattle.showfile.specs.Bytes.{word_of, half_of};

#[tactic(auto, unfolding(crate::specs::Bytes::word_of))]
pub(crate) fn get_word(s: &[u8]) -> u32
    requires { 4 ≤ length s.now }
    ensures { result ≡ word_of s.now }
{
    u32::from_le_bytes([s[0], s[1], s[2], s[3]])
}

#[tactic(auto, unfolding(crate::specs::Bytes::half_of))]
pub(crate) fn get_half(s: &[u8]) -> usize
    requires { 2 ≤ length s.now }
    ensures { result ≡ half_of s.now }
{
    u16::from_le_bytes([s[0], s[1]]) as usize
}
