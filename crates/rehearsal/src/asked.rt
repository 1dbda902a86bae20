// What a line asks for. The words of a line have one space between.
use crate::given::{BYTES, counts_of, is_hex, low, memory_of, number_from_end};
use parse::{part, parts, place_in, same};
use parse_numbers::decimal;

// A call on the run, with its µs, its session or its session and bytes.
#[derive(Clone, Copy)]
pub(crate) enum Call {
    Choose,
    Slack,
    Start,
    Pass(u64),
    Finish(u64),
    Workahead(usize),
    Take(usize, u64),
}

// A question about the show in memory: `Worst` of a session and its blocks, `Write` into so much room.
#[derive(Clone, Copy)]
pub(crate) enum About {
    Decide,
    Why,
    Load,
    Worst(usize, u32),
    Try,
    Write(usize),
}

// A question about what its line brings.
#[derive(Clone, Copy)]
pub(crate) enum Given {
    File,
    Report,
    Explain,
    Player,
}

// A field of the run record: of the cycle, of the show in it, of one of its layouts, of one of its sessions, of one of the five lists.
#[derive(Clone, Copy)]
pub(crate) enum Field {
    Started,
    Place,
    Left,
    Under,
    Block,
    Cylinder,
    Laid,
    Playing,
    Longest,
    Track,
    Time,
    Rotation,
    Rate,
    Cushion,
    Buffer,
    Layout,
    Count,
    Put,
    Taken,
    Clock,
    Order,
}

#[derive(Clone, Copy)]
pub(crate) enum Word {
    Case,
    Policy,
    End,
    Show,
    Memory,
    Junk,
    Open,
    Save,
    Back,
    Poke(Field),
    Call(Call),
    About(About),
    Given(Given),
}

// What a line may begin with, and what may be poked.
const WORDS: &[u8] =
    b"case policy end show memory junk open save back poke choose slack start pass finish workahead take decide why load worst \
    try write file report explain player";

const FIELDS: &[u8] =
    b"started place left under A N lc sc l.far l.one l.blk l.rot s.R s.Y s.B s.lay M P G C O";

// Which of the names a word is; nothing where it is none of them.
fn name_of<'a>(names: &'a [u8], word: &[u8]) -> &'a [u8] {
    part(names, b' ', place_in(names, word))
}

// None: the line is malformed.
pub(crate) fn asked_of(line: &[u8]) -> Option<Word> {
    let last = number_from_end(line, 1).unwrap_or(0);
    let session = number_from_end(line, 2).unwrap_or(0) as usize;
    match name_of(WORDS, part(line, b' ', 0)) {
        b"case" => formed(line, b".a", Word::Case),
        b"policy" => formed(line, b".f", Word::Policy),
        b"end" => formed(line, b".", Word::End),
        b"show" => formed(line, b".h", Word::Show),
        b"memory" => formed(line, b".m", Word::Memory),
        b"junk" => formed(line, b".", Word::Junk),
        b"open" => formed(line, b".", Word::Open),
        b"save" => formed(line, b".", Word::Save),
        b"back" => formed(line, b".", Word::Back),
        b"poke" => poke_of(line),
        b"choose" => formed(line, b".", Word::Call(Call::Choose)),
        b"slack" => formed(line, b".", Word::Call(Call::Slack)),
        b"start" => formed(line, b".", Word::Call(Call::Start)),
        b"pass" => formed(line, b".l", Word::Call(Call::Pass(last))),
        b"finish" => formed(line, b".l", Word::Call(Call::Finish(last))),
        b"workahead" => formed(line, b".l", Word::Call(Call::Workahead(last as usize))),
        b"take" => formed(line, b".ll", Word::Call(Call::Take(session, last))),
        b"decide" => formed(line, b".", Word::About(About::Decide)),
        b"why" => formed(line, b".", Word::About(About::Why)),
        b"load" => formed(line, b".", Word::About(About::Load)),
        b"worst" => formed(line, b".lw", Word::About(About::Worst(session, low(last)))),
        b"try" => formed(line, b".c", Word::About(About::Try)),
        b"write" => formed(line, b".nr", Word::About(About::Write(last as usize))),
        b"file" => formed(line, b".h", Word::Given(Given::File)),
        b"report" => formed(line, b".h", Word::Given(Given::Report)),
        b"explain" => formed(line, b".h", Word::Given(Given::Explain)),
        b"player" => formed(line, b".lllwwwwbl", Word::Given(Given::Player)),
        _ => None,
    }
}

fn poke_of(line: &[u8]) -> Option<Word> {
    match name_of(FIELDS, part(line, b' ', 1)) {
        b"started" => formed(line, b"..b", Word::Poke(Field::Started)),
        b"place" => formed(line, b"..w", Word::Poke(Field::Place)),
        b"left" => formed(line, b"..w", Word::Poke(Field::Left)),
        b"under" => formed(line, b"..u", Word::Poke(Field::Under)),
        b"A" => formed(line, b"..w", Word::Poke(Field::Block)),
        b"N" => formed(line, b"..w", Word::Poke(Field::Cylinder)),
        b"lc" => formed(line, b"..w", Word::Poke(Field::Laid)),
        b"sc" => formed(line, b"..w", Word::Poke(Field::Playing)),
        b"l.far" => formed(line, b"..ew", Word::Poke(Field::Longest)),
        b"l.one" => formed(line, b"..ew", Word::Poke(Field::Track)),
        b"l.blk" => formed(line, b"..ew", Word::Poke(Field::Time)),
        b"l.rot" => formed(line, b"..ew", Word::Poke(Field::Rotation)),
        b"s.R" => formed(line, b"..iw", Word::Poke(Field::Rate)),
        b"s.Y" => formed(line, b"..iw", Word::Poke(Field::Cushion)),
        b"s.B" => formed(line, b"..iw", Word::Poke(Field::Buffer)),
        b"s.lay" => formed(line, b"..iw", Word::Poke(Field::Layout)),
        b"M" => formed(line, b"..iw", Word::Poke(Field::Count)),
        b"P" => formed(line, b"..il", Word::Poke(Field::Put)),
        b"G" => formed(line, b"..il", Word::Poke(Field::Taken)),
        b"C" => formed(line, b"..il", Word::Poke(Field::Clock)),
        b"O" => formed(line, b"..iw", Word::Poke(Field::Order)),
        _ => None,
    }
}

// The word, where the line is of its form, which has a letter for each word of the line: so that a name, its form and its word stand on one
// line each.
fn formed(line: &[u8], kinds: &[u8], word: Word) -> Option<Word> {
    let good = |(k, kind): (usize, &u8)| is_kind(part(line, b' ', k), *kind);
    let all = parts(line, b' ') == kinds.len() && kinds.iter().enumerate().all(good);
    all.then_some(word)
}

// `.` any word, `a` a name, `f` the policy, `c` counts, `h` hex, `m` a show in memory, `n` a note; others are numbers: `b` yes or no,
// `e` a layout, `i` a session, `r` the room of a buffer, `u` a read under way, `w` 32 bits, `l` 64 bits.
fn is_kind(text: &[u8], kind: u8) -> bool {
    let dash = same(text, b"-");
    match kind {
        b'.' => true,
        b'a' => !text.is_empty(),
        b'f' => same(text, b"fixed"),
        b'c' => dash || counts_of(text).is_some(),
        b'h' => dash || is_hex(text),
        b'n' => dash || text.len() <= 2 * BYTES && is_hex(text),
        b'm' => memory_of(text).is_some(),
        b'b' => is_number(text, 1),
        b'e' => is_number(text, 7),
        b'i' => is_number(text, 15),
        b'r' => is_number(text, BYTES as u64),
        b'u' => same(text, b"-1") || is_number(text, 4_294_967_295),
        b'w' => is_number(text, 4_294_967_295),
        _ => is_number(text, u64::MAX),
    }
}

fn is_number(text: &[u8], most: u64) -> bool {
    decimal(text).is_some_and(|n| n <= most)
}
