// A time in units of A x 1,000,000: a rate times a time can pass 64 bits, a rate times its parts cannot.
ghost use Rattle.std.specs.Prelude.{◌≡◌, ◌*◌, ◌≤◌};
ghost use Rattle.show.specs.Limits.{rate_most};
ghost use Rattle.count.specs.Spans.{span_of, Short, asked_of};

// unit x whole + part
#[derive(Clone, Copy)]
pub(crate) struct Span {
    pub unit: u64,
    pub whole: u64,
    pub part: u64,
}

pub(crate) fn split(block: u32, t: u64) -> Span
    requires { 1 ≤ block }
    ensures { result ≡ span_of (block * 1000000) t }
{
    let unit = block as u64 * 1_000_000;
    Span {
        unit,
        whole: t / unit,
        part: t % unit,
    }
}

// The least count that is ahead of the rate over the time.
pub(crate) fn ahead(rate: u32, span: Span) -> u64
    requires { (rate ≤ rate_most) × Short span }
    ensures { result ≡ asked_of rate span }
{
    let r = rate as u64;
    let whole = r * span.whole;
    let part = r * span.part / span.unit;
    whole + part + 1
}
