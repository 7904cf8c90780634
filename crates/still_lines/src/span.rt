// The least and the greatest of some samples.
ghost use Rattle.std.specs.Prelude.{◌≡◌, ◌<◌, ◌≤◌, length};
ghost use Rattle.still_lines.specs.Spans.{part, span_of, widened_by};

#[derive(Clone, Copy)]
pub(crate) struct Span {
    pub least: i32,
    pub greatest: i32,
}

fn widened(s: Span, z: i32) -> Span
    ensures { result ≡ widened_by s z }
{
    Span {
        least: s.least.min(z),
        greatest: z.max(s.greatest),
    }
}

pub(crate) fn span_of(samples: &[i32], from: usize, to: usize) -> Span
    requires { (from < to) × (to ≤ length samples.now) }
    ensures { result ≡ span_of (part samples.now from to) }
{
    let first = samples[from];
    let mut s = Span {
        least: first,
        greatest: first,
    };
    for z in &samples[from + 1..to] {
        s = widened(s, *z);
    }
    s
}
