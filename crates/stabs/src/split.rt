// The name of an object file, split where it is that of a member of an archive: `lib.a(member.o)`.
ghost use Rattle.std.specs.Prelude.{◌≡◌, MatchOption};
ghost use Rattle.stabs.specs.Splits.{split_of};

use source::source::Source;
use source::span::Span;

// The path and the member of a name that ends in `)` and has a `(`: it parts at the first one.
fn parts<S: Source>(s: &S, name: Span) -> Option<(Span, Span)>
    ensures { MatchOption result (split_of (S.Source.bytes s.now) name ≡ (name, None)) (λ p. split_of (S.Source.bytes s.now) name ≡ (p.0, Some p.1)) }
{
    let len = name.len.min(s.len().saturating_sub(name.start));
    let last = len.checked_sub(1)?;
    if s.byte(name.start + last) != Some(b')') {
        return None;
    }
    let open = s.find(name.start, name.start + last, b'(')?;
    let path = Span {
        start: name.start,
        len: open,
    };
    let member = Span {
        start: name.start + open + 1,
        len: last - open - 1,
    };
    Some((path, member))
}

// The path, and the member if the name ends in `)` and has a `(`: it parts at the first one.
pub fn split_object_name<S: Source>(s: &S, name: Span) -> (Span, Option<Span>)
    ensures { result ≡ split_of (S.Source.bytes s.now) name }
{
    match parts(s, name) {
        Some((path, member)) => (path, Some(member)),
        None => (name, None),
    }
}
