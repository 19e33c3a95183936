// Which section names a query means. Programs ask for `.text` or `.debug_info` as other formats
// name them; this one has `__text` and `__debug_info`, or `__zdebug_info` where it is compressed.
ghost use Rattle.std.specs.Prelude.{◌≡◌, ◌++◌, take, codes, Decides};
ghost use Rattle.sections.specs.Queries.{Led, Matching, matching};

// Whether the name begins with `has` and goes on as the rest of a query does, for `room` bytes at most.
fn goes_on(name: &[u8], has: &[u8], rest: &[u8], room: usize) -> bool
    ensures { Decides result (name.now ≡ has.now ++ take room rest.now) }
{
    name.strip_prefix(has) == Some(&rest[..room.min(rest.len())])
}

// `.text` means `__text`. The dot is taken off by a pattern, as the design has it, and a pattern is no
// parameter: so there are two functions, which share what follows.
fn dotted(query: &[u8], name: &[u8]) -> bool
    ensures { Decides result (Led (codes ".") (codes "__") 14 query.now name.now) }
{
    match query {
        [b'.', rest @ ..] => goes_on(name, b"__", rest, 14),
        _ => false,
    }
}

// `.debug_info` means `__zdebug_info` too.
fn zipped(query: &[u8], name: &[u8]) -> bool
    ensures { Decides result (Led (codes ".debug_") (codes "__zdebug_") 7 query.now name.now) }
{
    match query {
        [b'.', b'd', b'e', b'b', b'u', b'g', b'_', rest @ ..] => {
            goes_on(name, b"__zdebug_", rest, 7)
        }
        _ => false,
    }
}

// Whether a section of this name is meant.
pub fn name_matches(query: &[u8], name: &[u8]) -> bool
    ensures value { result ≡ matching query.now name.now }
    ensures meant { Decides result (Matching query.now name.now) }
{
    name == query || dotted(query, name) || zipped(query, name)
}
