// The edges of each make of source.
use source::join::Join;
use source::padded::Padded;
use source::part::PartSource;
use source::plain::Plain;
use source::refusal::{Level, Said};
use source::source::Source;
use source::window::Window;
use std::test::Fail;

#[test]
fn plain_bytes_end_at_their_length(rt: HostRuntime) {
    let s = Plain(b"abcd");
    assert_eq!(rt; s.len(), 4);
    assert_eq!(rt; s.byte(0), Some(b'a'));
    assert_eq!(rt; s.byte(3), Some(b'd'));
    assert_eq!(rt; s.byte(4), None);
    assert_eq!(rt; s.byte(u64::MAX), None);
    let none = Plain(b"");
    assert_eq!(rt; none.len(), 0);
    assert_eq!(rt; none.byte(0), None);
}

#[test]
fn padding_is_zeros_up_to_the_length(rt: HostRuntime) -> Result<(), Fail> {
    let s = Padded::new(b"ab", 5)?;
    assert_eq!(rt; s.len(), 5);
    assert_eq!(rt; s.byte(1), Some(b'b'));
    assert_eq!(rt; s.byte(2), Some(0));
    assert_eq!(rt; s.byte(4), Some(0));
    assert_eq!(rt; s.byte(5), None);
    let all_head = Padded::new(b"ab", 2)?;
    assert_eq!(rt; all_head.byte(2), None);
    let under = Padded::new(b"ab", 1).err();
    assert_eq!(rt; under.map(Said::from), Some((15, Level::Source, 0)));
    Ok(())
}

#[test]
fn windows_pass_no_source(rt: HostRuntime) -> Result<(), Fail> {
    let four = Plain(b"abcd");
    let none = Window::new(&four, 4, 0)?;
    assert_eq!(rt; none.len(), 0);
    assert_eq!(rt; none.byte(0), None);
    let last = Window::new(&four, 2, 2)?;
    assert_eq!(rt; last.len(), 2);
    assert_eq!(rt; last.byte(1), Some(b'd'));
    assert_eq!(rt; last.byte(2), None);
    // start and count; the start is the place of the refusal
    let past = [(3, 2), (5, 0), (0, 5), (1, u64::MAX), (u64::MAX, 1)];
    for (start, count) in past {
        let refusal = Window::new(&four, start, count).err();
        assert_eq!(rt; refusal.map(Said::from), Some((14, Level::Source, start)));
    }
    Ok(())
}

#[test]
fn a_window_of_a_window_counts_from_the_inner_start(rt: HostRuntime) -> Result<(), Fail> {
    let six = Plain(b"abcdef");
    let outer = Window::new(&six, 1, 4)?;
    let inner = Window::new(&outer, 1, 3)?;
    assert_eq!(rt; inner.byte(0), Some(b'c'));
    assert_eq!(rt; inner.byte(2), Some(b'e'));
    assert_eq!(rt; inner.byte(3), None);
    let past = Window::new(&outer, 1, 4).err();
    assert_eq!(rt; past.map(Said::from), Some((14, Level::Source, 1)));
    Ok(())
}

#[test]
fn parts_are_handed_out_exactly_when_there(rt: HostRuntime) -> Result<(), Fail> {
    let six = Plain(b"abcdef");
    assert_eq!(rt; six.part(2, 3), Some(&b"cde"[..]));
    assert_eq!(rt; six.part(6, 0), Some(&b""[..]));
    assert_eq!(rt; six.part(7, 0), None);
    assert_eq!(rt; six.part(5, 2), None);
    let w = Window::new(&six, 1, 4)?;
    assert_eq!(rt; w.part(0, 4), Some(&b"bcde"[..]));
    assert_eq!(rt; w.part(4, 0), Some(&b""[..]));
    assert_eq!(rt; w.part(1, 4), None);
    assert_eq!(rt; w.part(5, 0), None);
    Ok(())
}

#[test]
fn joins_have_at_most_all_lengths_of_64_bits(rt: HostRuntime) -> Result<(), Fail> {
    let front = Padded::new(b"ab", u64::MAX - 2)?;
    let j = Join::new(front, Plain(b"yz"))?;
    assert_eq!(rt; j.len(), u64::MAX);
    assert_eq!(rt; j.byte(0), Some(b'a'));
    assert_eq!(rt; j.byte(u64::MAX - 3), Some(0));
    assert_eq!(rt; j.byte(u64::MAX - 2), Some(b'y'));
    assert_eq!(rt; j.byte(u64::MAX - 1), Some(b'z'));
    assert_eq!(rt; j.byte(u64::MAX), None);
    let too_long = Join::new(front, Plain(b"xyz")).err();
    assert_eq!(rt; too_long.map(Said::from), Some((15, Level::Source, 0)));
    Ok(())
}

#[test]
fn a_join_of_windows_reads_across_the_seam(rt: HostRuntime) -> Result<(), Fail> {
    let six = Plain(b"abcdef");
    let front = Window::new(&six, 4, 2)?;
    let back = Window::new(&six, 0, 2)?;
    let j = Join::new(front, back)?;
    let middle = Window::new(&j, 1, 2)?;
    assert_eq!(rt; middle.byte(0), Some(b'f'));
    assert_eq!(rt; middle.byte(1), Some(b'a'));
    assert_eq!(rt; middle.byte(2), None);
    Ok(())
}
