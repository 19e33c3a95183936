// Numbers in both byte orders, and names of sixteen bytes.
use fields::endian::Endianness;
use fields::name::Name;
use fields::number::Fields;
use source::plain::Plain;

#[test]
fn numbers_are_read_exactly_when_enough_bytes_remain(rt: HostRuntime) {
    let s = Plain(b"\x01\x02\x03\x04\x05\x06\x07\x88\x99");
    let big = Fields::big_endian(&s);
    let little = Fields {
        source: &s,
        endian: Endianness::Little,
    };
    assert_eq!(rt; little.u16_at(0), Some(0x0201));
    assert_eq!(rt; big.u16_at(7), Some(0x8899));
    assert_eq!(rt; big.u16_at(8), None);
    assert_eq!(rt; little.u32_at(1), Some(0x0504_0302));
    assert_eq!(rt; big.u32_at(5), Some(0x0607_8899));
    assert_eq!(rt; big.u32_at(6), None);
    assert_eq!(rt; little.u64_at(0), Some(0x8807_0605_0403_0201));
    assert_eq!(rt; big.u64_at(1), Some(0x0203_0405_0607_8899));
    assert_eq!(rt; big.u64_at(2), None);
    assert_eq!(rt; big.u32_at(u64::MAX), None);
    assert_eq!(rt; Fields::big_endian(&Plain(b"")).u16_at(0), None);
}

#[test]
fn names_end_before_a_zero_or_after_sixteen_bytes_or_with_the_source(rt: HostRuntime) {
    let s = Plain(b"__text\0\0garbage!__a_longer_name__abc");
    assert_eq!(rt; Name::read(&s, 0).as_bytes(), b"__text".as_slice());
    assert_eq!(rt; Name::read(&s, 6).as_bytes(), b"".as_slice());
    assert_eq!(rt;
        Name::read(&s, 16).as_bytes(),
        b"__a_longer_name_".as_slice()
    );
    assert_eq!(rt; Name::read(&s, 33).as_bytes(), b"abc".as_slice());
    assert_eq!(rt; Name::read(&s, 36).as_bytes(), b"".as_slice());
    assert_eq!(rt; Name::read(&s, u64::MAX).as_bytes(), b"".as_slice());
}
