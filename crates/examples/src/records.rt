// Each record at its own size and one byte short of it, and fields where the headers put them.
use fields::endian::Endianness;
use fields::fat::{FatArch, FatHeader};
use fields::header::{MachHeader, endian_of};
use fields::kind::FileKind;
use fields::load_command::{LoadCommand, SymtabCommand};
use fields::number::Fields;
use fields::section::Section;
use fields::segment::Segment;
use fields::symbol::Nlist;
use fields::width::{Bits32, Bits64, Width};
use source::padded::Padded;
use source::plain::Plain;
use std::process::Abort;
use std::test::Fail;

// The bytes 0, 1, 2, .. 95: the byte at a place is the place.
const PLACES: [u8; 96] = [
    0, 1, 2, 3, 4, 5, 6, 7, 8, 9, 10, 11, 12, 13, 14, 15, 16, 17, 18, 19, 20, 21, 22, 23, 24, 25,
    26, 27, 28, 29, 30, 31, 32, 33, 34, 35, 36, 37, 38, 39, 40, 41, 42, 43, 44, 45, 46, 47, 48, 49,
    50, 51, 52, 53, 54, 55, 56, 57, 58, 59, 60, 61, 62, 63, 64, 65, 66, 67, 68, 69, 70, 71, 72, 73,
    74, 75, 76, 77, 78, 79, 80, 81, 82, 83, 84, 85, 86, 87, 88, 89, 90, 91, 92, 93, 94, 95,
];

// How many bytes of zeros each record needs.
fn fits<W: Width>(total: u64) -> Result<[bool; 8], Fail> {
    let s = Padded::new(b"", total)?;
    let f = Fields {
        source: &s,
        endian: Endianness::Little,
    };
    Ok([
        MachHeader::read::<Padded, W>(f).is_some(),
        LoadCommand::read(f, 0).is_some(),
        Segment::read::<Padded, W>(f, 0).is_some(),
        Section::read::<Padded, W>(f, 0).is_some(),
        SymtabCommand::read(f, 0).is_some(),
        Nlist::read::<Padded, W>(f, 0).is_some(),
        FatHeader::read(&s).is_some(),
        FatArch::read::<Padded, W>(&s, 0).is_some(),
    ])
}

fn fit_exactly<W: Width>(rt: &impl Abort, sizes: [u64; 8]) -> Result<(), Fail> {
    for (i, size) in sizes.iter().enumerate() {
        assert!(rt; *size > 0);
        let enough = fits::<W>(*size)?;
        assert_eq!(rt; enough.get(i), Some(&true));
        let short = fits::<W>(size.saturating_sub(1))?;
        assert_eq!(rt; short.get(i), Some(&false));
    }
    Ok(())
}

#[test]
fn records_are_read_exactly_when_they_are_whole(rt: HostRuntime) -> Result<(), Fail> {
    fit_exactly::<Bits32>(&rt, [28, 8, 56, 68, 24, 12, 8, 20])?;
    fit_exactly::<Bits64>(&rt, [32, 8, 72, 80, 24, 16, 8, 32])
}

#[test]
fn narrow_fields_stand_where_the_headers_put_them(rt: HostRuntime) -> Result<(), Fail> {
    let s = Plain(&PLACES);
    let f = Fields::big_endian(&s);
    let header = MachHeader::read::<Plain, Bits32>(f).ok_or("header")?;
    assert_eq!(rt; header.filetype, 0x0c0d_0e0f);
    assert_eq!(rt; header.ncmds, 0x1011_1213);
    assert_eq!(rt; header.sizeofcmds, 0x1415_1617);
    let segment = Segment::read::<Plain, Bits32>(f, 0).ok_or("segment")?;
    assert_eq!(rt; segment.fileoff, 0x2021_2223);
    assert_eq!(rt; segment.filesize, 0x2425_2627);
    assert_eq!(rt; segment.initprot, 0x2c2d_2e2f);
    assert_eq!(rt; segment.nsects, 0x3031_3233);
    assert_eq!(rt; segment.flags, 0x3435_3637);
    let section = Section::read::<Plain, Bits32>(f, 0).ok_or("section")?;
    assert_eq!(rt; section.addr, 0x2021_2223);
    assert_eq!(rt; section.size, 0x2425_2627);
    assert_eq!(rt; section.offset, 0x2829_2a2b);
    assert_eq!(rt; section.flags, 0x3839_3a3b);
    let symbol = Nlist::read::<Plain, Bits32>(f, 0).ok_or("symbol")?;
    assert_eq!(rt; symbol.n_value, 0x0809_0a0b);
    let arch = FatArch::read::<Plain, Bits32>(&s, 0).ok_or("arch")?;
    assert_eq!(rt; arch.offset, 0x0809_0a0b);
    assert_eq!(rt; arch.size, 0x0c0d_0e0f);
    Ok(())
}

#[test]
fn wide_fields_stand_where_the_headers_put_them(rt: HostRuntime) -> Result<(), Fail> {
    let s = Plain(&PLACES);
    let f = Fields::big_endian(&s);
    let segment = Segment::read::<Plain, Bits64>(f, 0).ok_or("segment")?;
    assert_eq!(rt; segment.fileoff, 0x2829_2a2b_2c2d_2e2f);
    assert_eq!(rt; segment.filesize, 0x3031_3233_3435_3637);
    assert_eq!(rt; segment.initprot, 0x3c3d_3e3f);
    assert_eq!(rt; segment.nsects, 0x4041_4243);
    assert_eq!(rt; segment.flags, 0x4445_4647);
    let section = Section::read::<Plain, Bits64>(f, 0).ok_or("section")?;
    assert_eq!(rt; section.addr, 0x2021_2223_2425_2627);
    assert_eq!(rt; section.size, 0x2829_2a2b_2c2d_2e2f);
    assert_eq!(rt; section.offset, 0x3031_3233);
    assert_eq!(rt; section.flags, 0x4041_4243);
    let symbol = Nlist::read::<Plain, Bits64>(f, 0).ok_or("symbol")?;
    assert_eq!(rt; symbol.n_strx, 0x0001_0203);
    assert_eq!(rt; symbol.n_type, 4);
    assert_eq!(rt; symbol.n_sect, 5);
    assert_eq!(rt; symbol.n_desc, 0x0607);
    assert_eq!(rt; symbol.n_value, 0x0809_0a0b_0c0d_0e0f);
    let symtab = SymtabCommand::read(f, 0).ok_or("symtab")?;
    assert_eq!(rt; symtab.symoff, 0x0809_0a0b);
    assert_eq!(rt; symtab.nsyms, 0x0c0d_0e0f);
    assert_eq!(rt; symtab.stroff, 0x1011_1213);
    assert_eq!(rt; symtab.strsize, 0x1415_1617);
    let arch = FatArch::read::<Plain, Bits64>(&s, 0).ok_or("arch")?;
    assert_eq!(rt; arch.offset, 0x0809_0a0b_0c0d_0e0f);
    assert_eq!(rt; arch.size, 0x1011_1213_1415_1617);
    Ok(())
}

#[test]
fn magics_tell_width_and_byte_order(rt: HostRuntime) {
    assert_eq!(rt;
        FileKind::of(&Plain(b"\xfe\xed\xfa\xce")),
        FileKind::MachO32(Endianness::Big)
    );
    assert_eq!(rt;
        FileKind::of(&Plain(b"\xce\xfa\xed\xfe")),
        FileKind::MachO32(Endianness::Little)
    );
    assert_eq!(rt;
        FileKind::of(&Plain(b"\xfe\xed\xfa\xcf")),
        FileKind::MachO64(Endianness::Big)
    );
    assert_eq!(rt;
        FileKind::of(&Plain(b"\xcf\xfa\xed\xfe")),
        FileKind::MachO64(Endianness::Little)
    );
    assert_eq!(rt;
        FileKind::of(&Plain(b"\xca\xfe\xba\xbe")),
        FileKind::MachOFat32
    );
    assert_eq!(rt;
        FileKind::of(&Plain(b"\xca\xfe\xba\xbf")),
        FileKind::MachOFat64
    );
    assert_eq!(rt; FileKind::of(&Plain(b"\xfe\xed\xfa")), FileKind::Other);
    assert_eq!(rt; FileKind::of(&Plain(b"\x7fELF")), FileKind::Other);
    assert_eq!(rt; endian_of::<Bits32>(0xfeed_facf), None);
    assert_eq!(rt; endian_of::<Bits64>(0xcffa_edfe), Some(Endianness::Little));
}
