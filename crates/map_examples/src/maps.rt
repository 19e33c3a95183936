// The object map of small libraries.
use crate::library::{library, nlist, reading_of, span, symbol_place};
use fields::endian::Endianness;
use fields::symbol::Nlist;
use fields::width::{Bits32, Bits64, Width};
use list::list::List;
use reader::reading::Reading;
use reader::state::MapAnswer;
use source::plain::Plain;
use source::refusal::{Level, Said};
use stabs::map::{MapEntry, MapFile};
use stabs::stab::{N_FUN, N_OSO, N_SO, N_STSYM};
use std::alloc::Global;
use std::process::Abort;
use std::test::Fail;

// The names `f` at 2, `a.o` at 4, `lib.a(x.o)` at 8 and `g` at 19. Index 0 is the empty name, though
// a space stands there.
const STRINGS: &[u8] = b" \0f\0a.o\0lib.a(x.o)\0g\0";

fn stab(n_type: u8, n_strx: u32, n_value: u64) -> Nlist {
    nlist(n_strx, n_type, 0, 0, n_value)
}

fn file<W: Width>(path: (u64, u64), member: Option<(u64, u64)>) -> MapFile {
    MapFile {
        path: span::<W>(path.0, path.1),
        member: member.map(|(index, len)| span::<W>(index, len)),
    }
}

fn entry<W: Width>(address: u64, size: u64, index: u64, file: u64) -> MapEntry {
    MapEntry {
        address,
        size,
        name: span::<W>(index, 1),
        file,
    }
}

// The map's next steps answer so.
fn steps<W: Width>(
    rt: &impl Abort,
    reading: &mut Reading<Plain, W>,
    files: &mut List<MapFile>,
    entries: &mut List<MapEntry>,
    expected: &[Result<MapAnswer, Said>],
) {
    for answer in expected {
        assert_eq!(rt;
            reading.map_step(files, entries).map_err(Said::from),
            *answer
        );
    }
}

// The map of symbols has these files and entries, and no more.
fn maps_to<W: Width + Drop>(
    rt: &impl Abort,
    heap: Global,
    width: W,
    endian: Endianness,
    symbols: &[Nlist],
    files_expected: &[MapFile],
    entries_expected: &[MapEntry],
) -> Result<(), Fail> {
    let mut files = [MapFile::default(); 2];
    let mut entries = [MapEntry::default(); 3];
    let mut files = List::new(&mut files);
    let mut entries = List::new(&mut entries);
    let bytes = library::<W>(heap, endian, STRINGS, symbols)?;
    let mut reading = reading_of(rt, &bytes, width)?;
    for _ in symbols {
        steps(
            rt,
            &mut reading,
            &mut files,
            &mut entries,
            &[Ok(MapAnswer::Passed)],
        );
    }
    let end = Ok(MapAnswer::End);
    steps(rt, &mut reading, &mut files, &mut entries, &[end, end]);
    assert_eq!(rt; files.records(), files_expected);
    assert_eq!(rt; entries.records(), entries_expected);
    Ok(())
}

fn maps_hold<W: Width + Copy>(
    rt: &impl Abort,
    heap: Global,
    width: W,
    e: Endianness,
) -> Result<(), Fail> {
    let a = file::<W>((4, 3), None);
    let x = file::<W>((8, 5), Some((14, 3)));
    // A file, a function, a static variable and another file; other symbols pass.
    maps_to(
        rt,
        heap,
        width,
        e,
        &[
            stab(N_SO, 4, 0),
            stab(N_OSO, 8, 0),
            stab(N_FUN, 2, 16),
            stab(N_FUN, 0, 8),
            stab(N_STSYM, 19, 32),
            stab(N_SO, 0, 0),
            stab(0x0f, 2, 16),
            stab(N_OSO, 4, 0),
            stab(N_STSYM, 19, 40),
        ],
        &[x, a],
        &[
            entry::<W>(16, 8, 2, 0),
            entry::<W>(32, 0, 19, 0),
            entry::<W>(40, 0, 19, 1),
        ],
    )?;
    // A function that is open outlasts its file, and closes under the next.
    maps_to(
        rt,
        heap,
        width,
        e,
        &[
            stab(N_OSO, 4, 0),
            stab(N_FUN, 2, 16),
            stab(N_SO, 0, 0),
            stab(N_OSO, 8, 0),
            stab(N_FUN, 1, 8),
        ],
        &[a, x],
        &[entry::<W>(16, 8, 2, 1)],
    )?;
    // A closing under no file spends the function.
    maps_to(
        rt,
        heap,
        width,
        e,
        &[
            stab(N_FUN, 2, 16),
            stab(N_FUN, 0, 8),
            stab(N_OSO, 4, 0),
            stab(N_FUN, 0, 8),
        ],
        &[a],
        &[],
    )?;
    // A name that cannot be read opens no function; an empty one ends the file.
    maps_to(
        rt,
        heap,
        width,
        e,
        &[
            stab(N_OSO, 4, 0),
            stab(N_FUN, 2, 16),
            stab(N_FUN, 21, 24),
            stab(N_FUN, 0, 8),
            stab(N_OSO, 0, 0),
            stab(N_STSYM, 19, 32),
        ],
        &[a],
        &[entry::<W>(16, 8, 2, 0)],
    )
}

#[test]
fn maps_list_files_and_entries(rt: HostRuntime) -> Result<(), Fail> {
    maps_hold(&rt, rt.alloc(), Bits32, Endianness::Little)?;
    maps_hold(&rt, rt.alloc(), Bits32, Endianness::Big)?;
    maps_hold(&rt, rt.alloc(), Bits64, Endianness::Little)?;
    maps_hold(&rt, rt.alloc(), Bits64, Endianness::Big)
}

#[test]
fn a_full_list_refuses_and_nothing_changes(rt: HostRuntime) -> Result<(), Fail> {
    let symbols = [stab(N_OSO, 4, 0), stab(N_FUN, 2, 16), stab(N_FUN, 0, 8)];
    let bytes = library::<Bits64>(rt.alloc(), Endianness::Little, STRINGS, &symbols)?;
    let mut reading = reading_of(&rt, &bytes, Bits64)?;
    let mut no_files = [];
    let mut no_entries = [];
    let mut file_slots = [MapFile::default(); 1];
    let mut entry_slots = [MapEntry::default(); 1];
    let passed = Ok(MapAnswer::Passed);
    let end = Ok(MapAnswer::End);
    let first = Err((7, Level::Reading, symbol_place::<Bits64>(21, 0)));
    let third = Err((7, Level::Reading, symbol_place::<Bits64>(21, 2)));
    let mut full_files = List::new(&mut no_files);
    let mut full_entries = List::new(&mut no_entries);
    let mut files = List::new(&mut file_slots);
    let mut entries = List::new(&mut entry_slots);
    // No room for a file
    steps(
        &rt,
        &mut reading,
        &mut full_files,
        &mut entries,
        &[first, first],
    );
    // No room for an entry
    steps(
        &rt,
        &mut reading,
        &mut files,
        &mut full_entries,
        &[passed, passed, third, third],
    );
    // Room for both
    assert_eq!(rt; entries.count(), 0);
    steps(&rt, &mut reading, &mut files, &mut entries, &[passed, end]);
    let file = file::<Bits64>((4, 3), None);
    assert_eq!(rt; files.records(), [file].as_slice());
    let entry = entry::<Bits64>(16, 8, 2, 0);
    assert_eq!(rt; entries.records(), [entry].as_slice());
    Ok(())
}
