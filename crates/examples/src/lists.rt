// Lists of two kinds of record, filled up and past.
use list::list::List;
use source::refusal::{Level, Said};

#[test]
fn a_full_list_refuses_and_keeps_every_slot(rt: HostRuntime) {
    let mut slots = [9u16; 3];
    {
        let mut list = List::new(&mut slots);
        assert_eq!(rt; list.free(), 3);
        assert_eq!(rt; list.get(0), None);
        assert_eq!(rt; list.push(7, 40), Ok(()));
        assert_eq!(rt; list.push(8, 41), Ok(()));
        assert_eq!(rt; list.get(1), Some(8));
        assert_eq!(rt; list.get(2), None);
        assert_eq!(rt; list.push(6, 42), Ok(()));
        let full = (7, Level::Reading, 43);
        assert_eq!(rt; list.push(5, 43).map_err(Said::from), Err(full));
        assert_eq!(rt; list.count(), 3);
        assert_eq!(rt; list.free(), 0);
    }
    assert_eq!(rt; slots, [7, 8, 6]);
}

#[test]
fn slots_past_the_count_keep_what_they_held(rt: HostRuntime) {
    let mut slots = [(1u8, 2u64); 2];
    {
        let mut list = List::new(&mut slots);
        assert_eq!(rt; list.push((3, 4), 0), Ok(()));
    }
    assert_eq!(rt; slots, [(3, 4), (1, 2)]);
}

#[test]
fn a_list_of_no_slots_is_full(rt: HostRuntime) {
    let mut slots = [0u8; 0];
    let mut list = List::new(&mut slots);
    assert!(rt; list.push(1, 0).is_err());
    assert_eq!(rt; list.count(), 0);
}
