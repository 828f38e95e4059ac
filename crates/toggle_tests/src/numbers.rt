//! A toggle list of numbers, and the search.
use toggles::{Full, Toggles, find_place};

fn first_three(list: &Toggles<u32>) -> [Option<u32>; 3] {
    [list.get(0), list.get(1), list.get(2)]
}

#[test]
fn present_keys_rise(rt: HostRuntime) {
    let mut places = [0; 4];
    let mut list = Toggles::new(&mut places);
    assert!(rt; list.is_empty());
    for key in [7, 3, 5] {
        assert_eq!(rt; list.toggle(key), Ok(()));
    }
    assert_eq!(rt; first_three(&list), [Some(3), Some(5), Some(7)]);
    assert!(rt; list.has(&5) && !list.has(&4));
    assert_eq!(rt; list.toggle(5), Ok(()));
    assert!(rt; !list.has(&5));
    assert_eq!(rt; first_three(&list), [Some(3), Some(7), None]);
}

#[test]
fn a_full_list_refuses_a_new_key_and_gives_back_an_old_one(rt: HostRuntime) {
    let mut places = [0; 2];
    let mut list = Toggles::new(&mut places);
    assert_eq!(rt; list.toggle(9), Ok(()));
    assert_eq!(rt; list.toggle(1), Ok(()));
    assert_eq!(rt; list.toggle(4), Err(Full));
    assert_eq!(rt; list.len(), 2);
    assert_eq!(rt; first_three(&list), [Some(1), Some(9), None]);
    assert_eq!(rt; list.toggle(1), Ok(()));
    assert_eq!(rt; first_three(&list), [Some(9), None, None]);
}

#[test]
fn places(rt: HostRuntime) {
    let keys = [2, 5, 9];
    assert_eq!(rt; find_place(&keys, &5), Ok(1));
    assert_eq!(rt; find_place(&keys, &1), Err(0));
    assert_eq!(rt; find_place(&keys, &10), Err(3));
}
