use tables::{Scale, Table, is_short};

#[test]
fn entries_repeat_after_the_length(rt: HostRuntime) {
    assert_eq!(rt; Table::Cosines.entry(Scale::Standard, 5, 2), Some(-13255));
    assert_eq!(rt; Table::Cosines.entry(Scale::Standard, 5, 3), Some(-13255));
    assert_eq!(rt; Table::Cosines.entry(Scale::Standard, 5, 7), Some(-13255));
    assert_eq!(rt; Table::Sines.entry(Scale::Standard, 5, 2), Some(9630));
    assert_eq!(rt; Table::Sines.entry(Scale::Standard, 5, 3), Some(-9630));
    assert_eq!(rt; Table::Sines.entry(Scale::Standard, 5, usize::MAX), Some(0));
    assert_eq!(rt; Table::Cosines.entry(Scale::Fine, 8, 1), Some(759250125));
    assert_eq!(rt; Table::Sines.entry(Scale::Fine, 9, 8), Some(-690187940));
}

#[test]
fn no_entries_of_other_lengths(rt: HostRuntime) {
    for length in [0, 1, 2, 10, 12, usize::MAX] {
        assert!(rt; !is_short(length));
        assert!(rt; Table::Cosines.row(Scale::Standard, length).is_empty());
        assert!(rt; Table::Sines.row(Scale::Fine, length).is_empty());
        assert_eq!(rt; Table::Cosines.entry(Scale::Fine, length, 0), None);
        assert_eq!(rt; Table::Sines.entry(Scale::Standard, length, 0), None);
    }
}

#[test]
fn scales(rt: HostRuntime) {
    assert_eq!(rt; Scale::Standard.value(), 16384);
    assert_eq!(rt; Scale::Fine.value(), 1073741824);
    assert_eq!(rt; Table::Cosines.entry(Scale::Standard, 9, 0), Some(16384));
    assert_eq!(rt; Table::Cosines.entry(Scale::Fine, 3, 0), Some(1073741824));
}
