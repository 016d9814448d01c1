// The letters as a reference, which the library itself does not read.
use super::*;

fn are_same<L: Lettered>() -> bool {
    *L::letters() == L::letters_by_value()
}

#[test]
fn reference_and_value_are_the_same_letters(rt: HostRuntime) {
    assert!(rt; are_same::<IndexC>());
    assert!(rt; are_same::<SheetB>());
    assert!(rt; are_same::<SheetE>());
    assert!(rt; are_same::<SheetF>());
    assert!(rt; are_same::<Header>());
    assert!(rt; are_same::<Element>());
    assert!(rt; are_same::<GridHeader>());
    assert!(rt; are_same::<NetHeader>());
    assert!(rt; are_same::<DataNote>());
    assert_eq!(rt; Header::letters()[2], b'S', "a header's class");
    assert_eq!(rt; Element::letters()[83], b'r', "an element's last byte");
    assert_eq!(rt; DataNote::letters()[0], b'1', "a note's first byte");
}
