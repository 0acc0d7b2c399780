// What tests expect. Where it isn't so, the row or the subject is named.
//
// Each check is a call: an `assert!` is a way out of the function that it stands in, and proved there.
use std::fmt::Debug;
use std::process::Abort;

// The fact is true.
pub(super) fn is(rt: &impl Abort, fact: bool, row: &str) {
    assert!(rt; fact, "{row}");
}

// The fact is true. The row is octets.
pub(super) fn is_of(rt: &impl Abort, fact: bool, row: &[u8]) {
    assert!(rt; fact, "{row:?}");
}

// Both are the same octets.
pub(super) fn same_octets(rt: &impl Abort, found: &[u8], wanted: &[u8], row: &str) {
    assert!(rt; found == wanted, "{row}: {found:?}, and not {wanted:?}");
}

// Both are the same text.
pub(super) fn same_text(rt: &impl Abort, found: &str, wanted: &str) {
    assert!(rt; found == wanted, "{found}, and not {wanted}");
}

// Both are the same.
pub(super) fn same<T: Debug + PartialEq + Drop>(rt: &impl Abort, found: T, wanted: T, row: &str) {
    assert!(rt; found == wanted, "{row}: {found:?}, and not {wanted:?}");
}

// Both are the same. The row is octets.
pub(super) fn same_of<T: Debug + PartialEq + Drop>(
    rt: &impl Abort,
    found: T,
    wanted: T,
    row: &[u8],
) {
    assert!(rt; found == wanted, "{row:?}: {found:?}, and not {wanted:?}");
}
