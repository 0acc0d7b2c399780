// What tests expect, and the row or the subject that is named where it is otherwise.
//
// Each check is a call: an `assert!` is a way out of the function that it stands in, and proved there.
use std::fmt::Debug;
use std::process::Abort;

// This is so.
pub(crate) fn is(rt: &impl Abort, fact: bool, row: &str) {
    assert!(rt; fact, "{row}");
}

// The same of a row of octets.
pub(crate) fn is_of(rt: &impl Abort, fact: bool, row: &[u8]) {
    assert!(rt; fact, "{row:?}");
}

// Both are the same octets.
pub(crate) fn same_octets(rt: &impl Abort, found: &[u8], wanted: &[u8], row: &str) {
    assert!(rt; found == wanted, "{row}: {found:?}, and not {wanted:?}");
}

// Both are the same text.
pub(crate) fn same_text(rt: &impl Abort, found: &str, wanted: &str) {
    assert!(rt; found == wanted, "{found}, and not {wanted}");
}

// Both are the same.
pub(crate) fn same<T: Debug + PartialEq + Drop>(rt: &impl Abort, found: T, wanted: T, row: &str) {
    assert!(rt; found == wanted, "{row}: {found:?}, and not {wanted:?}");
}

// Both are the same of a row of octets.
pub(crate) fn same_of<T: Debug + PartialEq + Drop>(
    rt: &impl Abort,
    found: T,
    wanted: T,
    row: &[u8],
) {
    assert!(rt; found == wanted, "{row:?}: {found:?}, and not {wanted:?}");
}
