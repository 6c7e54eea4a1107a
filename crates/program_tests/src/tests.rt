// Runs of the program, and dumps. Tests use only what is public.
mod commands;
mod dump;
mod shared;

use std::fmt::Debug;
use std::process::Abort;

// Asserts that a value is the expected one.
fn same<T: PartialEq + Debug + Drop>(rt: &impl Abort, found: T, wanted: T) {
    assert!(rt; found == wanted, "{found:?}, and not {wanted:?}");
}

// Like `same`, in a loop: a failure also prints which turn it is.
fn same_at<T: PartialEq + Debug + Drop>(rt: &impl Abort, found: T, wanted: T, at: &impl Debug) {
    assert!(rt; found == wanted, "{found:?}, and not {wanted:?}, at {at:?}");
}
