// Bytes that were worked out by hand from the standard's grammar. That they are read back is proved.
mod bundles;
mod core_dumps;
mod elements;
mod expressions;
mod groups;
mod items;
mod linkers;
mod modules;
mod names;
mod numbers;
mod sections;
mod segments;
mod tools;
mod types;

use std::process::Abort;
use wasm_encode::Encode;

// An item fits and is written as these bytes, and no byte before or after them changes.
fn encodes<T: Encode>(rt: &impl Abort, item: &T, wanted: &[u8]) {
    assert!(rt; item.fits());
    assert!(rt; wanted.len() < 60);
    assert_eq!(rt; item.encoded_len(), wanted.len());
    let mut bytes = [0xaa; 64];
    let end = item.encode_at(&mut bytes, 3);
    assert_eq!(rt; &bytes[3..end], wanted);
    assert!(rt; bytes[2] == 0xaa && bytes[end] == 0xaa);
}

// An item can't be written.
fn is_refused<T: Encode>(rt: &impl Abort, item: &T) {
    assert!(rt; !item.fits());
}
