//! Digests of texts, by RFC 1321, and of directories, by bytes written out, and byte strings with
//! several owners.

use crate::{Bytes, DirHasher, Mark, file_digest};
use case_order::Share;
use std::test::Fail;

#[test]
fn digests_are_those_of_md5(rt: HostRuntime) {
    for (text, want) in [
        (
            b"".as_slice(),
            b"d41d8cd98f00b204e9800998ecf8427e".as_slice(),
        ),
        (
            b"a".as_slice(),
            b"0cc175b9c0f1b6a831c399e269772661".as_slice(),
        ),
        (
            b"b".as_slice(),
            b"92eb5ffee6ae2fec3ad71c777531578f".as_slice(),
        ),
        (
            b"abc".as_slice(),
            b"900150983cd24fb0d6963f7d28e17f72".as_slice(),
        ),
    ] {
        assert_eq!(rt; file_digest(text).to_hex().as_slice(), want);
    }
}

#[test]
fn directories_are_hashed_by_their_children(rt: HostRuntime) {
    let empty = DirHasher::new().finish();
    assert_eq!(rt;
        empty.to_hex().as_slice(),
        b"f623e75af30e62bbd73d6df5b50bb7b5".as_slice()
    );
    let mut hasher = DirHasher::new();
    hasher.child(b"a", Mark::F, &file_digest(b"a"));
    let bytes =
        b"D\x00\x00\x00\x01aF\x0c\xc1\x75\xb9\xc0\xf1\xb6\xa8\x31\xc3\x99\xe2\x69\x77\x26\x61";
    assert_eq!(rt; hasher.finish(), file_digest(bytes));
}

#[test]
fn bytes_and_digests_are_shared(rt: HostRuntime) -> Result<(), Fail> {
    let Ok(bytes) = Bytes::from_vec(rt.alloc(), Vec::from_slice(rt.alloc(), b"abc")?) else {
        panic!(rt; "no memory");
    };
    let copy = bytes.share()?;
    assert_eq!(rt; copy.as_slice(), b"abc".as_slice());
    let digest = file_digest(copy.as_slice());
    assert_eq!(rt; digest.share()?, digest);
    assert_eq!(rt; digest.bytes()[0], 0x90);
    Ok(())
}
