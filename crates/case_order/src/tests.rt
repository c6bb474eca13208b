//! Folding stops where the alphabet does, and values have several owners.

use crate::{Case, Share, Shared, order, same, share_all};
use std::test::Fail;

#[test]
fn letters_of_ascii_are_folded(rt: HostRuntime) {
    for (a, b, folded) in [
        (b"aZ".as_slice(), b"Az".as_slice(), true),
        (b"@".as_slice(), b"`".as_slice(), false),
        (b"[".as_slice(), b"{".as_slice(), false),
        (b"\xc3\x84".as_slice(), b"\xc3\xa4".as_slice(), false),
    ] {
        assert!(rt; !same(Case::Sensitive, a, b));
        assert_eq!(rt; same(Case::Insensitive, a, b), folded);
    }
}

#[test]
fn bytes_come_before_lengths(rt: HostRuntime) {
    assert!(rt; order(Case::Sensitive, b"Z", b"a").is_lt());
    assert!(rt; order(Case::Insensitive, b"Z", b"a").is_gt());
    assert!(rt; order(Case::Insensitive, b"a", b"AB").is_lt());
    assert!(rt; order(Case::Sensitive, b"ab", b"b").is_lt());
}

#[test]
fn values_are_shared(rt: HostRuntime) -> Result<(), Fail> {
    let Ok(first) = Shared::new(rt.alloc(), 7u8) else {
        panic!(rt; "no memory");
    };
    let owners = vec![in rt.alloc(); first.share()?, first]?;
    let copies = share_all(rt.alloc(), owners.as_slice())?;
    assert_eq!(rt; copies.len(), 2);
    assert_eq!(rt; *copies[1].get(), 7);
    Ok(())
}
