//! Digests by workers of several numbers, against those of RFC 1321 and of Python's `hashlib`.

use crate::{Ahead, digests};
use case_order::Share;
use merkle_hash::{Bytes, Digest, file_digest};
use std::alloc::Global;
use std::process::Abort;
use std::test::Fail;

/// A content of these bytes.
fn content(alloc: Global, bytes: &[u8]) -> Result<Bytes, Fail> {
    match Bytes::from_vec(alloc, Vec::from_slice(alloc, bytes)?) {
        Ok(content) => Ok(content),
        Err((_, refused)) => Err(Fail::from(refused)),
    }
}

#[test]
fn hashes_each_content_in_its_place(rt: HostRuntime) -> Result<(), Fail> {
    let alloc = rt.alloc();
    let contents = [content(alloc, b"abc")?, content(alloc, b"a")?];
    for workers in [1, 2, 16] {
        let found = digests(&rt, alloc, &contents, workers)?;
        let mut text = Vec::new(alloc);
        for digest in found.as_slice() {
            text.extend_from_slice(&digest.to_hex())?;
        }
        assert_eq!(rt;
            text.as_slice(),
            b"900150983cd24fb0d6963f7d28e17f720cc175b9c0f1b6a831c399e269772661".as_slice(),
            "by {workers}"
        );
        assert_eq!(rt; digests(&rt, alloc, &[], workers)?.len(), 0);
    }
    Ok(())
}

/// The digest with this number, in hexadecimal digits; none where there is no such digest.
fn hex_at(found: &[Digest], i: usize) -> Option<[u8; 32]> {
    Some(found.get(i)?.to_hex())
}

fn assert_digests(rt: &impl Abort, found: &[Digest], wanted: &[(usize, &[u8])]) {
    for (i, want) in wanted {
        match hex_at(found, *i) {
            Some(hex) => assert_eq!(rt; hex.as_slice(), *want, "at {i}"),
            None => assert!(rt; false, "none at {i}"),
        }
    }
}

#[test]
fn hashes_the_same_by_any_number_of_workers(rt: HostRuntime) -> Result<(), Fail> {
    let alloc = rt.alloc();
    let mut contents = Vec::new(alloc);
    for i in 0..3000usize {
        let bytes = vec![in alloc; (i % 251) as u8; i % 97]?;
        contents.push(content(alloc, bytes.as_slice())?)?;
    }
    // At the ends, and on both sides of the cuts between 7 and 16 runs.
    let wanted: [(usize, &[u8]); 8] = [
        (0, b"d41d8cd98f00b204e9800998ecf8427e"),
        (1, b"55a54008ad1ba589aa210d2629c1df41"),
        (187, b"e43853eb6cb8b7ddec9f2f478e00e763"),
        (188, b"80f4952ba1e88eb120f524c8908211d1"),
        (428, b"7bdc5aff6f6140f8af8f9a15215e94cf"),
        (429, b"ed112f3fa1bd231dae32607ad37725f4"),
        (1499, b"d6e546f93956cf149910036db599485b"),
        (2999, b"5ec25d8112a30991795ec7505fb76400"),
    ];
    for workers in [1, 7, 16] {
        let found = digests(&rt, alloc, contents.as_slice(), workers)?;
        assert_eq!(rt; found.len(), 3000);
        assert_digests(&rt, found.as_slice(), &wanted);
        // All of them, one behind the other.
        let mut bytes = Vec::new(alloc);
        for digest in found.as_slice() {
            bytes.extend_from_slice(&digest.bytes())?;
        }
        assert_eq!(rt;
            file_digest(bytes.as_slice()).to_hex().as_slice(),
            b"daa57cd960c40a10fc7acad6d732dca4".as_slice(),
            "by {workers}"
        );
    }
    Ok(())
}

#[test]
fn hashes_ahead_the_same_by_any_number_of_workers(rt: HostRuntime) -> Result<(), Fail> {
    let alloc = rt.alloc();
    for workers in [0, 1, 3, 16] {
        let mut ahead = Ahead::new(alloc);
        let mut contents = Vec::new(alloc);
        // More batches than workers, of none to four contents.
        for i in 0..40usize {
            let mut batch = Vec::new(alloc);
            for j in 0..i % 5 {
                let bytes = vec![in alloc; i as u8; 100 * j]?;
                let one = content(alloc, bytes.as_slice())?;
                batch.push(one.share()?)?;
                contents.push(one)?;
            }
            ahead.hash(&rt, alloc, batch, workers)?;
        }
        let found = ahead.into_digests(&rt)?;
        let wanted = digests(&rt, alloc, contents.as_slice(), 1)?;
        assert_eq!(rt; found.len(), 80, "by {workers}");
        assert_eq!(rt; wanted.len(), 80);
        for (digest, want) in found.as_slice().iter().zip(wanted.as_slice()) {
            assert_eq!(rt;
                digest.to_hex().as_slice(),
                want.to_hex().as_slice(),
                "by {workers}"
            );
        }
    }
    Ok(())
}

#[test]
fn nothing_handed_over_has_no_digests(rt: HostRuntime) -> Result<(), Fail> {
    assert_eq!(rt; Ahead::new(rt.alloc()).into_digests(&rt)?.len(), 0);
    Ok(())
}
