//! What is kept, for files whose snapshots are made here.

use crate::KeptFingerprints;
use case_order::Case::Sensitive;
use fingerprint_norms::Sensitivity::{self, Absolute, NameOnly};
use fingerprint_norms::{Input, Seen, fingerprint};
use merkle_hash::{Digest, file_digest};
use snapshot_tree::Snapshot;
use std::alloc::Global;
use std::process::Abort;
use std::test::Fail;
use vfs_path::Path;

fn input(alloc: Global, sensitivity: Sensitivity, root: &str) -> Result<Input, Fail> {
    let root = Path::parse(alloc, root.as_bytes())?;
    Ok(Input { root, sensitivity })
}

fn inputs(alloc: Global, roots: &[&str]) -> Result<Vec<Input>, Fail> {
    let mut inputs = Vec::new(alloc);
    for root in roots {
        inputs.push(input(alloc, Absolute, root)?)?;
    }
    Ok(inputs)
}

/// The inputs, each with a file of this content at its root.
fn seen(alloc: Global, roots: &[&str], content: &str) -> Result<Vec<Seen>, Fail> {
    let mut seen = Vec::new(alloc);
    for root in roots {
        let input = input(alloc, Absolute, root)?;
        let snapshot = Snapshot::File(file_digest(content.as_bytes()));
        seen.push(Seen { input, snapshot })?;
    }
    Ok(seen)
}

fn keep(
    rt: &impl Abort,
    kept: &mut KeptFingerprints,
    alloc: Global,
    roots: &[&str],
    content: &str,
) -> Result<Digest, Fail> {
    let digest = kept.keep(Sensitive, seen(alloc, roots, content)?)?;
    let other = fingerprint(alloc, Sensitive, &seen(alloc, roots, content)?)?;
    assert!(rt; digest == other);
    Ok(digest)
}

#[test]
fn a_kept_fingerprint_is_found_for_this_very_list(rt: HostRuntime) -> Result<(), Fail> {
    let alloc = rt.alloc();
    let mut kept = KeptFingerprints::new(alloc);
    assert!(rt; kept.find(&inputs(alloc, &["/a"])?).is_none());
    let one = keep(&rt, &mut kept, alloc, &["/a"], "x")?;
    let both = keep(&rt, &mut kept, alloc, &["/a", "/b"], "x")?;
    assert!(rt; kept.find(&inputs(alloc, &["/a"])?) == Some(one));
    assert!(rt; kept.find(&inputs(alloc, &["/a", "/b"])?) == Some(both));
    assert!(rt; kept.find(&inputs(alloc, &["/b", "/a"])?).is_none());
    assert!(rt; kept.find(&inputs(alloc, &["/A"])?).is_none());
    let named = vec![in alloc; input(alloc, NameOnly, "/a")?]?;
    assert!(rt; kept.find(&named).is_none());
    Ok(())
}

#[test]
fn what_is_related_goes(rt: HostRuntime) -> Result<(), Fail> {
    let alloc = rt.alloc();
    for (event, stays) in [
        ("/a/b", [false, true]),
        ("/a/b/c", [false, true]),
        ("/a", [false, true]),
        ("/", [false, false]),
        ("/d", [true, false]),
        ("/e", [true, true]),
    ] {
        let mut kept = KeptFingerprints::new(alloc);
        keep(&rt, &mut kept, alloc, &["/x", "/a/b"], "x")?;
        keep(&rt, &mut kept, alloc, &["/d"], "x")?;
        kept.drop_related(Sensitive, &Path::parse(alloc, event.as_bytes())?);
        let first = kept.find(&inputs(alloc, &["/x", "/a/b"])?).is_some();
        let second = kept.find(&inputs(alloc, &["/d"])?).is_some();
        assert_eq!(rt; [first, second], stays, "{event}");
    }
    Ok(())
}

#[test]
fn of_sixty_five_the_oldest_goes(rt: HostRuntime) -> Result<(), Fail> {
    let alloc = rt.alloc();
    let mut kept = KeptFingerprints::new(alloc);
    let mut roots = Vec::new(alloc);
    for i in 0..65u64 {
        roots.push(format!(in alloc; "/{i}")?)?;
    }
    for root in &roots {
        keep(&rt, &mut kept, alloc, &[root.as_str()], "x")?;
    }
    for (i, root) in roots.iter().enumerate() {
        let found = kept.find(&inputs(alloc, &[root.as_str()])?).is_some();
        assert_eq!(rt; found, i > 0, "{root}");
    }
    kept.clear();
    assert!(rt; kept.find(&inputs(alloc, &["/64"])?).is_none());
    Ok(())
}
