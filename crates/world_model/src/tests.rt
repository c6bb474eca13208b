//! Tests: a queue of one event.

use crate::{Fit, Front, Intake};
use std::alloc::Global;
use std::test::Fail;
use vfs_path::Path;

fn path(alloc: Global, text: &str) -> Result<Path, Fail> {
    Ok(Path::parse(alloc, text.as_bytes())?)
}

fn shown(front: Front<'_>) -> &'static str {
    match front {
        Front::Mark => "mark",
        Front::Event(_) => "event",
        Front::Empty => "nothing",
    }
}

#[test]
fn queue_of_one_event(rt: HostRuntime) -> Result<(), Fail> {
    let alloc = rt.alloc();
    let mut queue = Intake::make(alloc, 1)?;
    assert_eq!(rt; shown(queue.front()), "nothing");
    assert_eq!(rt; queue.put(path(alloc, "/a")?), Fit::Fits);
    assert_eq!(rt; shown(queue.front()), "event");
    assert!(rt; !queue.settled());
    assert_eq!(rt; queue.put(path(alloc, "/b")?), Fit::Overflow);
    assert_eq!(rt; shown(queue.front()), "mark");
    queue.drop_front();
    assert!(rt; queue.settled());
    queue.lose();
    assert_eq!(rt; shown(queue.front()), "mark");
    Ok(())
}
