use super::*;
use std::test::Fail;
use vfs_path::PathError;

#[test]
fn numbers_causes(rt: HostRuntime) {
    let table = [
        (Cause::NoLineEnd, 1),
        (Cause::BadEscape, 2),
        (Cause::EmptyWord, 3),
        (Cause::UnknownWord, 4),
        (Cause::BadCaller, 5),
        (Cause::BadNumber, 6),
        (Cause::Repeated, 7),
        (Cause::LateSetting, 8),
        (Cause::WrongCount, 9),
        (Cause::BadPath(PathError::TooDeep), 10),
        (Cause::TooLarge, 11),
        (Cause::BadInput, 12),
    ];
    for (cause, number) in table {
        assert_eq!(rt; cause.number(), number);
    }
}

#[test]
fn spells_bytes_as_words(rt: HostRuntime) -> Result<(), Fail> {
    let alloc = rt.alloc();
    let table = [
        ("", ""),
        ("/a/b", "/a/b"),
        ("a b", "a%20b"),
        ("x%\n", "x%25%0a"),
        ("!~\u{7f}\u{1f}", "!~%7f%1f"),
        ("ä€", "%c3%a4%e2%82%ac"),
    ];
    for (bytes, wanted) in table {
        let mut out = Vec::from_slice(alloc, b"0 find ")?;
        put_spelled(&mut out, bytes.as_bytes())?;
        let (front, word) = out.as_slice().split_at(7);
        assert_eq!(rt; front, b"0 find ".as_slice());
        assert_eq!(rt; word, wanted.as_bytes(), "at {bytes}");
    }
    Ok(())
}

#[test]
fn writes_a_script(rt: HostRuntime) -> Result<(), Fail> {
    let alloc = rt.alloc();
    let mut opening = Openings::from_vec(Vec::new(alloc));
    opening.push(Opening::Queue(4))?;
    let mut lines = Lines::from_vec(Vec::new(alloc));
    assert!(rt; lines.is_empty());
    let caller = 3;
    let command = Command::Lose;
    lines.push(Line { caller, command })?;
    assert!(rt; !lines.is_empty());
    let settings = Settings {
        queue: 4,
        ..Settings::default()
    };
    let script = Script {
        settings,
        opening,
        lines,
    };
    let text = write_script(alloc, &script)?;
    assert_eq!(rt; text.as_slice(), b"set queue 4\n3 lose\n".as_slice());
    Ok(())
}
