ghost use Rattle.std.specs.Prelude.{◌≡◌, IfOk};

use super::*;
use case_order::{Case, NoMemory, Share};
use fingerprint_norms::{Input, Inputs, Sensitivity};
use std::alloc::{AllocError, Global};
use std::process::Abort;
use std::test::Fail;
use vfs_path::{Path, PathError};
use world_model::Edit;

fn is_path(alloc: Global, path: &Path, text: &str) -> bool {
    match Path::parse(alloc, text.as_bytes()) {
        Ok(wanted) => *path == wanted,
        Err(_) => false,
    }
}

/// Whether it is the edit of this name with these words; the second is a path or contents.
fn is_edit(alloc: Global, edit: &Edit, name: &str, word: &str, second: &str) -> bool {
    match edit {
        Edit::Write(path, content) => {
            name == "write" && is_path(alloc, path, word) && content.as_slice() == second.as_bytes()
        }
        Edit::Mkdir(path) => name == "mkdir" && is_path(alloc, path, word),
        Edit::Remove(path) => name == "remove" && is_path(alloc, path, word),
        Edit::Move(from, to) => {
            name == "move" && is_path(alloc, from, word) && is_path(alloc, to, second)
        }
    }
}

/// Whether it is the command of this name with these words, as far as it has some.
fn is_command(alloc: Global, command: &Command, name: &str, word: &str, second: &str) -> bool {
    match command {
        Command::Edit(edit) => is_edit(alloc, edit, name, word, second),
        Command::Event(path) => name == "event" && is_path(alloc, path, word),
        Command::Lose => name == "lose",
        Command::Deliver => name == "deliver",
        Command::Settle => name == "settle",
        Command::Begin(path) => name == "begin" && is_path(alloc, path, word),
        Command::Read => name == "read",
        Command::Publish => name == "publish",
        Command::Abandon => name == "abandon",
        Command::Scan(path) => name == "scan" && is_path(alloc, path, word),
        Command::Find(path) => name == "find" && is_path(alloc, path, word),
        Command::KindOf(path) => name == "kind" && is_path(alloc, path, word),
        Command::VersionOf(path) => name == "version" && is_path(alloc, path, word),
        Command::Print(inputs) => name == "print" && are_inputs(alloc, inputs, word, second),
        Command::Build(inputs) => name == "build" && are_inputs(alloc, inputs, word, second),
    }
}

/// Whether it is the input with this text.
fn is_input(alloc: Global, input: &Input, text: &str) -> bool {
    let (sensitivity, root) = match text.as_bytes() {
        [b'a', b'b', b's', b':', root @ ..] => (Sensitivity::Absolute, root),
        [b'r', b'e', b'l', b':', root @ ..] => (Sensitivity::Relative, root),
        [b'n', b'a', b'm', b'e', b':', root @ ..] => (Sensitivity::NameOnly, root),
        [b'n', b'o', b'n', b'e', b':', root @ ..] => (Sensitivity::Ignored, root),
        _ => return false,
    };
    match Path::parse(alloc, root) {
        Ok(root) => input.root == root && input.sensitivity == sensitivity,
        Err(_) => false,
    }
}

/// Whether these are the inputs with these texts; with no second text it is one.
fn are_inputs(alloc: Global, inputs: &Inputs, word: &str, second: &str) -> bool {
    match inputs.as_slice() {
        [input] => second.is_empty() && is_input(alloc, input, word),
        [input, other] => is_input(alloc, input, word) && is_input(alloc, other, second),
        _ => false,
    }
}

/// Whether the text has this one command line and no opening line.
fn is_line(alloc: Global, text: &str, caller: u64, name: &str, word: &str, second: &str) -> bool {
    let Ok(script) = read_script(alloc, text.as_bytes()) else {
        return false;
    };
    match script.lines.as_slice() {
        [line] => {
            script.opening.as_slice().is_empty()
                && line.caller == caller
                && is_command(alloc, &line.command, name, word, second)
        }
        _ => false,
    }
}

#[test]
fn reads_each_command(rt: HostRuntime) {
    let alloc = rt.alloc();
    let table = [
        ("0 write /f abc\n", 0, "write", "/f", "abc"),
        ("0 write /f\n", 0, "write", "/f", ""),
        ("15 write /f/g %00\n", 15, "write", "/f/g", "\0"),
        ("1 mkdir /d\n", 1, "mkdir", "/d", ""),
        ("2 remove /d/e\n", 2, "remove", "/d/e", ""),
        ("3 move /a /b/c\n", 3, "move", "/a", "/b/c"),
        ("4 event /\n", 4, "event", "/", ""),
        ("14 lose\n", 14, "lose", "", ""),
        ("5 deliver\n", 5, "deliver", "", ""),
        ("6 settle\n", 6, "settle", "", ""),
        ("7 begin /\n", 7, "begin", "/", ""),
        ("8 read\n", 8, "read", "", ""),
        ("9 publish\n", 9, "publish", "", ""),
        ("0 abandon\n", 0, "abandon", "", ""),
        ("10 scan /a\n", 10, "scan", "/a", ""),
        ("11 find /a\n", 11, "find", "/a", ""),
        ("12 kind /a\n", 12, "kind", "/a", ""),
        ("13 version /a\n", 13, "version", "/a", ""),
        ("0 print abs:/a\n", 0, "print", "abs:/a", ""),
        ("1 print name:/ rel:/a\n", 1, "print", "name:/", "rel:/a"),
        ("2 build n%6fne:/a%20b\n", 2, "build", "none:/a b", ""),
        ("3 build rel:/a rel:/a\n", 3, "build", "rel:/a", "rel:/a"),
    ];
    for (text, caller, name, word, second) in table {
        assert!(rt;
            is_line(alloc, text, caller, name, word, second),
            "at {text}"
        );
    }
}

#[test]
fn reads_escapes_and_notes(rt: HostRuntime) {
    let alloc = rt.alloc();
    let table = [
        (
            "0 write /a%20b x%25%0Ay%0a#\n",
            0,
            "write",
            "/a b",
            "x%\ny\n#",
        ),
        ("%31%34 r%65ad\n", 14, "read", "", ""),
        ("0 find /%c3%A4\n", 0, "find", "/ä", ""),
        ("0 find /%23\n", 0, "find", "/#", ""),
        ("0 write /f #x\n", 0, "write", "/f", "#x"),
        ("# a  note %\n\n#\n1 read\n# 0 fnd\n\n", 1, "read", "", ""),
    ];
    for (text, caller, name, word, second) in table {
        assert!(rt;
            is_line(alloc, text, caller, name, word, second),
            "at {text}"
        );
    }
}

fn is_opening(alloc: Global, opening: &Opening, name: &str, word: &str, content: &str) -> bool {
    match opening {
        Opening::Case(case) => name == "case" && *case == Case::Insensitive,
        Opening::Queue(_) => name == "queue",
        Opening::Places(_) => name == "places",
        Opening::Workers(_) => name == "workers",
        Opening::Dir(path) => name == "dir" && is_path(alloc, path, word),
        Opening::File(path, bytes) => {
            name == "file" && is_path(alloc, path, word) && bytes.as_slice() == content.as_bytes()
        }
    }
}

#[test]
fn reads_opening_lines(rt: HostRuntime) -> Result<(), Fail> {
    let alloc = rt.alloc();
    let text =
        "# a note\nset dir /a%20b\nset queue 1\n\nset file /f\ns%65t file / x%20y\nset case insensitive\nset workers 16\nset dir /\n#\n0 read\n# set\n3 settle\n";
    let script = read_script(alloc, text.as_bytes()).ok().ok_or("a script")?;
    let table = [
        ("dir", "/a b", ""),
        ("queue", "", ""),
        ("file", "/f", ""),
        ("file", "/", "x y"),
        ("case", "", ""),
        ("workers", "", ""),
        ("dir", "/", ""),
    ];
    assert_eq!(rt; script.lines.as_slice().len(), 2);
    assert_eq!(rt; script.opening.as_slice().len(), table.len());
    for (opening, (name, word, content)) in script.opening.as_slice().iter().zip(table) {
        assert!(rt;
            is_opening(alloc, opening, name, word, content),
            "at {name} {word}"
        );
    }
    Ok(())
}

#[test]
fn keeps_what_is_set(rt: HostRuntime) -> Result<(), Fail> {
    let alloc = rt.alloc();
    let table = [
        ("", Case::Sensitive, 1024, 65_536, 1),
        ("set case sensitive\n", Case::Sensitive, 1024, 65_536, 1),
        ("set case insensitive\n", Case::Insensitive, 1024, 65_536, 1),
        ("set queue 1\n", Case::Sensitive, 1, 65_536, 1),
        ("set queue 65536\n", Case::Sensitive, 65_536, 65_536, 1),
        ("set places 1\n0 read\n", Case::Sensitive, 1024, 1, 1),
        ("set places 65536\n", Case::Sensitive, 1024, 65_536, 1),
        ("set workers 16\n", Case::Sensitive, 1024, 65_536, 16),
        (
            "set dir /d\nset workers 2\nset file /f\nset case ins%65nsitive\nset queue 3\nset places 4\n",
            Case::Insensitive,
            3,
            4,
            2,
        ),
    ];
    for (text, case, queue, places, workers) in table {
        let script = read_script(alloc, text.as_bytes()).ok().ok_or("a script")?;
        let wanted = Settings {
            case,
            queue,
            places,
            workers,
        };
        assert_eq!(rt; script.settings, wanted, "at {text}");
    }
    Ok(())
}

/// The number of the first bad line and its cause; nothing where the text is a script.
fn first_bad(alloc: Global, text: &[u8]) -> Result<Option<(u64, Cause)>, Fail> {
    match read_script(alloc, text) {
        Ok(_) => Ok(None),
        Err(ScriptError::Bad(bad)) => Ok(Some((bad.line, bad.cause))),
        Err(ScriptError::NoMemory) => Err(Fail::from(NoMemory)),
    }
}

/// Looks for the first bad line of each text.
fn assert_faults(
    rt: &impl Abort,
    alloc: Global,
    table: &[(&str, Option<(u64, Cause)>)],
) -> Result<(), Fail> {
    for (text, wanted) in table {
        assert_eq!(rt; first_bad(alloc, text.as_bytes())?, *wanted, "at {text}");
    }
    Ok(())
}

#[test]
fn tells_each_cause(rt: HostRuntime) -> Result<(), Fail> {
    let alloc = rt.alloc();
    let table = [
        ("0 read", Cause::NoLineEnd),
        ("# note", Cause::NoLineEnd),
        ("0 find /%4\n", Cause::BadEscape),
        ("0 find /%4g\n", Cause::BadEscape),
        (" 0 read\n", Cause::EmptyWord),
        ("0  read\n", Cause::EmptyWord),
        ("0 read \n", Cause::EmptyWord),
        (" \n", Cause::EmptyWord),
        ("0 fnd /a\n", Cause::UnknownWord),
        ("0 read\r\n", Cause::UnknownWord),
        ("0 prints rel:/a\n", Cause::UnknownWord),
        ("set watch /a\n", Cause::UnknownWord),
        ("set read\n", Cause::UnknownWord),
        ("0 dir /a\n", Cause::UnknownWord),
        ("16 read\n", Cause::BadCaller),
        ("01 read\n", Cause::BadCaller),
        ("+1 read\n", Cause::BadCaller),
        ("4294967296 read\n", Cause::BadCaller),
        ("%23 read\n", Cause::BadCaller),
        ("set queue 0\n", Cause::BadNumber),
        ("set queue 65537\n", Cause::BadNumber),
        ("set queue 01\n", Cause::BadNumber),
        ("set queue x\n", Cause::BadNumber),
        ("set places 0\n", Cause::BadNumber),
        ("set places 65537\n", Cause::BadNumber),
        ("set workers 0\n", Cause::BadNumber),
        ("set workers 17\n", Cause::BadNumber),
        ("set workers 4294967297\n", Cause::BadNumber),
        ("set case Sensitive\n", Cause::BadNumber),
        ("set case INSENSITIVE\n", Cause::BadNumber),
        ("0\n", Cause::WrongCount),
        ("set queue\n", Cause::WrongCount),
        ("set case sensitive x\n", Cause::WrongCount),
        ("0 lose /a\n", Cause::WrongCount),
        ("0 abandon 0\n", Cause::WrongCount),
        ("set\n", Cause::WrongCount),
        ("set dir\n", Cause::WrongCount),
        ("set file /a b c\n", Cause::WrongCount),
        ("0 write\n", Cause::WrongCount),
        ("0 write /a b c\n", Cause::WrongCount),
        ("0 move /a\n", Cause::WrongCount),
        ("0 move /a /b /c\n", Cause::WrongCount),
        ("0 deliver /a\n", Cause::WrongCount),
        ("0 begin\n", Cause::WrongCount),
        ("0 print\n", Cause::WrongCount),
        ("0 build\n", Cause::WrongCount),
        ("0 print /a\n", Cause::BadInput),
        ("0 build rel/a\n", Cause::BadInput),
        ("0 print Rel:/a\n", Cause::BadInput),
        ("0 print abs:/a ignore:/a\n", Cause::BadInput),
        ("0 build none\n", Cause::BadInput),
    ];
    for (text, cause) in table {
        let bad = first_bad(alloc, text.as_bytes())?;
        assert_eq!(rt; bad, Some((1, cause)), "at {text}");
    }
    Ok(())
}

#[test]
fn tells_what_is_wrong_with_a_path(rt: HostRuntime) -> Result<(), Fail> {
    let alloc = rt.alloc();
    let table = [
        ("0 begin a\n", PathError::NotAbsolute),
        ("0 begin //\n", PathError::EmptyName),
        ("0 find /..\n", PathError::DotName),
        ("0 write /%00 b\n", PathError::BadByte),
        ("0 write /%ff\n", PathError::BadByte),
        ("set dir a\n", PathError::NotAbsolute),
        ("set file /a/. b\n", PathError::DotName),
        ("0 move /a b\n", PathError::NotAbsolute),
        ("0 move a /%00\n", PathError::NotAbsolute),
        ("0 move /%00 a\n", PathError::BadByte),
        ("0 print rel:\n", PathError::NotAbsolute),
        ("0 build abs:/a rel:/a//b none\n", PathError::EmptyName),
        ("0 print name:abs:/a x\n", PathError::NotAbsolute),
    ];
    for (text, refusal) in table {
        let wanted = Some((1, Cause::BadPath(refusal)));
        let bad = first_bad(alloc, text.as_bytes())?;
        assert_eq!(rt; bad, wanted, "at {text}");
    }
    Ok(())
}

#[test]
fn tells_the_first_cause_of_the_first_line(rt: HostRuntime) -> Result<(), Fail> {
    let table = [
        ("", None),
        ("\n", None),
        ("0 read\n1 read\n2 fnd\n", Some((3, Cause::UnknownWord))),
        ("\n#\n0 fnd /c\n0  find\n", Some((3, Cause::UnknownWord))),
        ("x\n0 find /a", Some((1, Cause::BadCaller))),
        ("0 read\n# note", Some((2, Cause::NoLineEnd))),
        // Several causes hold of each line below.
        ("16  fnd %zz", Some((1, Cause::NoLineEnd))),
        ("16 fnd  %zz\n", Some((1, Cause::EmptyWord))),
        ("16 fnd %zz\n", Some((1, Cause::BadEscape))),
        ("16 fnd\n", Some((1, Cause::BadCaller))),
        ("16\n", Some((1, Cause::BadCaller))),
        ("0 read\nset %zz\n", Some((2, Cause::BadEscape))),
        ("0 read\nset\n", Some((2, Cause::LateSetting))),
        ("0 read\nset fnd\n", Some((2, Cause::LateSetting))),
        ("0 read\nset dir a b\n", Some((2, Cause::LateSetting))),
        ("0 read\n\nset dir /a\n", Some((3, Cause::LateSetting))),
        ("0 read\nset queue 0\n", Some((2, Cause::LateSetting))),
        (
            "set queue 4\n0 read\nset queue 4\n",
            Some((3, Cause::LateSetting)),
        ),
        ("set dir /a\nset fnd\n", Some((2, Cause::UnknownWord))),
        ("0 fnd a b\n", Some((1, Cause::UnknownWord))),
        ("set fnd a b\n", Some((1, Cause::UnknownWord))),
        ("0 find a b\n", Some((1, Cause::WrongCount))),
        ("0 write a b c\n", Some((1, Cause::WrongCount))),
        ("set queue 0 0\n", Some((1, Cause::WrongCount))),
        ("set queue 4\nset queue\n", Some((2, Cause::WrongCount))),
        ("set queue 4\nset queue 0\n", Some((2, Cause::BadNumber))),
        (
            "set case sensitive\nset case x\n",
            Some((2, Cause::BadNumber)),
        ),
        // A setting stands on an earlier line, though others are between.
        ("set queue 4\nset queue 4\n", Some((2, Cause::Repeated))),
        (
            "set places 4\n#\nset dir /a\nset places 5\n",
            Some((4, Cause::Repeated)),
        ),
        (
            "set workers 1\nset queue 1\nset workers 1\n",
            Some((3, Cause::Repeated)),
        ),
        (
            "set case sensitive\nset case insensitive\n",
            Some((2, Cause::Repeated)),
        ),
        // Other lines may stand twice, and one number on two settings.
        (
            "set dir /a\nset dir /a\nset queue 4\nset places 4\nset workers 4\n",
            None,
        ),
    ];
    assert_faults(&rt, rt.alloc(), &table)
}

#[test]
fn reads_a_front_of_whole_lines(rt: HostRuntime) -> Result<(), Fail> {
    let text =
        b"set queue 4\n# a note\nset file /f a%20b\n\n0 write /%61 %00\n15 move /a /b\n0 lose\n1 abandon\n".as_slice();
    let mut ends = 0u64;
    for (len, byte) in text.iter().enumerate() {
        let front = &text[..len];
        let is_whole = len == 0 || front[len - 1] == b'\n';
        let wanted = if is_whole {
            None
        } else {
            Some((ends + 1, Cause::NoLineEnd))
        };
        assert_eq!(rt; first_bad(rt.alloc(), front)?, wanted, "at {len}");
        if *byte == b'\n' {
            ends += 1;
        }
    }
    assert_eq!(rt; first_bad(rt.alloc(), text)?, None);
    assert_eq!(rt; ends, 8);
    Ok(())
}

/// A text of a front, a piece so many times over, and LF.
fn with_many(alloc: Global, front: &str, piece: &str, count: usize) -> Result<Vec<u8>, AllocError> {
    let mut text = Vec::from_slice(alloc, front.as_bytes())?;
    for _ in 0..count {
        text.extend_from_slice(piece.as_bytes())?;
    }
    text.push(b'\n')?;
    Ok(text)
}

/// The cause that is told of such a text.
fn limit(alloc: Global, front: &str, piece: &str, count: usize) -> Result<Option<Cause>, Fail> {
    let text = with_many(alloc, front, piece, count)?;
    let bad = first_bad(alloc, text.as_slice())?;
    Ok(bad.map(|(_, cause)| cause))
}

#[test]
fn keeps_to_the_limits(rt: HostRuntime) -> Result<(), Fail> {
    let alloc = rt.alloc();
    let too_deep = Some(Cause::BadPath(PathError::TooDeep));
    let too_long = Some(Cause::BadPath(PathError::LongName));
    let not_absolute = Some(Cause::BadPath(PathError::NotAbsolute));
    let too_large = Some(Cause::TooLarge);
    let table = [
        ("0 find ", "/x", 64, None),
        ("0 find ", "/x", 65, too_deep),
        ("set dir /", "x", 255, None),
        ("set dir /", "x", 256, too_long),
        ("0 move /a /", "%78", 255, None),
        ("0 move /a /", "%78", 256, too_long),
        ("0 write /a ", "x", 1_048_576, None),
        ("0 write /a ", "%41", 1_048_576, None),
        ("set file /a ", "x", 1_048_577, too_large),
        ("3 write /a ", "%0a", 1_048_577, too_large),
        ("0 write a ", "x", 1_048_577, not_absolute),
        ("0 print rel:/0", " rel:/x", 63, None),
        ("0 print rel:/0", " rel:/x", 64, Some(Cause::WrongCount)),
        ("0 build x", " abs:/x", 64, Some(Cause::WrongCount)),
    ];
    for (front, piece, count, wanted) in table {
        assert_eq!(rt;
            limit(alloc, front, piece, count)?,
            wanted,
            "at {front} {count}"
        );
    }
    Ok(())
}

/// The script with lists that are shared.
fn shared(script: &Script) -> Result<Script, NoMemory>
    ensures { IfOk result (λ copy. copy ≡ script.now) }
{
    Ok(Script {
        settings: script.settings,
        opening: script.opening.share()?,
        lines: script.lines.share()?,
    })
}

/// Whether the text is that of a script, for which this is written.
fn is_written(alloc: Global, text: &str, wanted: &str) -> bool {
    let Ok(script) = read_script(alloc, text.as_bytes()) else {
        return false;
    };
    let Ok(copy) = shared(&script) else {
        return false;
    };
    match write_script(alloc, &copy) {
        Ok(written) => written.as_slice() == wanted.as_bytes(),
        Err(_) => false,
    }
}

#[test]
fn writes_what_it_read(rt: HostRuntime) {
    let alloc = rt.alloc();
    let openings = "\
        set case sensitive\n\
        set queue 65536\n\
        set places 7\n\
        set workers 16\n\
        set dir /\n\
        set file /d/f\n\
        set file /g xyz\n";
    let commands = "\
        0 write /f abc\n\
        1 mkdir /d\n\
        2 remove /d/e\n\
        3 move /a /b/c\n\
        4 event /\n\
        5 lose\n\
        6 deliver\n\
        7 settle\n\
        8 begin /\n\
        9 read\n\
        10 publish\n\
        11 abandon\n\
        12 scan /a\n\
        13 find /a\n\
        14 kind /a\n\
        15 version /a\n\
        0 print rel:/a\n\
        1 build abs:/ name:/a%20b rel:/ none:/rel:/x\n";
    let table = [
        ("", ""),
        (openings, openings),
        (commands, commands),
        ("0 write /a%20b %00\n", "0 write /a%20b %00\n"),
        ("0 write /e\n", "0 write /e\n"),
        // Escapes that need not be there, and digits in upper case.
        ("0 find /a%2Fb%2f%61\n", "0 find /a/b/a\n"),
        ("%31%35 kin%64 /%C3%A4\n", "15 kind /%c3%a4\n"),
        ("s%65t queue 1%30\n", "set queue 10\n"),
        ("set c%61se i%6esensitive\n", "set case insensitive\n"),
        // A byte that stands for itself, and its neighbours that do not.
        (
            "0 write /a %20%21%22%23%24%25%26\n",
            "0 write /a %20!\"#$%25&\n",
        ),
        ("0 write /a %7D%7E%7F%80%FF\n", "0 write /a }~%7f%80%ff\n"),
        ("0 write /a !~\u{7f}\u{1f}\n", "0 write /a !~%7f%1f\n"),
        ("0 find /ä%25€\n", "0 find /%c3%a4%25%e2%82%ac\n"),
        // Notes and empty lines go.
        ("# a note\n\n0 read\n#\n\n1 settle\n", "0 read\n1 settle\n"),
        (
            "\n#\nset dir /\n# x\n0 read\n# set\n",
            "set dir /\n0 read\n",
        ),
    ];
    for (text, wanted) in table {
        assert!(rt; is_written(alloc, text, wanted), "at {text}");
        assert!(rt; is_written(alloc, wanted, wanted), "again, at {text}");
    }
}
