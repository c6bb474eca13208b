use super::*;
use case_order::NoMemory;
use script_text::Settings;
use std::test::Fail;

#[test]
fn makes_nine_lines_a_directory(rt: HostRuntime) -> Result<(), Fail> {
    let alloc = rt.alloc();
    for (directories, lines) in [(0, 4), (1, 13), (3, 31)] {
        let script = generated_script(alloc, directories)?;
        assert_eq!(rt; script.settings, Settings::default());
        assert_eq!(rt; script.opening.as_slice().len(), 0);
        assert_eq!(rt; script.lines.as_slice().len(), lines);
    }
    Ok(())
}

#[test]
fn sums_up_a_report(rt: HostRuntime) -> Result<(), Fail> {
    let alloc = rt.alloc();
    let table = [
        (
            b"".as_slice(),
            b"lines 0 hits 0 misses 0 reads 0 md5 d41d8cd98f00b204e9800998ecf8427e\n".as_slice(),
        ),
        // Two builds among other lines.
        (
            b"ok\nbuild 01 hits 2 misses 3 reads 40\nstale 4 reads 9\nbuild 02 hits 1 misses 0 reads 7\nopen\n".as_slice(),
            b"lines 5 hits 3 misses 3 reads 47 md5 53071ec33ebbdf2e007fb5692725f794\n".as_slice(),
        ),
        // What is like the line of a build and is none, and a line that is not ended.
        (
            b"built 01 hits 2 misses 3 reads 40\n build 01 hits 2 misses 3 reads 40\nbuild 01 hits 1".as_slice(),
            b"lines 2 hits 1 misses 0 reads 0 md5 0ccb923685ede7da71be70acccb29b4f\n".as_slice(),
        ),
        // Counts past 65,535 and past 4,294,967,295.
        (
            b"build 01 hits 70000 misses 65536 reads 4294967296\nbuild 02 hits 1 misses 0 reads 4294967295\n".as_slice(),
            b"lines 2 hits 70001 misses 65536 reads 8589934591 md5 09dfbd6984cb6dcc0fa9d4740d1d1276\n".as_slice(),
        ),
    ];
    for (report, line) in table {
        assert_eq!(rt; summary_line(alloc, report)?.as_slice(), line);
    }
    // A count that has no room.
    let large = b"build 01 hits 18446744073709551616 misses 0 reads 0\n".as_slice();
    assert!(rt; matches!(summary_line(alloc, large), Err(NoMemory)));
    Ok(())
}
