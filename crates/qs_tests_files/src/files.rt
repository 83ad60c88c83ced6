// The tool over real files.
use qs_driver::{Devices, run_tool};
use qs_ports::{DirStore, StdSink};
use std::alloc::{AllocError, Global};
use std::fs::{self, File};
use std::process;
use std::test::Fail;

fn words_of(alloc: Global, source: &str, out: &str) -> Result<Vec<String>, AllocError> {
    let mut words = Vec::new(alloc);
    for text in ["build", source, "--out", out] {
        words.push(String::from_str(alloc, text)?)?;
    }
    Ok(words)
}

// The image of a program that puts 33 and returns 0, assembled by hand: the head of 10 words of code, the record of
// main at the fourth word, with its cost and no parameters, and its name; then jal ra, 12; addi a7, x0, 0; ecall; and
// main: addi sp, sp, -16; addi a0, x0, 33; addi a7, x0, 1; ecall; addi a0, x0, 0; addi sp, sp, 16; jalr x0, 0(ra).
const IMAGE: [u8; 92] = [
    0x51, 0x53, 0x49, 0x32, 10, 0, 0, 0, 0, 0, 0, 0, 1, 0, 0, 0, 4, 0, 0, 0, 0, 0, 1, 0, 0, 0, 0,
    0, 0, 0, 0, 0, 4, 0, 0, 0, 12, 0, 1, 0, 16, 0, 0, 0, 0, 0, 0, 0, 0x6d, 0x61, 0x69, 0x6e, 0xef,
    0x00, 0xc0, 0x00, 0x93, 0x08, 0x00, 0x00, 0x73, 0x00, 0x00, 0x00, 0x13, 0x01, 0x01, 0xff, 0x13,
    0x05, 0x10, 0x02, 0x93, 0x08, 0x10, 0x00, 0x73, 0x00, 0x00, 0x00, 0x13, 0x05, 0x00, 0x00, 0x13,
    0x01, 0x01, 0x01, 0x67, 0x80, 0x00, 0x00,
];

const SOURCE: &str = "int main(void){putchar(33);return 0;}\n";

// The statuses of builds, each from a file to another. What standard output and standard error get
// stands in files too.
fn statuses(
    rt: &HostRuntime,
    builds: &[(&str, &str)],
    out: &str,
    log: &str,
) -> Result<Vec<u8>, Fail> {
    let alloc = rt.alloc();
    let mut store = DirStore::new(rt.clone()?);
    let mut lines = StdSink::new(File::create(rt, out)?);
    let mut faults = StdSink::new(File::create(rt, log)?);
    let mut statuses = Vec::new(alloc);
    for (from, to) in builds {
        let words = words_of(alloc, from, to)?;
        let devices = Devices {
            store: &mut store,
            out: &mut lines,
            log: &mut faults,
        };
        statuses.push(run_tool(alloc, &words, devices).code())?;
    }
    Ok(statuses)
}

// The names are those of this process, in the system's folder for such files.
#[test]
fn real_files(rt: HostRuntime) -> Result<(), Fail> {
    let alloc = rt.alloc();
    let id = process::id(rt.process());
    let source = format!(in alloc; "/tmp/qsc_test_{id}.c")?;
    let image = format!(in alloc; "/tmp/qsc_test_{id}.img")?;
    let out = format!(in alloc; "/tmp/qsc_test_{id}.out")?;
    let log = format!(in alloc; "/tmp/qsc_test_{id}.log")?;
    fs::write(&rt, source.as_str(), SOURCE)?;
    let builds = [
        (source.as_str(), image.as_str()),
        (image.as_str(), source.as_str()),
        ("/tmp/qsc_test_no_such_file.c", image.as_str()),
        ("/tmp", image.as_str()),
        (source.as_str(), "/tmp"),
        (source.as_str(), "/dev/full"),
        (source.as_str(), source.as_str()),
    ];
    let statuses = statuses(&rt, builds.as_slice(), out.as_str(), log.as_str())?;
    assert_eq!(rt; statuses.as_slice(), [0, 1, 4, 5, 5, 5, 3].as_slice());
    // The fifth byte of the image is the count of its words, 10: as text, a line feed.
    let told = format!(in alloc;
        "{image}:2:1: bad byte\nmissing: /tmp/qsc_test_no_such_file.c\nfailed: /tmp\n\
        failed: /tmp\nfailed: /dev/full\nsame name: {source}\n"
    )?;
    for (name, bytes) in [
        (image, IMAGE.as_slice()),
        (source, SOURCE.as_bytes()),
        (out, b"cost main 16\n".as_slice()),
        (log, told.as_bytes()),
    ] {
        let held = fs::read(&rt, name.as_str())?;
        assert_eq!(rt; held.as_slice(), bytes, "in {name}");
        fs::remove_file(&rt, name.as_str())?;
    }
    Ok(())
}
