// Calls of the system that are interrupted: they are tried
// again, and each byte is moved once. The files are real.
ghost use Rattle.std.specs.Prelude.{◌≤◌, IfOk};

use qs_ports::{DirStore, ReadFault, StdSink, put_all, read_whole, write_whole};
use std::alloc::Allocator;
use std::cell::Cell;
use std::fs::{self, File, Metadata, OpenFile, OpenOptions};
use std::io::{self, ErrorKind, Read, Seek, SeekFrom, Write};
use std::process;
use std::rt::Files;
use std::test::Fail;

const TEXT: &[u8] = b"eleven byte";

// So many interruptions come before each call that moves bytes; such a call moves at most so many;
// and after so many of them nothing comes but interruptions.
#[derive(Clone, Copy)]
struct Plan {
    interruptions: u32,
    most: usize,
    moves: u32,
}

// A file that is interrupted by a plan. All calls that are to move bytes are counted.
#[derive(Drop)]
struct Halting<'c, F: Drop> {
    file: F,
    plan: Plan,
    waits: u32,
    calls: &'c Cell<u32>,
}

impl<'c, F: Drop> Halting<'c, F> {
    fn new(file: F, plan: Plan, calls: &'c Cell<u32>) -> Halting<'c, F> {
        Halting {
            file,
            plan,
            waits: plan.interruptions,
            calls,
        }
    }

    // How many of these bytes a call may move, where it isn't interrupted.
    fn room(&mut self, bytes: usize) -> io::Result<usize>
        ensures { IfOk result (λ n. n ≤ bytes) }
    {
        self.calls.set(self.calls.get().saturating_add(1));
        if self.waits > 0 || self.plan.moves == 0 {
            self.waits = self.waits.saturating_sub(1);
            return Err(io::Error::from(ErrorKind::Interrupted));
        }
        self.waits = self.plan.interruptions;
        self.plan.moves -= 1;
        Ok(bytes.min(self.plan.most))
    }
}

impl<F: Read + Drop> Read for Halting<'_, F> {
    fn read(&mut self, into: &mut [u8]) -> io::Result<usize> {
        let room = self.room(into.len())?;
        self.file.read(&mut into[..room])
    }
}

impl<F: Write + Drop> Write for Halting<'_, F> {
    fn write(&mut self, piece: &[u8]) -> io::Result<usize> {
        let room = self.room(piece.len())?;
        self.file.write(&piece[..room])
    }

    fn flush(&mut self) -> io::Result<()> {
        self.file.flush()
    }
}

impl<F: Seek + Drop> Seek for Halting<'_, F> {
    fn seek(&mut self, to: SeekFrom) -> io::Result<u64> {
        self.file.seek(to)
    }
}

impl<F: OpenFile + Drop> OpenFile for Halting<'_, F> {
    fn metadata(&self) -> io::Result<Metadata> {
        self.file.metadata()
    }

    fn set_len(&self, size: u64) -> io::Result<()> {
        self.file.set_len(size)
    }

    fn sync_all(&self) -> io::Result<()> {
        self.file.sync_all()
    }

    fn sync_data(&self) -> io::Result<()> {
        self.file.sync_data()
    }
}

// A system whose files are interrupted by a plan.
#[derive(Drop)]
struct HaltingSystem<'c, R> {
    system: &'c R,
    plan: Plan,
    calls: &'c Cell<u32>,
}

impl<'c, R: Files> Files for HaltingSystem<'c, R> {
    type File = Halting<'c, R::File>;

    type Dir = R::Dir;

    fn open_file(&self, how: &OpenOptions, path: &str) -> io::Result<Halting<'c, R::File>> {
        let file = self.system.open_file(how, path)?;
        Ok(Halting::new(file, self.plan, self.calls))
    }

    fn open_dir(&self, path: &str) -> io::Result<R::Dir> {
        self.system.open_dir(path)
    }

    fn metadata(&self, path: &str) -> io::Result<Metadata> {
        self.system.metadata(path)
    }

    fn symlink_metadata(&self, path: &str) -> io::Result<Metadata> {
        self.system.symlink_metadata(path)
    }

    fn copy(&self, from: &str, to: &str) -> io::Result<u64> {
        self.system.copy(from, to)
    }

    fn rename(&self, from: &str, to: &str) -> io::Result<()> {
        self.system.rename(from, to)
    }

    fn remove_file(&self, path: &str) -> io::Result<()> {
        self.system.remove_file(path)
    }

    fn create_dir(&self, path: &str) -> io::Result<()> {
        self.system.create_dir(path)
    }

    fn remove_dir(&self, path: &str) -> io::Result<()> {
        self.system.remove_dir(path)
    }

    fn remove_dir_all<B: Allocator>(&self, alloc: B, path: &str) -> io::Result<()> {
        self.system.remove_dir_all(alloc, path)
    }
}

// The plans; for each how many calls write the text and what is written so, and how many calls read
// it to its end, or until they fail. A call is tried 1,000 times.
const PLANS: [((u32, usize, u32), (u32, &[u8]), (u32, bool)); 6] = [
    ((0, 3, 9), (4, TEXT), (5, true)),
    ((5, 3, 9), (24, TEXT), (30, true)),
    ((999, 4, 9), (3_000, TEXT), (4_000, true)),
    ((1_000, 4, 9), (1_000, b""), (1_000, false)),
    ((5, 3, 2), (1_012, b"eleven"), (1_012, false)),
    ((0, 11, 1), (1, TEXT), (1_001, false)),
];

fn plan_of((interruptions, most, moves): (u32, usize, u32)) -> Plan {
    Plan {
        interruptions,
        most,
        moves,
    }
}

#[test]
fn interrupted_files_hold_what_was_taken(rt: HostRuntime) -> Result<(), Fail> {
    let alloc = rt.alloc();
    let id = process::id(rt.process());
    let name = format!(in alloc; "/tmp/qsc_test_{id}.written")?;
    for (numbers, (calls, taken), _) in PLANS {
        let plan = plan_of(numbers);
        let counted = Cell::new(0);
        let file = File::create(&rt, name.as_str())?;
        let mut sink = StdSink::new(Halting::new(file, plan, &counted));
        let put = put_all(&mut sink, TEXT);
        assert_eq!(rt; (put.is_ok(), counted.get()), (taken == TEXT, calls));
        let held = fs::read(&rt, name.as_str())?;
        assert_eq!(rt; held.as_slice(), taken);
        counted.set(0);
        let mut store = DirStore::new(HaltingSystem {
            system: &rt,
            plan,
            calls: &counted,
        });
        let written = write_whole(&mut store, name.as_str(), TEXT);
        assert_eq!(rt; (written.is_ok(), counted.get()), (taken == TEXT, calls));
        let held = fs::read(&rt, name.as_str())?;
        assert_eq!(rt; held.as_slice(), taken);
    }
    fs::remove_file(&rt, name.as_str())?;
    Ok(())
}

#[test]
fn interrupted_files_give_what_they_hold(rt: HostRuntime) -> Result<(), Fail> {
    let alloc = rt.alloc();
    let id = process::id(rt.process());
    let name = format!(in alloc; "/tmp/qsc_test_{id}.read")?;
    fs::write(&rt, name.as_str(), TEXT)?;
    for (numbers, _, (calls, whole)) in PLANS {
        let counted = Cell::new(0);
        let mut store = DirStore::new(HaltingSystem {
            system: &rt,
            plan: plan_of(numbers),
            calls: &counted,
        });
        let bytes = read_whole(alloc, &mut store, name.as_str(), 100);
        assert_eq!(rt; counted.get(), calls);
        match bytes {
            Ok(bytes) => assert_eq!(rt; (bytes.as_slice(), true), (TEXT, whole)),
            Err(fault) => assert_eq!(rt; (fault, false), (ReadFault::Failed, whole)),
        }
    }
    fs::remove_file(&rt, name.as_str())?;
    Ok(())
}

#[test]
fn a_write_of_nothing_fails(rt: HostRuntime) -> Result<(), Fail> {
    let alloc = rt.alloc();
    let id = process::id(rt.process());
    let name = format!(in alloc; "/tmp/qsc_test_{id}.nothing")?;
    let counted = Cell::new(0);
    let mut store = DirStore::new(HaltingSystem {
        system: &rt,
        plan: plan_of((0, 0, 9)),
        calls: &counted,
    });
    let written = write_whole(&mut store, name.as_str(), TEXT);
    assert_eq!(rt; (written.is_ok(), counted.get()), (false, 1));
    let held = fs::read(&rt, name.as_str())?;
    assert_eq!(rt; held.len(), 0);
    fs::remove_file(&rt, name.as_str())?;
    Ok(())
}
