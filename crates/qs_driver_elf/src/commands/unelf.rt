// `unelf`: from the executable in the store to its image in the store.
ghost use Rattle.std.specs.Prelude.{◌≡◌};
ghost use Rattle.qs_cli.specs.Commands.{unelf_words};
ghost use Rattle.qs_cli.specs.Reading.{unelf_words_of};
ghost use Rattle.qs_driver_steps.specs.Promises.{AnswersOn};
ghost use Rattle.qs_driver_session.specs.Names.{names_in};
ghost use Rattle.qs_driver_elf.specs.Unelf.{names_of, to_do, WritesImage};

use qs_cli::UnelfWords;
use qs_driver_session::{
    Devices, ELF_LIMIT, FileKind, FileNames, Status, WordsFault, nameless, read_file, report_done,
};
use qs_elf::read;
use qs_ports::{Sink, Store, write_whole};
use std::alloc::Global;

fn names_of(words: &UnelfWords) -> FileNames<'_>
    ensures { names_in result ≡ names_of (unelf_words_of words.now) }
{
    let none = nameless();
    FileNames {
        elf: words.file.as_str(),
        output: words.out.as_str(),
        ..none
    }
}

// Writes the image of the executable into the out file.
fn unelf_file<S: Store>(alloc: Global, file: &str, out: &str, store: &mut S) -> Result<(), Status>
    ensures { WritesImage (unelf_words file.now out.now) (S.view store.old) (S.view store.new) result }
{
    if file == out {
        return Err(Status::Words(WordsFault::SameName));
    }
    let bytes = read_file(alloc, store, file, FileKind::Elf, ELF_LIMIT)?;
    let image = read(alloc, &bytes)?;
    write_whole(store, out, &image)?;
    Ok(())
}

/// Writes the image of the executable into the out file.
pub fn unelf<S: Store, O: Sink, L: Sink>(
    alloc: Global,
    words: &UnelfWords,
    devices: Devices<'_, S, O, L>,
) -> Status
    ensures { AnswersOn S.view O.view L.view devices.entry devices.exit (to_do words.now) result }
{
    let Devices { store, out: _, log } = devices;
    let work = unelf_file(alloc, words.file.as_str(), words.out.as_str(), store);
    report_done(work, &names_of(words), log)
}
