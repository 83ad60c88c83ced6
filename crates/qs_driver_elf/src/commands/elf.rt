// `elf`: from the image in the store to its executable in the store.
ghost use Rattle.std.specs.Prelude.{◌≡◌};
ghost use Rattle.qs_cli.specs.Commands.{elf_words};
ghost use Rattle.qs_cli.specs.Reading.{elf_words_of};
ghost use Rattle.qs_driver_steps.specs.Promises.{AnswersOn};
ghost use Rattle.qs_driver_session.specs.Names.{names_in};
ghost use Rattle.qs_driver_elf.specs.Elf.{names_of, to_do, WritesElf};

use qs_cli::ElfWords;
use qs_driver_session::{
    Devices, FileKind, FileNames, IMAGE_LIMIT, Status, WordsFault, nameless, read_file, report_done,
};
use qs_image::read;
use qs_ports::{Sink, Store, write_whole};
use std::alloc::Global;

fn names_of(words: &ElfWords) -> FileNames<'_>
    ensures { names_in result ≡ names_of (elf_words_of words.now) }
{
    let none = nameless();
    FileNames {
        image: words.image.as_str(),
        output: words.out.as_str(),
        ..none
    }
}

// Writes the executable of the image into the out file.
fn elf_file<S: Store>(alloc: Global, image: &str, out: &str, store: &mut S) -> Result<(), Status>
    ensures { WritesElf (elf_words image.now out.now) (S.view store.old) (S.view store.new) result }
{
    if image == out {
        return Err(Status::Words(WordsFault::SameName));
    }
    let bytes = read_file(alloc, store, image, FileKind::Image, IMAGE_LIMIT)?;
    read(&bytes)?;
    let file = qs_elf::write(alloc, &bytes)?;
    write_whole(store, out, &file)?;
    Ok(())
}

/// Writes the executable of the image into the out file.
pub fn elf<S: Store, O: Sink, L: Sink>(
    alloc: Global,
    words: &ElfWords,
    devices: Devices<'_, S, O, L>,
) -> Status
    ensures { AnswersOn S.view O.view L.view devices.entry devices.exit (to_do words.now) result }
{
    let Devices { store, out: _, log } = devices;
    let work = elf_file(alloc, words.image.as_str(), words.out.as_str(), store);
    report_done(work, &names_of(words), log)
}
