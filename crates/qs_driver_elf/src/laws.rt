// Laws: functions that do nothing, for what their clauses say.
ghost use Rattle.qs_driver_elf.specs.Laws.{ElfInPlainWords, ImagesComeBack, UnelfInPlainWords};

/// Of each call of `elf`: where it ends with `Done`, the out file holds the executable of the image
/// that was read, and nothing was put; and where no device failed and memory was found, each image
/// within the limit whose file isn't the out file has its executable.
pub fn elf_in_plain_words()
    ensures { ElfInPlainWords }
{}

/// Of each call of `unelf`: where it ends with `Done`, the out file holds the image of which the file
/// that was read is the executable, and nothing was put; and where no device failed and memory was
/// found, each executable within the limit whose file isn't the out file has its image.
pub fn unelf_in_plain_words()
    ensures { UnelfInPlainWords }
{}

/// Of each image: its executable is within the limit of those that are read, and is that of no other
/// image. So `unelf` of what `elf` wrote gives back the same bytes.
pub fn images_come_back()
    ensures { ImagesComeBack }
{}
