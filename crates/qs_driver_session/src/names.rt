// The files that a command names.
ghost use Rattle.std.specs.Prelude.{◌≡◌};
ghost use Rattle.qs_driver_session.specs.Names.{names_in, no_names, file_name};

use crate::FileKind;

/// The names of the files of a command, as its words give them; those that it doesn't have are
/// empty.
#[derive(Clone, Copy)]
pub struct FileNames<'a> {
    pub source: &'a str,
    pub derivation: &'a str,
    pub image: &'a str,
    pub elf: &'a str,
    pub input: &'a str,
    pub output: &'a str,
}

/// No names.
pub fn nameless() -> FileNames<'static>
    ensures { names_in result ≡ no_names }
{
    FileNames {
        source: "",
        derivation: "",
        image: "",
        elf: "",
        input: "",
        output: "",
    }
}

/// The name of a file of this kind.
pub fn file_name<'a>(names: &FileNames<'a>, kind: FileKind) -> &'a str
    ensures { result.now ≡ file_name (names_in names.now) kind }
{
    match kind {
        FileKind::Source => names.source,
        FileKind::Derivation => names.derivation,
        FileKind::Image => names.image,
        FileKind::Elf => names.elf,
        FileKind::Input => names.input,
        FileKind::Output => names.output,
    }
}
