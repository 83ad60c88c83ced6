// A line of a list of files.

/// The name of a source, and that of its proof file, where it has one.
#[derive(Drop)]
pub struct Entry {
    /// The source.
    pub source: String,
    /// Its proof file.
    pub proof: Option<String>,
}
