// What a command works on.

/// The store of files, and the two streams: `out` gets results, `log` the lines of faults.
pub struct Devices<'a, S, O, L> {
    pub store: &'a mut S,
    pub out: &'a mut O,
    pub log: &'a mut L,
}

/// The two streams alone, `out` and then `log`.
pub type Streams<'a, O, L> = (&'a mut O, &'a mut L);
