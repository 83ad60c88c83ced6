// What no clause says: that memory is found for the store and the sink that never fail.
use qs_base::NoMemory;
use qs_ports::{
    CleanSink, CleanStore, FILE_ROOM, ReadFault, Sink, SinkFault, Store, put_all, read_whole,
    write_whole,
};
use std::alloc::Global;
use std::test::Fail;

const TEXT: &[u8] = b"eleven byte";

fn entry(alloc: Global, name: &str, bytes: &[u8]) -> Result<(String, Vec<u8>), NoMemory> {
    Ok((
        String::from_str(alloc, name)?,
        Vec::from_slice(alloc, bytes)?,
    ))
}

// The files `a` and `b`, of which `a` stands in the list twice.
fn files(alloc: Global) -> Result<Vec<(String, Vec<u8>)>, NoMemory> {
    let mut files = Vec::new(alloc);
    files.push(entry(alloc, "a", b"old")?)?;
    files.push(entry(alloc, "b", b"other")?)?;
    files.push(entry(alloc, "a", TEXT)?)?;
    Ok(files)
}

// Copies `a` to `c`.
fn copy<S: Store>(alloc: Global, store: &mut S) -> Result<(), Fail> {
    let bytes = read_whole(alloc, store, "a", 100)?;
    write_whole(store, "c", &bytes)?;
    Ok(())
}

// Puts two pieces, one after the other.
fn put_two<K: Sink>(sink: &mut K) -> Result<(), SinkFault> {
    put_all(sink, b"eleven ")?;
    put_all(sink, b"byte")
}

#[test]
fn clean_forms_take_all(rt: HostRuntime) -> Result<(), Fail> {
    let alloc = rt.alloc();
    let mut store = CleanStore::new(alloc, files(alloc)?)?;
    store.reserve(TEXT.len() + 1 + FILE_ROOM)?;
    copy(alloc, &mut store)?;
    assert_eq!(rt; store.file("c"), Some(TEXT));
    assert_eq!(rt; store.file("b"), Some(b"other".as_slice()));
    assert_eq!(rt; store.file("d"), None);
    let absent = read_whole(alloc, &mut store, "d", 100);
    assert_eq!(rt; absent.err(), Some(ReadFault::Missing));
    let mut sink = CleanSink::new(alloc)?;
    sink.reserve(TEXT.len())?;
    put_two(&mut sink)?;
    assert_eq!(rt; sink.written(), TEXT);
    Ok(())
}
