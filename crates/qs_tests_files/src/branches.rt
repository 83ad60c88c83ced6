// How branches stand in images: as themselves where they reach.
use qs_driver::{Devices, run_tool};
use qs_image::{ImageView, read};
use qs_isa::{Instr, Register, decode};
use qs_ports::{MemSink, MemStore};
use std::alloc::Global;
use std::test::Fail;

// A table that is searched, as in the rows of bounds.
const SEARCHED: &str = "struct e{int k;char v;};\
    struct e t[4]={{2,'a'},{5,'b'},{9,'c'},{14,'d'}};\
    int find(struct e*p,int n,int k){int lo;int hi;int m;lo=0;hi=n;\
    while(lo<hi){m=lo+(hi-lo)/2;if((p+m)->k==k)return (p+m)->v;if((p+m)->k<k)lo=m+1;else hi=m;}\
    return -1;}\
    int main(int k){int c;c=find(t,4,k);if(c<0)return 1;putchar(c);return 0;}";

// A branch over so many statements.
fn branch_over(alloc: Global, statements: usize) -> Result<String, Fail> {
    let mut source = String::from_str(alloc, "int main(int a){if(a){")?;
    for _ in 0..statements {
        source.push_str("a=a+1;")?;
    }
    source.push_str("}return a;}")?;
    Ok(source)
}

// The store with the image of the source.
fn built(alloc: Global, source: &str) -> Result<MemStore, Fail> {
    let mut files = Vec::new(alloc);
    let text = Vec::from_slice(alloc, source.as_bytes())?;
    files.push((String::from_str(alloc, "a.c")?, text))?;
    let mut store = MemStore::new(alloc, files, 4096, Vec::new(alloc), 1 << 16)?;
    let mut out = MemSink::new(alloc, 4096, Vec::new(alloc), 1 << 16)?;
    let mut log = MemSink::new(alloc, 4096, Vec::new(alloc), 1 << 16)?;
    let mut words = Vec::new(alloc);
    for word in ["build", "a.c", "--out", "a.img"] {
        words.push(String::from_str(alloc, word)?)?;
    }
    let devices = Devices {
        store: &mut store,
        out: &mut out,
        log: &mut log,
    };
    let _ = run_tool(alloc, &words, devices);
    Ok(store)
}

// Whether the word is a branch over one word.
fn is_over_one(word: u32) -> bool {
    match decode(word) {
        None => false,
        Some(i) => match i {
            Instr::Branch { offset, .. } => offset.word() == 8,
            _ => false,
        },
    }
}

// How far the word jumps without an address left behind.
fn jumped(word: u32) -> Option<u32> {
    match decode(word)? {
        Instr::Jal { rd, offset } => {
            if rd.number() == Register::ZERO.number() {
                Some(offset.word())
            } else {
                None
            }
        }
        _ => None,
    }
}

// Of the branches of the code that stand over a jump: how many reach its target themselves, and how
// many don't.
fn over_jumps(image: &ImageView<'_>) -> (u32, u32) {
    let mut near = 0u32;
    let mut far = 0u32;
    for i in 1..image.code_count() {
        if is_over_one(image.code(i - 1)) {
            if let Some(distance) = jumped(image.code(i)) {
                if distance.wrapping_add(4).wrapping_add(4096) < 8192 {
                    near = near.saturating_add(1);
                } else {
                    far = far.saturating_add(1);
                }
            }
        }
    }
    (near, far)
}

#[test]
fn branches_are_short(rt: HostRuntime) -> Result<(), Fail> {
    let alloc = rt.alloc();
    let reached = branch_over(alloc, 300)?;
    let out_of_reach = branch_over(alloc, 1500)?;
    for (source, counts) in [
        (SEARCHED, (0, 0)),
        (reached.as_str(), (0, 0)),
        (out_of_reach.as_str(), (0, 1)),
    ] {
        let store = built(alloc, source)?;
        let image = read(store.file("a.img").ok_or("no image")?)
            .ok()
            .ok_or("no image")?;
        assert_eq!(rt; image.version(), 2);
        assert_eq!(rt; over_jumps(&image), counts);
    }
    Ok(())
}
