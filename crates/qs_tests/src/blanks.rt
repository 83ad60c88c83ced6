// That memory is found for copies of blanks that are as deep as types nest.
use qs_base::NoMemory;
use qs_memory::Blank;
use std::alloc::Global;
use std::test::*;

/// That of `char c[1][1]..[1]` with 10,000 dimensions.
fn of_a_deep_array(alloc: Global) -> Result<Blank, NoMemory> {
    let mut blank = Blank::Zeros(1);
    for _ in 0..10_000 {
        blank = Blank::Repeated(1, Box::new(alloc, blank)?);
    }
    Ok(blank)
}

/// That of a `char` in 10,000 structs, one in the other.
fn of_a_deep_struct(alloc: Global) -> Result<Blank, NoMemory> {
    let mut blank = Blank::Zeros(1);
    for _ in 0..10_000 {
        let mut members = Vec::new(alloc);
        members.push(blank)?;
        blank = Blank::Joined(members);
    }
    Ok(blank)
}

#[test]
fn a_deep_array(rt: HostRuntime) -> Result<(), Fail> {
    let blank = of_a_deep_array(rt.alloc())?;
    let copy = blank.copy(rt.alloc())?;
    assert!(rt; matches!(copy, Blank::Repeated(1, _)));
    Ok(())
}

#[test]
fn a_deep_struct(rt: HostRuntime) -> Result<(), Fail> {
    let blank = of_a_deep_struct(rt.alloc())?;
    let copy = blank.copy(rt.alloc())?;
    assert!(rt; matches!(copy, Blank::Joined(_)));
    Ok(())
}
