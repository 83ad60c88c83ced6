// That memory is found for the lists of a text of 16 MiB that nests as deep as it may.
use qs_sexpr::{Item, Node, SexprFault, read};
use std::alloc::Global;
use std::test::*;

/// `depth` lists, one in the other, the innermost with a symbol, a number and a comment `times`
/// times.
fn nested(alloc: Global, depth: usize, times: usize) -> Result<Vec<u8>, Fail> {
    let mut text = Vec::new(alloc);
    for _ in 0..depth {
        text.push(b'(')?;
    }
    for _ in 0..times {
        text.extend_from_slice(b"symbol_1 -15 ;c\n")?;
    }
    for _ in 0..depth {
        text.push(b')')?;
    }
    Ok(text)
}

fn answer(alloc: Global, text: &[u8]) -> Result<Vec<Node>, SexprFault> {
    if text.len() > 0x1000000 {
        return Err(SexprFault::NoMemory);
    }
    read(alloc, text)
}

#[test]
fn a_text_at_its_limits(rt: HostRuntime) -> Result<(), Fail> {
    let alloc = rt.alloc();
    let text = nested(alloc, 1024, 1_048_448)?;
    assert_eq!(rt; text.len(), 16_777_216);
    let nodes = answer(alloc, text.as_slice())?;
    assert_eq!(rt; nodes.len(), 2_097_920);
    assert!(rt;
        nodes[0]
            == Node {
                at: 0,
                item: Item::List {
                    parts: 1,
                    nodes: 2_097_919
                }
            }
    );
    assert!(rt;
        nodes[1023]
            == Node {
                at: 1023,
                item: Item::List {
                    parts: 2_096_896,
                    nodes: 2_096_896
                }
            }
    );
    assert!(rt;
        nodes[1025]
            == Node {
                at: 1033,
                item: Item::Number(-15)
            }
    );
    Ok(())
}
