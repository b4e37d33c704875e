//! Texts, lists and stacks: each public call once where memory is ample: no contract says that memory is there.

use std::alloc::Global;
use std::test::Fail;
use sw_base::{ActorId, Duplicate, Items, NoMemory, NodeNo, Stack, Text};

fn greeting(alloc: Global) -> Result<Text, NoMemory> {
    let mut text = Text::from_bytes(alloc, b"hel")?;
    text.push_all(b"lo")?;
    text.copy()
}

// Texts that fit into the text itself, that just do not, and that come to outgrow it.
fn alphabets(alloc: Global) -> Result<Items<Text>, NoMemory> {
    let mut grown = Text::from_vec(alloc, Vec::from_slice(alloc, b"abcdefghijklmn")?)?;
    let mut texts = Items::new(alloc);
    texts.push(grown.copy()?)?;
    grown.push_all(b"o")?;
    texts.push(grown.copy()?)?;
    grown.push_all(b"pqrstuvwxyz")?;
    texts.push(grown)?;
    texts.push(Text::from_vec(alloc, Vec::from_slice(alloc, b"abcdefghijklmno")?)?)?;
    texts.copy()
}

fn labels(alloc: Global) -> Result<Items<Option<Text>>, NoMemory> {
    let mut labels = Items::new(alloc);
    labels.push(Some(Text::from_bytes(alloc, b"to")?))?;
    labels.push(None)?;
    labels.copy()
}

fn digits(alloc: Global) -> Result<Stack<u64>, NoMemory> {
    let mut digits = Stack::new(alloc);
    for digit in [4, 3, 2, 1] {
        digits.push(digit)?;
    }
    digits.copy()
}

fn named(alloc: Global) -> Result<ActorId, NoMemory> {
    let id = ActorId::Named {
        node: NodeNo(2),
        name: Text::from_bytes(alloc, b"echo")?,
    };
    id.copy()
}

#[test]
fn texts_and_lists_are_made_where_memory_is_there(rt: HostRuntime) -> Result<(), Fail> {
    let text = greeting(rt.alloc())?;
    assert_eq!(rt; text.as_bytes(), b"hello".as_slice());
    assert!(rt; text == Text::from_bytes(rt.alloc(), b"hello")?);

    let alphabets = alphabets(rt.alloc())?;
    assert_eq!(rt; alphabets.len(), 4);
    assert_eq!(rt; alphabets.at(0).as_bytes(), b"abcdefghijklmn".as_slice());
    assert_eq!(rt; alphabets.at(1).as_bytes(), b"abcdefghijklmno".as_slice());
    assert_eq!(rt;
        alphabets.at(2).as_bytes(),
        b"abcdefghijklmnopqrstuvwxyz".as_slice()
    );
    assert!(rt; alphabets.at(3) == alphabets.at(1));

    let labels = labels(rt.alloc())?;
    assert_eq!(rt; labels.len(), 2);
    assert!(rt; !labels.is_empty());
    assert_eq!(rt; labels.as_slice().len(), 2);
    assert_eq!(rt; labels.at(1), &None);
    assert!(rt; labels.get(0) == Some(&Some(Text::from_bytes(rt.alloc(), b"to")?)));
    assert!(rt; labels == labels.copy()?);
    Ok(())
}

#[test]
fn stacks_and_identities_are_made_where_memory_is_there(rt: HostRuntime) -> Result<(), Fail> {
    let mut digits = digits(rt.alloc())?;
    assert_eq!(rt; digits.pop(), Some(1));
    digits.discard(1);
    assert_eq!(rt; digits.len(), 2);
    assert!(rt; !digits.is_empty());
    digits.set(1, 7);
    assert_eq!(rt; digits.get(0), Some(&3));
    assert_eq!(rt; digits.get(1), Some(&7));
    assert!(rt; digits == digits.copy()?);

    let named = named(rt.alloc())?;
    assert!(rt; named == named.copy()?);
    assert_eq!(rt; NoMemory.to_string(rt.alloc())?.as_str(), "out of memory");
    Ok(())
}
