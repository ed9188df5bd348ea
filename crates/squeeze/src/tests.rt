use super::*;
use sq_desk::MemoryDesk;
use std::test::Fail;

/// The arguments of a program: its name, and then these words.
fn arguments(alloc: Global, words: &[&str]) -> Result<Vec<String>, Fail> {
    let mut all = Vec::new(alloc);
    all.push(format!(in alloc; "squeeze")?)?;
    for word in words {
        all.push(format!(in alloc; "{}", word)?)?;
    }
    Ok(all)
}

#[test]
fn each_of_eight_words_counts(rt: HostRuntime) -> Result<(), Fail> {
    let alloc = rt.alloc();
    let run = ["run", "a", "b", "1000", "1048576", "65536", "x", "y"];
    let words = words_of(alloc, arguments(alloc, &run)?.as_slice())?;
    assert!(rt; words.len() == 8);
    for (index, word) in run.iter().enumerate() {
        assert!(rt; words.get(index) == Some(*word));
    }
    Ok(())
}

#[test]
fn the_status_is_that_of_the_words(rt: HostRuntime) -> Result<(), Fail> {
    let alloc = rt.alloc();
    let mut desk = MemoryDesk::new(alloc, &[])?;
    let trial = arguments(alloc, &["trial", "0", "8"])?;
    assert!(rt; status_of(alloc, &mut desk, trial.as_slice()) == 0);
    assert!(rt; desk.complained().is_empty());
    let pack = arguments(alloc, &["pack", "a", "b", "c", "d", "e", "f", "g"])?;
    assert!(rt; status_of(alloc, &mut desk, pack.as_slice()) == 1);
    assert!(rt; desk.complained() == b"words\n".as_slice());
    let run = arguments(
        alloc,
        &["run", "a", "b", "1000", "1048576", "65536", "x", "y"],
    )?;
    assert!(rt; status_of(alloc, &mut desk, run.as_slice()) == 2);
    Ok(())
}
