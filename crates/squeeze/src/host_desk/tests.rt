use super::*;
use std::process;
use std::test::Fail;

#[test]
fn files_are_stored_and_loaded_again(rt: HostRuntime) -> Result<(), Fail> {
    let alloc = rt.alloc();
    let folder = format!(in alloc; "/tmp/squeeze-host-desk-{}", process::id(rt.process()))?;
    fs::create_dir(&rt, folder.as_str())?;
    let name = format!(in alloc; "{}/a", folder.as_str())?;
    let mut bytes = Vec::new(alloc);
    for index in 0..464u32 {
        bytes.push((index % 251) as u8)?;
    }
    let mut desk = HostDesk::new(&rt);
    assert!(rt; matches!(desk.load(alloc, name.as_str(), 464), Err(LoadFault::Failed)));
    desk.store(alloc, name.as_str(), bytes.as_slice())?;
    assert!(rt; desk.load(alloc, name.as_str(), 464)?.as_slice() == bytes.as_slice());
    assert!(rt;
        matches!(
            desk.load(alloc, name.as_str(), 463),
            Err(LoadFault::TooLong)
        )
    );
    desk.print(alloc, b"one line\n")?;
    desk.complain(alloc, b"one complaint\n")?;
    assert!(rt; desk.faults == 1);
    fs::remove_dir_all(&rt, folder.as_str())?;
    Ok(())
}
