use outside::{DiskFolder, Folder, FolderFault, MemoryFolder, MemorySink, OutFault, Sink, StdSink};
use std::alloc::{AllocError, Global};
use std::test::Fail;

fn named(alloc: Global, name: &str, bytes: &[u8]) -> Result<(String, Vec<u8>), AllocError> {
    let name = String::from_str(alloc, name)?;
    let bytes = Vec::from_slice(alloc, bytes)?;
    Ok((name, bytes))
}

fn is_some_and_equal(found: Option<&Vec<u8>>, wanted: &[u8]) -> bool {
    found.map_or(false, |bytes| bytes.as_slice() == wanted)
}

// A folder with an older and a newer file a, and a file b; calls 1 and 4 fail.
fn folder_of_three(alloc: Global) -> Result<MemoryFolder, AllocError> {
    let mut files = Vec::new(alloc);
    files.push(named(alloc, "a", b"old")?)?;
    files.push(named(alloc, "b", b"two")?)?;
    files.push(named(alloc, "a", b"new")?)?;
    let failing = vec![in alloc; 1, 4]?;
    MemoryFolder::new(alloc, files, failing)
}

// Whether a file is read, and has these bytes.
fn reads(folder: &mut MemoryFolder, name: &str, wanted: &[u8]) -> bool {
    is_some_and_equal(folder.read(name).ok().as_ref(), wanted)
}

fn fails_to_read(folder: &mut MemoryFolder, name: &str) -> bool {
    folder.read(name).err() == Some(FolderFault::Failed)
}

fn names_called(alloc: Global, folder: &MemoryFolder) -> Result<String, AllocError> {
    let mut calls = String::new(alloc);
    for name in folder.calls() {
        calls.push_str(name.as_str())?;
    }
    Ok(calls)
}

#[test]
fn a_memory_folder_keeps_the_later_file_and_notes_its_calls(rt: HostRuntime) -> Result<(), Fail> {
    let mut folder = folder_of_three(rt.alloc())?;
    assert!(rt; reads(&mut folder, "a", b"new"), "the later file");
    assert!(rt; fails_to_read(&mut folder, "b"), "call 1 is listed");
    assert!(rt; fails_to_read(&mut folder, "c"), "a name that isn't there");
    assert!(rt; folder.write("c", b"three").is_ok(), "a new name");
    assert!(rt;
        folder.write("a", b"four").err() == Some(FolderFault::Failed),
        "call 4 is listed"
    );
    assert!(rt; reads(&mut folder, "c", b"three"), "what was written");
    assert!(rt;
        is_some_and_equal(folder.file("a"), b"new"),
        "a failed write changes nothing"
    );
    assert!(rt; folder.file("d").is_none(), "no such file");
    assert_eq!(rt; names_called(rt.alloc(), &folder)?.as_str(), "abccac");
    Ok(())
}

#[test]
fn a_memory_sink_appends_and_fails_as_listed(rt: HostRuntime) -> Result<(), Fail> {
    let mut sink = MemorySink::new(rt.alloc(), vec![in rt.alloc(); 1]?);
    assert!(rt; sink.write(b"one").is_ok(), "write 0");
    assert!(rt;
        sink.write(b"two").err() == Some(OutFault::Failed),
        "write 1 is listed"
    );
    assert!(rt; sink.write(b"three").is_ok(), "write 2");
    assert!(rt;
        sink.bytes().as_slice() == b"onethree".as_slice(),
        "a failed write appends nothing"
    );
    Ok(())
}

#[test]
fn a_disk_folder_gives_back_what_it_wrote(rt: HostRuntime) -> Result<(), Fail> {
    let name = "conclave_disk_folder_test";
    let mut folder = DiskFolder::new(&rt);
    assert!(rt;
        folder.write(name, b"\x00bytes\xff").is_ok(),
        "a file is written"
    );
    let bytes = folder.read(name).ok();
    assert!(rt;
        bytes.as_ref().map_or(
            false,
            |bytes| bytes.as_slice() == b"\x00bytes\xff".as_slice()
        ),
        "and read again"
    );
    assert!(rt;
        folder.read("no_such_folder/file").err() == Some(FolderFault::Failed),
        "a missing file"
    );
    std::fs::remove_file(&rt, name)?;
    Ok(())
}

#[test]
fn the_standard_streams_take_text(rt: HostRuntime) -> Result<(), Fail> {
    let mut out = StdSink::out(&rt);
    assert!(rt; out.write(b"out takes text\n").is_ok(), "out");
    let mut err = StdSink::err(&rt);
    assert!(rt; err.write(b"err takes text\n").is_ok(), "err");
    assert!(rt;
        err.write(b"\xff").err() == Some(OutFault::Failed),
        "err takes no other bytes"
    );
    Ok(())
}
