// Ports are called as a line says, call by call between bars: `ab` is a read that gives these bytes, nothing a read at the end, `xyz=xy` a
// write of which two bytes are taken, and `!` in the place of what comes of a call that it fails.
use port_io::{Port, PortBox, PortFault, WordList, console_port, file_port, mem_port};
use std::alloc::Global;
use std::fs;
use std::rt::Files;
use std::test::Fail;

const FAULT: &str = "!";

// Whether the first so many bytes are this text.
fn begins_with(buf: &[u8], count: usize, text: &str) -> bool {
    match buf.get(..count) {
        Some(bytes) => bytes == text.as_bytes(),
        None => false,
    }
}

fn reads(port: &mut impl Port, wanted: &str) -> bool {
    let mut buf = [0; 8];
    match port.read(&mut buf) {
        Ok(count) => begins_with(&buf, count, wanted),
        Err(PortFault) => wanted == FAULT,
    }
}

fn writes(port: &mut impl Port, bytes: &str, taken: &str) -> bool {
    match port.write(bytes.as_bytes()) {
        Ok(count) => taken != FAULT && count == taken.len(),
        Err(PortFault) => taken == FAULT,
    }
}

fn goes(port: &mut impl Port, call: &str) -> bool {
    match call.split_once('=') {
        Some((bytes, taken)) => writes(port, bytes, taken),
        None => reads(port, call),
    }
}

/// The first call that goes otherwise.
pub fn wrong<'a>(port: &mut impl Port, calls: &'a str) -> Option<&'a str> {
    for call in calls.split('|') {
        if !goes(port, call) {
            return Some(call);
        }
    }
    None
}

fn has_written(port: &impl Port, wanted: &str) -> bool {
    match port.output() {
        Some(bytes) => bytes == wanted.as_bytes(),
        None => false,
    }
}

// A memory port of pieces of 2 bytes and room for 3.
fn memory_goes(
    alloc: Global,
    input: &str,
    bad_reads: &[u64],
    bad_writes: &[u64],
    calls: &str,
    output: &str,
) -> bool {
    match mem_port(alloc, input.as_bytes(), 2, 3, bad_reads, bad_writes) {
        Ok(mut port) => wrong(&mut port, calls).is_none() && has_written(&port, output),
        Err(_) => false,
    }
}

#[test]
fn memory_ports_fail_where_they_are_told_to(rt: HostRuntime) {
    assert!(rt; memory_goes(rt.alloc(), "abcde", &[2], &[], "ab|!|cd|e|", ""));
    // Behind the third write the room is used up.
    assert!(rt; memory_goes(rt.alloc(), "", &[], &[2], "xyz=xy|z=!|zz=z|z=!", "xyz"));
}

// Whether a file holds this text.
fn holds<R: Files + Alloc>(rt: &R, name: &str, text: &str) -> bool {
    match fs::read_to_string(rt, name) {
        Ok(found) => found.as_str() == text,
        Err(_) => false,
    }
}

// A script is read to its end before the file of its replies is made.
fn script_goes<R: Files + Alloc + Copy + Drop>(rt: R, alloc: Global) -> bool {
    match file_port(rt, alloc, "asked") {
        Ok(mut port) => {
            wrong(&mut port, "(names)|").is_none()
                && fs::read_to_string(&rt, "asked.out").is_err()
                && wrong(&mut port, "nam=nam|es=es").is_none()
                && port.output().is_none()
        }
        Err(_) => false,
    }
}

fn absent_goes<R: Files + Copy + Drop>(rt: R, alloc: Global) -> bool {
    match file_port(rt, alloc, "absent") {
        Ok(mut port) => reads(&mut port, FAULT),
        Err(_) => false,
    }
}

#[test]
fn a_file_port_reads_a_script_and_writes_beside_it(rt: HostRuntime) -> Result<(), Fail> {
    fs::write(&rt, "asked", "(names)")?;
    assert!(rt; script_goes(rt, rt.alloc()));
    assert!(rt; holds(&rt, "asked.out", "names"));
    assert!(rt; absent_goes(rt, rt.alloc()));
    Ok(())
}

fn console_goes<R: Input + Print + Drop>(rt: R) -> bool {
    let mut port = console_port(rt);
    writes(&mut port, "names\n", "names\n") && port.output().is_none()
}

#[test]
fn a_console_port_writes_to_standard_output(rt: HostRuntime) {
    assert!(rt; console_goes(rt));
}

fn list_goes(ports: &mut [PortBox]) -> bool {
    match ports {
        [memory, _, missing] => {
            wrong(memory, "abc|de=de").is_none()
                && has_written(memory, "de")
                && reads(missing, FAULT)
        }
        _ => false,
    }
}

#[test]
fn ports_of_each_kind_stand_in_one_list(rt: HostRuntime) -> Result<(), Fail> {
    let alloc = rt.alloc();
    let mut ports: Vec<PortBox> = Vec::new(alloc);
    ports.push(Box::new(alloc, mem_port(alloc, b"abc", 8, 8, &[], &[])?)?)?;
    ports.push(Box::new(alloc, console_port(rt))?)?;
    ports.push(Box::new(alloc, file_port(rt, alloc, "missing")?)?)?;
    assert!(rt; list_goes(&mut ports));
    Ok(())
}

fn put_word(words: &mut WordList, alloc: Global, text: &str) -> bool {
    match String::from_str(alloc, text) {
        Ok(word) => words.push(word).is_ok(),
        Err(_) => false,
    }
}

fn has_word(words: &WordList, place: usize, text: &str) -> bool {
    match words.get(place) {
        Some(word) => word.as_str() == text,
        None => false,
    }
}

#[test]
fn a_list_of_words(rt: HostRuntime) {
    let mut words = WordList::new(rt.alloc());
    assert!(rt; put_word(&mut words, rt.alloc(), "batch"));
    assert!(rt; put_word(&mut words, rt.alloc(), "a"));
    assert_eq!(rt; words.len(), 2);
    assert!(rt; has_word(&words, 1, "a"));
    assert!(rt; words.get(2).is_none());
}
