//! Desks that have the files of a job, the words of calls over them, and events.

use overlay_event::Event;
use stat_desk::MemDesk;
use std::alloc::{AllocError, Global};

pub fn put(alloc: Global, desk: &mut MemDesk, name: &str, text: &[u8]) -> Result<(), AllocError> {
    desk.put(String::from_str(alloc, name)?, text.to_vec(alloc)?)
}

pub fn desk_of_bytes(
    alloc: Global,
    topology: &[u8],
    samples: &[u8],
    script: &[u8],
) -> Result<MemDesk, AllocError> {
    let mut desk = MemDesk::new(alloc);
    put(alloc, &mut desk, "t", topology)?;
    put(alloc, &mut desk, "s", samples)?;
    put(alloc, &mut desk, "c", script)?;
    Ok(desk)
}

pub fn desk_of(
    alloc: Global,
    topology: &str,
    samples: &str,
    script: &str,
) -> Result<MemDesk, AllocError> {
    desk_of_bytes(
        alloc,
        topology.as_bytes(),
        samples.as_bytes(),
        script.as_bytes(),
    )
}

pub const WORDS: [&str; 5] = [
    "run",
    "--topology=t",
    "--samples=s",
    "--script=c",
    "--workers=1",
];

pub const SIM_WORDS: [&str; 4] = ["sim", "--topology=t", "--samples=s", "--script=c"];

pub const REPLAY_WORDS: [&str; 9] = [
    "replay",
    "--topology",
    "t",
    "--samples",
    "s",
    "--script",
    "c",
    "--journal-in",
    "j",
];

pub fn words_of(alloc: Global, texts: &[&str]) -> Result<Vec<String>, AllocError> {
    let mut words = Vec::new(alloc);
    for text in texts {
        words.push(String::from_str(alloc, text)?)?;
    }
    Ok(words)
}

// The lines that lose the inner nodes of a set, each after as many events, with as many of its messages kept.
pub fn lines_of(alloc: Global, set: u32, after: u32, keep: u32) -> Result<String, AllocError> {
    let mut lines = String::new(alloc);
    for number in 0u32..6 {
        if (set >> number) & 1 == 1 {
            let line = format!(in alloc; "lose c{number}:0 after {after} keep {keep}\n")?;
            lines.push_str(line.as_str())?;
        }
    }
    Ok(lines)
}

pub fn sample(node: u32) -> Event {
    Event::Sample {
        node,
        stream: 0,
        wave: 0,
    }
}

pub fn recv(node: u32, from: u32) -> Event {
    Event::Recv { node, from }
}
