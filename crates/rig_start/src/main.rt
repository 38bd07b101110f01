//! Where a rig that tests storage begins: two commits, of which the first is synced, and after them a crash by each
//! number in turn. It tells which commit each crash leaves.
#![tactic(auto)]

use sqval::PageSize;
use sqworld::{Base, Event, Reply, World};
use std::alloc::{AllocError, Global};
use std::io::{self, Write};

/// A page that is full of a letter.
fn page(alloc: Global, letter: u8) -> Result<Vec<u8>, AllocError> {
    vec![in alloc; letter; 512]
}

/// A database of two pages of `A`, on sectors of 512 bytes.
fn base(alloc: Global) -> Result<Option<Base>, AllocError> {
    let Some(size) = PageSize::new(512) else {
        return Ok(None);
    };
    let mut pages = Vec::new(alloc);
    pages.push(page(alloc, b'A')?)?;
    pages.push(page(alloc, b'A')?)?;
    Ok(Base::new(size, 512, pages))
}

/// A commit of both pages.
fn commit(alloc: Global, letter: u8) -> Result<Event, AllocError> {
    let mut pages = Vec::new(alloc);
    pages.push((1, page(alloc, letter)?))?;
    pages.push((2, page(alloc, letter)?))?;
    Ok(Event::Commit { pages, size: 2 })
}

/// Serves these events, and gives the last reply.
fn serve(alloc: Global, world: &mut World, events: &[Event]) -> Result<Reply, AllocError> {
    let mut last = Reply::Done;
    for event in events {
        match world.serve(alloc, event) {
            Ok(reply) => last = reply,
            Err(_) => return Err(AllocError),
        }
    }
    Ok(last)
}

/// Whether a crash may leave an image of this number.
fn has_image(world: &mut World, number: u64) -> Result<bool, AllocError> {
    let Ok(disk) = world.disk() else {
        return Err(AllocError);
    };
    match disk.choice(number) {
        Ok(choice) => Ok(choice.is_some()),
        Err(_) => Err(AllocError),
    }
}

/// The letter that a page is full of.
fn letter(reply: &Reply) -> Option<u8> {
    match reply {
        Reply::Page(bytes) if bytes.iter().all(|byte| Some(byte) == bytes.first()) => {
            bytes.first().copied()
        }
        _ => None,
    }
}

/// The letter that both pages show after the crash of this number, `?` where they show none; None past the last image.
fn shown(alloc: Global, world: &mut World, number: u64) -> Result<Option<char>, AllocError> {
    let b = commit(alloc, b'B')?;
    let c = commit(alloc, b'C')?;
    serve(
        alloc,
        world,
        &[Event::Open { salts: (1, 1) }, b, Event::Sync, c],
    )?;
    if !has_image(world, number)? {
        return Ok(None);
    }
    serve(
        alloc,
        world,
        &[
            Event::CrashAt(number),
            Event::Open { salts: (1, 2) },
            Event::Begin,
        ],
    )?;
    let first = letter(&serve(alloc, world, &[Event::Read { reader: 0, page: 1 }])?);
    let second = letter(&serve(alloc, world, &[Event::Read { reader: 0, page: 2 }])?);
    Ok(Some(match first {
        Some(letter) if first == second => letter as char,
        _ => '?',
    }))
}

/// The letters of all images, one after another, each in a world of its own.
fn sweep(alloc: Global, base: &Base) -> Result<String, AllocError> {
    let mut letters = String::new(alloc);
    for number in 0..4096 {
        let Ok(mut world) = World::new(alloc, base) else {
            return Err(AllocError);
        };
        let image = shown(alloc, &mut world, number);
        let _ = world.finish();
        match image? {
            Some(letter) => letters.push(letter)?,
            None => break,
        }
    }
    Ok(letters)
}

fn main(rt: HostRuntime) -> io::Result<()> {
    let alloc = rt.alloc();
    let Some(base) = base(alloc)? else {
        return Ok(());
    };
    let letters = sweep(alloc, &base)?;
    let images = letters.chars().count();
    let lost = letters
        .chars()
        .filter(|letter| !matches!(letter, 'B' | 'C'))
        .count();
    println!(rt; "B is synced, C is not. The images, by number, show")?;
    println!(rt; "{letters}\n{images} images, {lost} lost")
}
