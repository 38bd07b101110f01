//! What a crash left of a set of files (own).
ghost use Rattle.std.specs.Prelude.{◌≡◌, ◌<◌, ◌≤◌, ℕ, true, [], length, get_or, take, map, option_map, IfOk};
ghost use Rattle.rig_play.specs.Names.{file_now, ArePresentOf};
ghost use Rattle.rig_play.specs.Plays.{files_of};
ghost use Rattle.rig_store.specs.Left.{image_of, IsLeft, AreLeft, AreNow, MayLeave, IsPresent, MayStand};
ghost use Rattle.rig_store.specs.Names.{holder, is_ordered};
ghost use Rattle.rig_store.specs.Stores.{store_of};
ghost use Rattle.rig_store.specs.internal.Showing.{AreShown, StandBy};

use crate::error::StoreError;
use crate::store::Store;
use crate::table::holder;
use rand_core::Rng;
use rig_play::{Meta, Player};
use std::alloc::Global;

/// What a crash left: for each name in its order the bytes that it shows, or nothing.
#[derive(Drop)]
pub struct Image {
    pub files: Vec<Option<Vec<u8>>>,
}

/// What a crash may leave of a file, drawn.
fn draw_file<R: Rng>(alloc: Global, rng: &mut R, file: &Player) -> Result<Vec<u8>, StoreError>
    ensures { IfOk result (λ bytes. IsLeft (files_of file.now) bytes.items) }
{
    let mut image = rig_images::Image::none(alloc);
    match rig_images::draw(alloc, rng, file, &mut image) {
        Ok(()) => Ok(image.db),
        Err(_) => Err(StoreError::NoMemory),
    }
}

/// The same of each file.
pub(crate) fn draw_files<R: Rng>(
    alloc: Global,
    rng: &mut R,
    files: &[Player],
) -> Result<Vec<Vec<u8>>, StoreError>
    ensures { IfOk result (λ all. AreLeft (map (λ p. files_of p) files.now) (map (λ v. v.items) all.items)) }
{
    let mut contents = Vec::new(alloc);
    for file in files {
        contents.push(draw_file(alloc, rng, file)?)?;
    }
    Ok(contents)
}

/// The present bytes of a file.
fn present_file(alloc: Global, file: &Player) -> Result<Vec<u8>, StoreError>
    ensures { IfOk result (λ bytes. ArePresentOf (file_now (files_of file.now).db) bytes.items) }
{
    let mut bytes = Vec::new(alloc);
    match file.db().append_present(&mut bytes) {
        Ok(()) => Ok(bytes),
        Err(_) => Err(StoreError::NoMemory),
    }
}

/// The same of each file.
fn present_files(alloc: Global, files: &[Player]) -> Result<Vec<Vec<u8>>, StoreError>
    ensures { IfOk result (λ all. AreNow (map (λ p. files_of p) files.now) (map (λ v. v.items) all.items)) }
{
    let mut contents = Vec::new(alloc);
    for file in files {
        contents.push(present_file(alloc, file)?)?;
    }
    Ok(contents)
}

/// How many changes of names a crash leaves, drawn.
pub(crate) fn draw_stand<R: Rng>(rng: &mut R, store: &Store) -> usize
    ensures { MayStand (store_of store.now) result }
{
    let more = store.log.len() - store.durable;
    store.durable + (rng.next_u64() % (more as u64 + 1)) as usize
}

/// What a name shows of files with these contents, behind the first n changes of names.
fn shown(
    alloc: Global,
    store: &Store,
    contents: &[Vec<u8>],
    name: u32,
    n: usize,
) -> Result<Option<Vec<u8>>, StoreError>
    requires { n ≤ length store.now.log.items }
    ensures { IfOk result (λ bytes. option_map (λ v. v.items) bytes
        ≡ option_map (λ i. get_or (map (λ v. v.items) contents.now) i []) (holder (take n store.now.log.items) name)) }
{
    let Some(file) = holder(&store.log[..n], name) else {
        return Ok(None);
    };
    match contents.get(file as usize) {
        Some(bytes) => Ok(Some(bytes.clone()?)),
        None => Ok(Some(Vec::new(alloc))),
    }
}

/// The same of a name, where a crash may leave so many of all names.
pub(crate) fn draw_next<R: Rng>(rng: &mut R, store: &Store, all: usize) -> usize
    requires { MayStand (store_of store.now) all }
    ensures stand { MayStand (store_of store.now) result }
    ensures same { is_ordered (store_of store.now).meta ≡ true → result ≡ all }
{
    match store.meta() {
        Meta::Ordered => all,
        Meta::Parts | Meta::Whole => draw_stand(rng, store),
    }
}

/// How many changes of names a crash leaves of each name, drawn: of all the same, where they become durable in the
/// order of the calls.
fn draw_stands<R: Rng>(alloc: Global, rng: &mut R, store: &Store) -> Result<Vec<usize>, StoreError>
    ensures { IfOk result (λ stands. StandBy (is_ordered (store_of store.now).meta) (store_of store.now) stands.items) }
{
    let all = draw_stand(rng, store);
    let mut stands = Vec::new(alloc);
    for _ in 0..store.names {
        stands.push(draw_next(rng, store, all))?;
    }
    Ok(stands)
}

/// What the names show of files with these contents, each behind so many changes of names.
pub(crate) fn show(
    alloc: Global,
    store: &Store,
    contents: &[Vec<u8>],
    stands: &[usize],
) -> Result<Image, StoreError>
    requires { (j : ℕ) → j < store.now.names → get_or stands.now j 0 ≤ length store.now.log.items }
    ensures { IfOk result (λ image. AreShown (store_of store.now) (map (λ v. v.items) contents.now) stands.now
        store.now.names (image_of image)) }
{
    let mut files = Vec::new(alloc);
    for name in 0..store.names {
        let stand = stands.get(name as usize).copied().unwrap_or(0);
        files.push(shown(alloc, store, contents, name, stand)?)?;
    }
    Ok(Image { files })
}

/// An image that is drawn of those that a crash may leave. NoMemory alone.
pub fn draw<R: Rng>(alloc: Global, rng: &mut R, store: &Store) -> Result<Image, StoreError>
    ensures { IfOk result (λ image. MayLeave (store_of store.now) (image_of image)) }
{
    let contents = draw_files(alloc, rng, &store.files)?;
    let stands = draw_stands(alloc, rng, store)?;
    show(alloc, store, &contents, &stands)
}

/// The files as they are now, where no crash comes. NoMemory alone.
pub fn present(alloc: Global, store: &Store) -> Result<Image, StoreError>
    ensures { IfOk result (λ image. IsPresent (store_of store.now) (image_of image)) }
{
    let contents = present_files(alloc, &store.files)?;
    let stands = all_changes(alloc, store)?;
    show(alloc, store, &contents, &stands)
}

/// Each name behind all changes of names.
fn all_changes(alloc: Global, store: &Store) -> Result<Vec<usize>, StoreError>
    ensures { IfOk result (λ stands. (j : ℕ) → j < store.now.names
        → get_or stands.items j 0 ≡ length store.now.log.items) }
{
    let mut stands = Vec::new(alloc);
    for _ in 0..store.names {
        stands.push(store.log.len())?;
    }
    Ok(stands)
}
